//! A case says how its source gives bytes and how its sinks take them.
ghost use Rattle.std.specs.Prelude.{◌≤◌};

use crate::texts::texts_of;
use qv_cases_rows::{Answer, find};
use qv_io::{MemSink, MemSource};
use std::alloc::Global;

/// What a command works on.
#[derive(Drop)]
pub struct Case {
    /// A source over the first text.
    pub source: MemSource,
    pub sink: MemSink,
    /// The sink of the certificate.
    pub cert: MemSink,
    /// How many bytes the sink holds at most.
    pub room: usize,
    pub budgets: Budgets,
    /// How many bytes each call of the source asks for.
    pub sizes: Vec<u64>,
    pub texts: Vec<Vec<u8>>,
}

/// What the words of `solve` say of its budgets: nothing of one that is 0.
#[derive(Clone, Copy)]
pub struct Budgets {
    pub conflicts: u64,
    pub instances: u64,
    pub variables: u64,
}

/// How many bytes a certificate may have.
pub const CERT_ROOM: usize = 1 << 22;

// What a case says of its source and its sinks, lists as it writes them.
#[derive(Clone, Copy)]
struct Settings<'a> {
    // How many bytes the source gives at most in a call.
    give: usize,
    // The numbers of its calls that fail.
    give_fails: &'a str,
    sink: Taking<'a>,
    // Of the certificate, which is taken as it comes where nothing is said.
    cert: Taking<'a>,
    budgets: Budgets,
    sizes: &'a str,
}

// What a case says of a sink.
#[derive(Clone, Copy)]
struct Taking<'a> {
    // How many bytes it takes at most in a call.
    take: usize,
    // The numbers of its calls that fail.
    fails: &'a str,
    // How many bytes it holds at most.
    room: usize,
}

enum Setting {
    Give,
    GiveFails,
    Take,
    TakeFails,
    Room,
    CertTake,
    CertFails,
    CertRoom,
    Conflicts,
    Instances,
    Variables,
    Sizes,
}

static SETTINGS: [(&str, Setting); 12] = [
    ("give", Setting::Give),
    ("give-fails", Setting::GiveFails),
    ("take", Setting::Take),
    ("take-fails", Setting::TakeFails),
    ("room", Setting::Room),
    ("cert-take", Setting::CertTake),
    ("cert-fails", Setting::CertFails),
    ("cert-room", Setting::CertRoom),
    ("conflicts", Setting::Conflicts),
    ("instances", Setting::Instances),
    ("variables", Setting::Variables),
    ("sizes", Setting::Sizes),
];

/// What a case works on: a command, settings, and texts between quotes. None for want of memory.
pub fn read(alloc: Global, line: &str, out: &mut Answer) -> Option<Case> {
    let (head, quoted) = match line.split_once(" \"") {
        Some((head, quoted)) => (head, Some(quoted)),
        None => (line, None),
    };
    let settings = settings_of(head, out);
    let (sink, cert) = sinks_of(alloc, settings, out)?;
    let texts = texts_of(alloc, quoted, out);
    let source = source_of(alloc, settings, &texts, out);
    Some(Case {
        source,
        sink,
        cert,
        room: settings.sink.room,
        budgets: settings.budgets,
        sizes: numbers(alloc, settings.sizes, out),
        texts,
    })
}

// Whole pieces, and nothing fails, but for what is set behind the command.
fn settings_of<'a>(head: &'a str, out: &mut Answer) -> Settings<'a> {
    let mut settings = Settings {
        give: 4096,
        give_fails: "",
        sink: Taking {
            take: 4096,
            fails: "",
            room: 4096,
        },
        cert: Taking {
            take: CERT_ROOM,
            fails: "",
            room: CERT_ROOM,
        },
        budgets: Budgets {
            conflicts: 0,
            instances: 0,
            variables: 0,
        },
        sizes: "",
    };
    let mut words = head.split_ascii_whitespace();
    let _command = words.next();
    for word in words {
        set(&mut settings, word, out);
    }
    settings
}

// Takes a setting: `give=3`.
fn set<'a>(settings: &mut Settings<'a>, setting: &'a str, out: &mut Answer) {
    let (name, value) = setting.split_once('=').unwrap_or((setting, ""));
    match find(&SETTINGS, name) {
        Some(Setting::Give) => settings.give = size(value, out),
        Some(Setting::GiveFails) => settings.give_fails = value,
        Some(Setting::Take) => settings.sink.take = size(value, out),
        Some(Setting::TakeFails) => settings.sink.fails = value,
        Some(Setting::Room) => settings.sink.room = size(value, out),
        Some(Setting::CertTake) => settings.cert.take = size(value, out),
        Some(Setting::CertFails) => settings.cert.fails = value,
        Some(Setting::CertRoom) => settings.cert.room = size(value, out),
        Some(Setting::Conflicts) => settings.budgets.conflicts = number(value, out),
        Some(Setting::Instances) => settings.budgets.instances = number(value, out),
        Some(Setting::Variables) => settings.budgets.variables = number(value, out),
        Some(Setting::Sizes) => settings.sizes = value,
        None => out.refuse(),
    }
}

fn size(text: &str, out: &mut Answer) -> usize {
    match text.parse::<usize>() {
        Ok(size) => size,
        Err(_) => {
            out.refuse();
            0
        }
    }
}

fn number(text: &str, out: &mut Answer) -> u64 {
    match text.parse::<u64>() {
        Ok(number) => number,
        Err(_) => {
            out.refuse();
            0
        }
    }
}

// Numbers between commas, or none.
fn numbers(alloc: Global, text: &str, out: &mut Answer) -> Vec<u64> {
    let mut numbers = Vec::new(alloc);
    if !text.is_empty() {
        for word in text.split(',') {
            if numbers.push(number(word, out)).is_err() {
                out.refuse();
            }
        }
    }
    numbers
}

fn sinks_of(alloc: Global, settings: Settings<'_>, out: &mut Answer) -> Option<(MemSink, MemSink)> {
    let sink = sink_of(alloc, settings.sink, out)?;
    let cert = sink_of(alloc, settings.cert, out)?;
    Some((sink, cert))
}

fn sink_of(alloc: Global, taking: Taking<'_>, out: &mut Answer) -> Option<MemSink> {
    let fails = numbers(alloc, taking.fails, out);
    MemSink::new(alloc, taking.room, piece(taking.take, out), fails).ok()
}

fn source_of(
    alloc: Global,
    settings: Settings<'_>,
    texts: &[Vec<u8>],
    out: &mut Answer,
) -> MemSource {
    let mut text = Vec::new(alloc);
    if let Some(first) = texts.first() {
        add_bytes(&mut text, first, out);
    }
    let fails = numbers(alloc, settings.give_fails, out);
    MemSource::new(text, piece(settings.give, out), fails)
}

/// Adds bytes to a text.
pub fn add_bytes(text: &mut Vec<u8>, bytes: &[u8], out: &mut Answer) {
    if text.extend_from_slice(bytes).is_err() {
        out.refuse();
    }
}

// A source gives a byte, and a sink takes one.
fn piece(size: usize, out: &mut Answer) -> usize
    ensures { 1 ≤ result }
{
    if size > 0 {
        return size;
    }
    out.refuse();
    1
}
