//! Certificates beside their scripts.

ghost use Rattle.std.specs.Prelude.{◌≤◌};

use crate::ending::status_of;
use qv_cases_rows::{Answer, Words};
use qv_cases_runs::{bytes_of, check_words};
use qv_io::{MemSink, MemSource, NullSink};
use qv_shell::Status;
use std::alloc::Global;

// How many bytes a sink holds.
const ROOM: usize = 65_536;

// What a run is given.
#[derive(Drop)]
struct Given {
    script: MemSource,
    cert: MemSource,
    out: MemSink,
}

// Which call of each object fails.
#[derive(Clone, Copy)]
struct Failing {
    script: u64,
    cert: u64,
    out: u64,
}

/// Says how a whole `check` ends.
pub fn say_check(alloc: Global, words: &mut Words<'_>, out: &mut Answer) {
    let give = words.number::<usize>();
    let failing = Failing {
        script: words.number::<u64>(),
        cert: words.number::<u64>(),
        out: words.number::<u64>(),
    };
    let texts = words.rest();
    if give == 0 {
        out.refuse();
        return;
    }
    match prepared(alloc, texts, give, failing, out) {
        Some(mut given) => run_over(alloc, out, &mut given),
        None => out.refuse(),
    }
}

// The objects of a run over these texts. None for want of memory, or of a certificate.
fn prepared(
    alloc: Global,
    texts: &str,
    give: usize,
    failing: Failing,
    out: &mut Answer,
) -> Option<Given>
    requires { 1 ≤ give }
{
    let (script, cert) = texts.split_once('|')?;
    let written = MemSink::new(alloc, ROOM, give, calls(alloc, failing.out, out)).ok()?;
    Some(Given {
        script: source(alloc, script, give, failing.script, out),
        cert: source(alloc, cert, give, failing.cert, out),
        out: written,
    })
}

// A source over the bytes that a text stands for.
fn source(alloc: Global, text: &str, give: usize, failing: u64, out: &mut Answer) -> MemSource
    requires { 1 ≤ give }
{
    let bytes = bytes_of(alloc, text, out);
    MemSource::new(bytes, give, calls(alloc, failing, out))
}

// The calls that fail.
fn calls(alloc: Global, failing: u64, out: &mut Answer) -> Vec<u64> {
    let mut calls = Vec::new(alloc);
    if calls.push(failing).is_err() {
        out.refuse();
    }
    calls
}

// Says the status of a check, what it wrote, and how often each object was called.
fn run_over(alloc: Global, out: &mut Answer, given: &mut Given) {
    let words = check_words(alloc, out);
    let status = status_of(
        alloc,
        &words,
        &mut given.script,
        &mut given.cert,
        &mut given.out,
        &mut NullSink::new(),
    );
    say_run(out, status, given);
}

fn say_run(out: &mut Answer, status: Status, given: &Given) {
    out.show(status);
    out.say(" ");
    for byte in given.out.bytes() {
        say_byte(out, *byte);
    }
    out.say("| reads ");
    out.show(given.script.calls());
    out.say(" ");
    out.show(given.cert.calls());
    out.say(" writes ");
    out.show(given.out.calls());
}

// Says a byte as cases write it.
fn say_byte(out: &mut Answer, byte: u8) {
    match byte {
        b'\n' => out.say("\\n"),
        32..=91 | 93..=126 => out.put(char::from(byte)),
        _ => out.escape(byte),
    }
}
