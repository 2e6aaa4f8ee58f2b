//! Files in the QDIMACS format that are solved, and certificates that are checked beside them.

ghost use Rattle.std.specs.Prelude.{IsTrue};
ghost use Rattle.qv_meter.specs.Records.{AreLimits};
ghost use Rattle.qv_meter.specs.Views.{limits_of};

use qv_cases_rows::{Answer, Words};
use qv_cases_runs::{CERT_ROOM, bytes_of, say_quoted};
use qv_io::{MemSink, MemSource, PIECE};
use qv_meter::{Limits, Meter};
use qv_shell_qdimacs::{Ending, FileEnding, check_file, solve_file};
use std::alloc::Global;

// More than is printed of any case.
const ROOM: usize = 1 << 12;

// What is done.
#[derive(Clone, Copy)]
enum Call {
    Solve,
    Check,
}

static CALLS: [(&str, Call); 2] = [("solve", Call::Solve), ("check", Call::Check)];

/// `solve CONFLICTS INSTANCES VARIABLES "TEXT"` solves the file of a text within these limits, and
/// checks the certificate beside the same text. `check "TEXT" "CERT"` checks a certificate.
pub fn say_file(alloc: Global, words: &mut Words<'_>, out: &mut Answer) {
    match words.pick(&CALLS) {
        Some(Call::Solve) => say_solved(alloc, words, out),
        Some(Call::Check) => say_checked(alloc, words, out),
        None => out.refuse(),
    }
}

// Solves a file, and checks the certificate that is written: two statuses, each with what is printed.
fn say_solved(alloc: Global, words: &mut Words<'_>, out: &mut Answer) {
    let limits = Limits {
        conflicts: words.number::<u64>(),
        instances: words.number::<u64>(),
        variables: words.number::<u32>(),
    };
    let text = inside(words.rest(), out);
    match MemSink::new(alloc, CERT_ROOM, PIECE, Vec::new(alloc)) {
        Ok(mut cert) => {
            solve(alloc, limits, text, &mut cert, out);
            out.put(' ');
            check(alloc, text, cert.bytes(), out);
        }
        Err(_) => out.refuse(),
    }
}

// Checks a certificate: the status, and what is printed.
fn say_checked(alloc: Global, words: &mut Words<'_>, out: &mut Answer) {
    let texts = inside(words.rest(), out);
    let (text, cert) = texts.split_once("\" \"").unwrap_or(("", ""));
    let cert = bytes_of(alloc, cert, out);
    check(alloc, text, &cert, out);
}

// What stands between quotes.
fn inside<'a>(text: &'a str, out: &mut Answer) -> &'a str {
    match text.strip_prefix('"') {
        Some(text) => match text.strip_suffix('"') {
            Some(text) => text,
            None => refused(out),
        },
        None => refused(out),
    }
}

fn refused(out: &mut Answer) -> &'static str {
    out.refuse();
    ""
}

// Solves the file of a text that a case writes.
fn solve(alloc: Global, limits: Limits, text: &str, cert: &mut MemSink, out: &mut Answer) {
    if !are_limits(limits) {
        out.refuse();
        return;
    }
    let bytes = bytes_of(alloc, text, out);
    let mut file = MemSource::new(bytes, PIECE, Vec::new(alloc));
    match MemSink::new(alloc, ROOM, PIECE, Vec::new(alloc)) {
        Ok(mut sink) => {
            say_answer(alloc, limits, &mut file, &mut sink, cert, out);
            say_quoted(out, sink.bytes());
        }
        Err(_) => out.refuse(),
    }
}

fn say_answer(
    alloc: Global,
    limits: Limits,
    file: &mut MemSource,
    sink: &mut MemSink,
    cert: &mut MemSink,
    out: &mut Answer,
)
    requires { AreLimits (limits_of limits) }
{
    let mut meter = Meter::new(alloc);
    match solve_file(alloc, 4_096, limits, file, sink, cert, &mut meter) {
        Ok(FileEnding::Answered) => out.say("0 "),
        Ok(FileEnding::Faulty) => out.say("1 "),
        Err(halt) => out.debug(halt),
    }
}

// Checks a certificate beside the text that a case writes.
fn check(alloc: Global, text: &str, cert: &[u8], out: &mut Answer) {
    let bytes = bytes_of(alloc, text, out);
    let mut file = MemSource::new(bytes, PIECE, Vec::new(alloc));
    match Vec::from_slice(alloc, cert) {
        Ok(cert) => check_beside(alloc, &mut file, cert, out),
        Err(_) => out.refuse(),
    }
}

fn check_beside(alloc: Global, file: &mut MemSource, cert: Vec<u8>, out: &mut Answer) {
    let mut cert = MemSource::new(cert, PIECE, Vec::new(alloc));
    match MemSink::new(alloc, ROOM, PIECE, Vec::new(alloc)) {
        Ok(mut sink) => {
            say_verdict(alloc, file, &mut cert, &mut sink, out);
            say_quoted(out, sink.bytes());
        }
        Err(_) => out.refuse(),
    }
}

fn say_verdict(
    alloc: Global,
    file: &mut MemSource,
    cert: &mut MemSource,
    sink: &mut MemSink,
    out: &mut Answer,
) {
    match check_file(alloc, 4_096, file, cert, sink) {
        Ok(Ending::Accepted) => out.say("0 "),
        Ok(Ending::Faulty) => out.say("1 "),
        Ok(Ending::Refused) => out.say("6 "),
        Err(halt) => out.debug(halt),
    }
}

// Whether a record may have these limits.
fn are_limits(limits: Limits) -> bool
    ensures { IsTrue result → AreLimits (limits_of limits) }
{
    let Limits {
        conflicts,
        instances,
        variables,
    } = limits;
    if conflicts < 1 || conflicts >= 1 << 60 {
        return false;
    }
    if instances < 1 || instances >= 1 << 60 {
        return false;
    }
    variables >= 1 && variables <= 1 << 30
}
