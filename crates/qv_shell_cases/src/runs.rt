//! The whole `run`, and `plan`.
use crate::ending::status_of;
use qv_cases_rows::Answer;
use qv_cases_runs::{
    Case, FlakyReader, FlakyWriter, Given, add_word, check_words, say_quoted, section_count,
    solve_words, whole_source,
};
use qv_io::{MemSink, MemSource, StdSink, StdSource};
use qv_shell::{Plan, Status, plan};
use std::alloc::Global;
use std::io::{self, ErrorKind};
use std::str;

/// Runs `solve` on a script: the status, what is written, the calls of the source and the sink, and
/// how many sections the certificate has. Where the script comes to its end, the certificate is
/// checked beside it.
pub fn solve(alloc: Global, out: &mut Answer, case: &mut Case) {
    let words = solve_words(alloc, out, case.budgets);
    let status = run_over(
        alloc,
        &words,
        &mut case.source,
        &mut case.sink,
        &mut case.cert,
    );
    say_run(out, status, &case.source, &case.sink);
    say_certificate(alloc, out, status, case);
}

// Runs with no certificate to read.
fn run_over(
    alloc: Global,
    words: &[String],
    script: &mut MemSource,
    written: &mut MemSink,
    cert: &mut MemSink,
) -> Status {
    let mut cert_in = MemSource::new(Vec::new(alloc), 1, Vec::new(alloc));
    status_of(alloc, words, script, &mut cert_in, written, cert)
}

// Says how many sections the certificate has, and what its check comes to.
fn say_certificate(alloc: Global, out: &mut Answer, status: Status, case: &Case) {
    say_sections(out, case.cert.bytes());
    match case.texts.as_slice() {
        [script] if status <= 1 => say_check(alloc, out, script, case.cert.bytes()),
        [_] => {}
        _ => out.refuse(),
    }
}

fn say_sections(out: &mut Answer, cert: &[u8]) {
    out.say(" sections=");
    out.show(section_count(cert));
}

// Says what comes of the check of a certificate beside a script.
fn say_check(alloc: Global, out: &mut Answer, script: &[u8], cert: &[u8]) {
    match Given::new(alloc, out, script, cert, 0) {
        Some(mut given) => say_checked(alloc, out, &mut given),
        None => out.refuse(),
    }
}

fn say_checked(alloc: Global, out: &mut Answer, given: &mut Given) {
    let words = check_words(alloc, out);
    let status = status_of(
        alloc,
        &words,
        &mut given.script,
        &mut given.cert_in,
        &mut given.out,
        &mut given.cert_out,
    );
    out.say(" check=");
    out.show(status);
    out.say(" ");
    say_quoted(out, given.out.bytes());
}

/// The plan of some words, and what their run makes of a script of one command.
pub fn words(alloc: Global, out: &mut Answer, case: &mut Case) {
    let words = words_of(alloc, out, &case.texts);
    say_plan(out, &plan(alloc, &words));
    let mut script = whole_source(alloc, out, b"(check-sat)");
    let status = run_over(alloc, &words, &mut script, &mut case.sink, &mut case.cert);
    say_run(out, status, &script, &case.sink);
    say_sections(out, case.cert.bytes());
}

// The texts, which are UTF-8.
fn words_of(alloc: Global, out: &mut Answer, texts: &[Vec<u8>]) -> Vec<String> {
    let mut words = Vec::new(alloc);
    for text in texts {
        match str::from_utf8(text) {
            Ok(word) => add_word(&mut words, String::from_str(alloc, word).ok(), out),
            Err(_) => out.refuse(),
        }
    }
    words
}

fn say_plan(out: &mut Answer, plan: &Plan) {
    match plan {
        Plan::Solve { script, cert } => say_files(out, "solve", &[script, cert]),
        Plan::Check { script, cert } => say_files(out, "check", &[script, cert]),
        Plan::Trim { script, cert, to } => say_files(out, "trim", &[script, cert, to]),
        Plan::Alone => out.say("alone: "),
        Plan::Refused => out.say("refused: "),
        Plan::NoMemory => out.say("no memory: "),
    }
}

fn say_files(out: &mut Answer, command: &str, names: &[&String]) {
    out.say(command);
    for name in names {
        out.say(" ");
        say_quoted(out, name.as_str().as_bytes());
    }
    out.say(": ");
}

/// The same as `solve` over std's reader and writers.
pub fn solve_over_std(alloc: Global, out: &mut Answer, case: &mut Case) {
    let words = solve_words(alloc, out, case.budgets);
    let (status, faults) = run_over_std(alloc, &words, case);
    say_run(out, status, &case.source, &case.sink);
    say_faults(out, &faults);
    say_certificate(alloc, out, status, case);
}

// How a run ends, and the faults of the script, the output and the certificate.
fn run_over_std(alloc: Global, words: &[String], case: &mut Case) -> (Status, [u64; 3]) {
    let mut script = StdSource::new(Ok(FlakyReader(&mut case.source, ErrorKind::Other)));
    let mut cert_in = StdSource::<FlakyReader<'_>>::new(Err(io::Error::from(ErrorKind::NotFound)));
    let mut written = StdSink::new(Ok(FlakyWriter(&mut case.sink, ErrorKind::Other)));
    let mut cert = StdSink::new(Ok(FlakyWriter(&mut case.cert, ErrorKind::Other)));
    let status = status_of(
        alloc,
        words,
        &mut script,
        &mut cert_in,
        &mut written,
        &mut cert,
    );
    (status, [script.faults(), written.faults(), cert.faults()])
}

fn say_faults(out: &mut Answer, faults: &[u64]) {
    out.say(" faults=");
    for (place, count) in faults.iter().enumerate() {
        out.say(if place == 0 { "" } else { "," });
        out.show(*count);
    }
}

fn say_run(out: &mut Answer, status: Status, script: &MemSource, written: &MemSink) {
    out.say("status=");
    out.show(status);
    out.say(" ");
    say_quoted(out, written.bytes());
    out.say(" reads=");
    out.show(script.calls());
    out.say(" left=");
    out.show(script.left().len());
    out.say(" writes=");
    out.show(written.calls());
}
