//! Cases of sources and sinks.

use crate::objects;
use qv_cases_rows::{Answer, Words};
use qv_cases_runs::{Case, read};
use qv_io::{LIMIT, PIECE};
use std::alloc::Global;
use std::io::ErrorKind;

enum Command {
    Source,
    StdSource,
    SignalSource,
    NoSource,
    SliceSource,
    Sink,
    StdSink,
    SignalSink,
    NoSink,
    SliceSink,
    NullSink,
    Put,
    Limits,
}

static COMMANDS: [(&str, Command); 13] = [
    ("source", Command::Source),
    ("std-source", Command::StdSource),
    ("signal-source", Command::SignalSource),
    ("no-source", Command::NoSource),
    ("slice-source", Command::SliceSource),
    ("sink", Command::Sink),
    ("std-sink", Command::StdSink),
    ("signal-sink", Command::SignalSink),
    ("no-sink", Command::NoSink),
    ("slice-sink", Command::SliceSink),
    ("null-sink", Command::NullSink),
    ("put", Command::Put),
    ("limits", Command::Limits),
];

// Whether the command is about one text.
fn wants_one_text(command: &Command) -> bool {
    matches!(
        command,
        Command::Source | Command::StdSource | Command::SignalSource | Command::SliceSource
    )
}

// Says the answer to a case.
fn answer(alloc: Global, out: &mut Answer, command: &Command, case: &mut Case) {
    match command {
        Command::Source => objects::source(out, case),
        Command::StdSource => objects::std_source(out, case, ErrorKind::BrokenPipe),
        Command::SignalSource => objects::std_source(out, case, ErrorKind::Interrupted),
        Command::NoSource => objects::no_source(out, case),
        Command::SliceSource => objects::slice_source(out, case),
        Command::Sink => objects::sink(out, case),
        Command::StdSink => objects::std_sink(out, case, ErrorKind::BrokenPipe),
        Command::SignalSink => objects::std_sink(out, case, ErrorKind::Interrupted),
        Command::NoSink => objects::no_sink(out, case),
        Command::SliceSink => objects::slice_sink(alloc, out, case),
        Command::NullSink => objects::null_sink(out, case),
        Command::Put => objects::put(out, case),
        Command::Limits => limits(out),
    }
}

fn limits(out: &mut Answer) {
    out.show(LIMIT);
    out.say(" ");
    out.show(PIECE);
}

fn answer_one(alloc: Global, out: &mut Answer, command: &Command, case: &mut Case) {
    if case.texts.len() == 1 || !wants_one_text(command) {
        answer(alloc, out, command, case);
    } else {
        out.refuse();
    }
}

fn answer_to(alloc: Global, out: &mut Answer, command: &Command, line: &str) {
    match read(alloc, line, out) {
        Some(mut case) => answer_one(alloc, out, command, &mut case),
        None => out.refuse(),
    }
}

/// Says what the sources and the sinks of a case do.
pub fn say_objects(alloc: Global, line: &str, out: &mut Answer) {
    match Words::new(line).pick(&COMMANDS) {
        Some(command) => answer_to(alloc, out, command, line),
        None => out.refuse(),
    }
}
