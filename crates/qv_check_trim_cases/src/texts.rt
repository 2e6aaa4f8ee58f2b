//! What is written of a section's text, and of a certificate beside a script.

use qv_cases_rows::{Answer, Words};
use qv_cases_runs::{bytes_of, say_quoted};
use qv_check_clauses::clauses;
use qv_check_trim::trim;
use qv_io::{MemSink, MemSource};
use qv_trim::trim_section;
use std::alloc::Global;

// The most bytes that a source gives and a sink takes at once.
const PIECE: usize = 16;

/// Says how many bytes the section has, or why it isn't written, and what was written of it.
pub fn section(alloc: Global, words: &mut Words<'_>, out: &mut Answer) {
    let room = words.number();
    let text = bytes_of(alloc, words.rest(), out);
    match sink_of(alloc, room) {
        Some(mut sink) => say_section(alloc, &text, &mut sink, out),
        None => out.refuse(),
    }
}

fn say_section(alloc: Global, text: &[u8], sink: &mut MemSink, out: &mut Answer) {
    match trim_section(alloc, text, sink) {
        Ok(size) => out.show(size),
        Err(fault) => out.debug(fault),
    }
    say_bytes(sink, out);
}

/// Says how trimming a certificate ends, what is printed, and what is written.
pub fn trimmed(alloc: Global, words: &mut Words<'_>, out: &mut Answer) {
    let (print, write) = (words.number(), words.number());
    let (mut script, mut cert) = sources_of(alloc, words.rest(), out);
    match (sink_of(alloc, print), sink_of(alloc, write)) {
        (Some(mut print), Some(mut write)) => {
            say_trimmed(alloc, &mut script, &mut cert, &mut print, &mut write, out);
        }
        _ => out.refuse(),
    }
}

fn say_trimmed(
    alloc: Global,
    script: &mut MemSource,
    cert: &mut MemSource,
    print: &mut MemSink,
    write: &mut MemSink,
    out: &mut Answer,
) {
    match trim(alloc, 4_096, script, cert, print, write) {
        Ok(ending) => out.debug(ending),
        Err(halt) => out.debug(halt),
    }
    say_bytes(print, out);
    say_bytes(write, out);
}

/// Says how the run that lists a certificate's clauses ends, and what is written.
pub fn listed(alloc: Global, words: &mut Words<'_>, out: &mut Answer) {
    let room = words.number();
    let (mut script, mut cert) = sources_of(alloc, words.rest(), out);
    match sink_of(alloc, room) {
        Some(mut sink) => say_listed(alloc, &mut script, &mut cert, &mut sink, out),
        None => out.refuse(),
    }
}

fn say_listed(
    alloc: Global,
    script: &mut MemSource,
    cert: &mut MemSource,
    sink: &mut MemSink,
    out: &mut Answer,
) {
    match clauses(alloc, 4_096, script, cert, sink) {
        Ok(ending) => out.debug(ending),
        Err(halt) => out.debug(halt),
    }
    say_bytes(sink, out);
}

// The script and the certificate of a case, with a bar between them.
fn sources_of(alloc: Global, text: &str, out: &mut Answer) -> (MemSource, MemSource) {
    let (script, cert) = text.split_once('|').unwrap_or(("", ""));
    (source_of(alloc, script, out), source_of(alloc, cert, out))
}

fn source_of(alloc: Global, text: &str, out: &mut Answer) -> MemSource {
    MemSource::new(bytes_of(alloc, text, out), PIECE, Vec::new(alloc))
}

fn sink_of(alloc: Global, room: usize) -> Option<MemSink> {
    MemSink::new(alloc, room, PIECE, Vec::new(alloc)).ok()
}

// Says what a sink took.
fn say_bytes(sink: &MemSink, out: &mut Answer) {
    out.put(' ');
    say_quoted(out, sink.bytes());
}
