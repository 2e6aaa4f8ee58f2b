//! What the checker says of a section, as it is printed.

ghost use Rattle.std.specs.Prelude.{All, IfSome};
ghost use Rattle.qv_cert.specs.Line.{IsCertLine};
ghost use Rattle.qv_cases_terms.specs.Posable.{MayBePosed};
ghost use Rattle.qv_solve_write.specs.Said.{lines_said};

use crate::asking::Asked;
use qv_cases_rows::Answer as Said;
use qv_cases_terms::{may_be_posed, terms};
use qv_cert::{CertNext, CertReader, Section};
use qv_cert_text::print_cert_line;
use qv_check::{Verdict, check_one};
use qv_io::MemSource;
use qv_store::{Id, Store};
use qv_words::Answer;
use std::alloc::Global;

const HEADER: &[u8] = b"qbv-cert 2\n";

const PIECE: usize = 4096;

/// The bytes of a section behind a header. `None` for want of memory.
pub fn printed(alloc: Global, section: &Section) -> Option<Vec<u8>>
    requires { All IsCertLine (lines_said section.now.lines.items) }
{
    let mut bytes = Vec::new(alloc);
    if bytes.extend_from_slice(HEADER).is_ok() && add_lines(section, &mut bytes) {
        Some(bytes)
    } else {
        None
    }
}

fn add_lines(section: &Section, bytes: &mut Vec<u8>) -> bool
    requires { All IsCertLine (lines_said section.now.lines.items) }
{
    'lines: for line in &section.lines {
        if print_cert_line(line, bytes).is_err() {
            return false;
        }
    }
    true
}

/// Says whether a certificate with one section is accepted with this answer, or how it ends. The
/// checker has a store of its own, with the formulas alone.
pub fn say_judged(alloc: Global, out: &mut Said, asked: Asked<'_>, answer: Answer, cert: Vec<u8>) {
    let mut source = MemSource::new(cert, PIECE, Vec::new(alloc));
    say_read(alloc, out, asked, answer, &mut source);
}

fn say_read(
    alloc: Global,
    out: &mut Said,
    asked: Asked<'_>,
    answer: Answer,
    source: &mut MemSource,
) {
    let mut store = Store::new(alloc);
    match posed(alloc, &mut store, asked) {
        Some(ids) => say_posed(alloc, out, &mut store, &ids, asked.number, answer, source),
        None => out.refuse(),
    }
}

// The formulas, if they may be posed.
fn posed(alloc: Global, store: &mut Store, asked: Asked<'_>) -> Option<Vec<Id>>
    ensures { IfSome result (λ ids. MayBePosed store.new ids.items) }
{
    let ids = terms(alloc, store, asked.formulas)?;
    if may_be_posed(alloc, store, asked.sorts, &ids)? {
        Some(ids)
    } else {
        None
    }
}

fn say_posed(
    alloc: Global,
    out: &mut Said,
    store: &mut Store,
    ids: &[Id],
    number: u64,
    answer: Answer,
    source: &mut MemSource,
)
    requires { MayBePosed store.old ids.now }
{
    match CertReader::new(alloc) {
        Ok(mut reader) => say_checked(alloc, out, store, ids, number, answer, &mut reader, source),
        Err(_) => out.refuse(),
    }
}

fn say_checked(
    alloc: Global,
    out: &mut Said,
    store: &mut Store,
    ids: &[Id],
    number: u64,
    answer: Answer,
    reader: &mut CertReader,
    source: &mut MemSource,
)
    requires { MayBePosed store.old ids.now }
{
    match reader.next_line(source, false) {
        CertNext::Line { .. } => {
            let verdict = check_one(alloc, store, ids, number, 4_096, reader, source);
            say_verdict(out, verdict, answer);
            say_behind(out, reader.next_line(source, false));
        }
        _ => out.say("no header"),
    }
}

fn say_verdict(out: &mut Said, verdict: Verdict, answer: Answer) {
    match verdict {
        Verdict::Accepted(other) => {
            if other == answer {
                out.say("accepted");
            } else {
                out.say("accepted as ");
                out.debug(other);
            }
        }
        Verdict::Refused { line, kind } => {
            out.say("refused ");
            out.show(line);
            out.put(' ');
            out.debug(kind);
        }
        Verdict::PrefixLimit => out.say("prefix limit"),
        Verdict::ReadFault => out.say("read fault"),
        Verdict::ReadLimit => out.say("read limit"),
        Verdict::NoMemory => out.refuse(),
    }
}

// Says what comes behind the section, if something does.
fn say_behind(out: &mut Said, next: CertNext) {
    match next {
        CertNext::End { .. } => {}
        other => {
            out.put(' ');
            out.debug(other);
        }
    }
}
