//! One section, and what comes behind it.

ghost use Rattle.std.specs.Prelude.{◌≡◌, ◌≤◌, ◌<◌, None};
ghost use Rattle.qv_cases_terms.specs.Posable.{MayBePosed};

use qv_cases_terms::{may_be_posed, terms};
use qv_cert::{CertNext, CertReader, RefusalKind};
use qv_check::{Verdict, check_one};
use qv_io::MemSource;
use qv_store::{Id, Store};
use qv_words::{Answer, Sort};
use std::alloc::Global;

/// What is checked: the formulas, the number of their check-sat, and how many bytes the source
/// gives a call.
#[derive(Clone, Copy)]
pub struct Asked<'a> {
    pub formulas: &'a str,
    pub number: u64,
    pub give: usize,
}

/// How the section of a certificate ends, where this call of its source fails, or none with 0.
/// `None` where it is no case, or for want of memory.
pub fn verdict_on(alloc: Global, asked: Asked<'_>, cert: &[u8], failing: u64) -> Option<String> {
    let mut source = source_of(alloc, cert, asked.give, failing)?;
    verdict_by(alloc, asked, &mut source)
}

// A source that gives so many bytes a call, and fails at this call.
fn source_of(alloc: Global, cert: &[u8], give: usize, failing: u64) -> Option<MemSource> {
    if give == 0 {
        return None;
    }
    let mut bytes = Vec::new(alloc);
    bytes.extend_from_slice(cert).ok()?;
    let mut failures = Vec::new(alloc);
    failures.push(failing).ok()?;
    Some(MemSource::new(bytes, give, failures))
}

// How the section that a source gives ends.
fn verdict_by(alloc: Global, asked: Asked<'_>, source: &mut MemSource) -> Option<String> {
    let mut store = Store::new(alloc);
    let ids = terms(alloc, &mut store, asked.formulas)?;
    if !may_be_posed(alloc, &store, &[Sort::Bool, Sort::Bits(2)], &ids)? {
        return None;
    }
    ending(alloc, asked.number, &mut store, &ids, source)
}

// The same, over a store with the formulas.
fn ending(
    alloc: Global,
    number: u64,
    store: &mut Store,
    ids: &[Id],
    source: &mut MemSource,
) -> Option<String>
    requires { MayBePosed store.old ids.now }
{
    let mut reader = CertReader::new(alloc).ok()?;
    match reader.next_line(source, false) {
        CertNext::Line { .. } => {
            let verdict = check_one(alloc, store, ids, number, 4_096, &mut reader, source);
            told(alloc, verdict, &mut reader, source)
        }
        CertNext::ReadFault => String::from_str(alloc, "read fault").ok(),
        _ => String::from_str(alloc, "no header").ok(),
    }
}

// A verdict, as it is told.
fn told(
    alloc: Global,
    verdict: Verdict,
    reader: &mut CertReader,
    source: &mut MemSource,
) -> Option<String> {
    match verdict {
        Verdict::Accepted(answer) => behind(alloc, answer, reader.next_line(source, false)),
        Verdict::Refused { line, kind } => format!(in alloc; "refused {line} {kind:?}").ok(),
        Verdict::PrefixLimit => String::from_str(alloc, "prefix limit").ok(),
        Verdict::ReadFault => String::from_str(alloc, "read fault").ok(),
        Verdict::ReadLimit => String::from_str(alloc, "read limit").ok(),
        Verdict::NoMemory => None,
    }
}

// An accepted answer, with what the reader says next.
fn behind(alloc: Global, answer: Answer, next: CertNext) -> Option<String> {
    match next {
        CertNext::Line { number, .. } => format!(in alloc; "{answer:?}, line {number} line").ok(),
        CertNext::End { number } => format!(in alloc; "{answer:?}, line {number} end").ok(),
        CertNext::Fault {
            number,
            kind: RefusalKind::Truncated,
        } => format!(in alloc; "{answer:?}, line {number} cut").ok(),
        CertNext::Fault { number, .. } => format!(in alloc; "{answer:?}, line {number} fault").ok(),
        CertNext::ReadFault => String::from_str(alloc, "read fault").ok(),
        CertNext::ReadLimit => String::from_str(alloc, "read limit").ok(),
        CertNext::NoMemory => None,
    }
}
