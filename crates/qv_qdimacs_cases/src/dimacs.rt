//! Texts in the DIMACS format that a source gives in pieces: `GIVE FAILS TEXT`. The source gives at
//! most GIVE bytes a call, and its calls FAILS fail (`-` where none does). A large text is written in
//! pieces.

use crate::bytes::bytes_of;
use crate::pieces::pieces_of;
use crate::texts::{numbers, say_clause};
use qv_cases_rows::{Answer, Words};
use qv_cnf::Packed;
use qv_dimacs::{DimacsFault, read_dimacs};
use qv_io::MemSource;
use std::alloc::Global;

// What is told of a text: all of its clauses, or how many there are and how many literals.
static CALLS: [(&str, bool); 2] = [("text", false), ("large", true)];

/// Says what the text says, and how many calls were made of its source.
pub fn say_dimacs(alloc: Global, words: &mut Words<'_>, out: &mut Answer) {
    match words.pick(&CALLS) {
        Some(is_large) => say_text(alloc, words, *is_large, out),
        None => out.refuse(),
    }
}

fn say_text(alloc: Global, words: &mut Words<'_>, is_large: bool, out: &mut Answer) {
    let give = words.number();
    let fails = numbers(alloc, words.next(), out);
    let bytes = text_of(alloc, words, is_large, out);
    if give > 0 {
        let mut source = MemSource::new(bytes, give, fails);
        say_read(alloc, &mut source, is_large, out);
        out.say(" @");
        out.show(source.calls());
    } else {
        out.refuse();
    }
}

// The bytes that the words that are left write.
fn text_of(alloc: Global, words: &mut Words<'_>, is_large: bool, out: &mut Answer) -> Vec<u8> {
    if is_large {
        pieces_of(alloc, words.rest(), out)
    } else {
        bytes_of(alloc, words.rest(), out)
    }
}

fn say_read(alloc: Global, source: &mut MemSource, is_large: bool, out: &mut Answer) {
    match read_dimacs(alloc, source) {
        Ok(dimacs) => say_clauses(&dimacs.clauses, is_large, out),
        Err(DimacsFault::NoMemory) => out.refuse(),
        Err(fault) => out.debug(fault),
    }
}

// Says clauses, each with its `0`, or how many there are and how many literals.
fn say_clauses(clauses: &Packed, is_large: bool, out: &mut Answer) {
    let mut lits = 0usize;
    out.show(clauses.len());
    out.put(':');
    for at in 0..clauses.len() {
        let clause = clauses.get(at);
        lits = lits.saturating_add(clause.len());
        if !is_large {
            say_clause(clause, out);
        }
    }
    if is_large {
        out.put(' ');
        out.show(lits);
    }
}
