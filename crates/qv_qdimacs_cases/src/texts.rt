//! Texts that a source gives in pieces: `GIVE FAILS TEXT`. The source gives at most GIVE bytes a
//! call, and its calls FAILS fail (`-` where none does).

use crate::bytes::bytes_of;
use qv_cases_rows::{Answer, Words};
use qv_cnf::{Lit, Packed};
use qv_io::MemSource;
use qv_qdimacs::{QdimacsFault, QdimacsKind, Quantified, read_qdimacs};
use qv_store::Quant;
use std::alloc::Global;

/// Says the file that the text says, or its fault.
pub fn say_text(alloc: Global, words: &mut Words<'_>, out: &mut Answer) {
    let give = words.number();
    let fails = numbers(alloc, words.next(), out);
    let bytes = bytes_of(alloc, words.rest(), out);
    if give > 0 {
        let mut source = MemSource::new(bytes, give, fails);
        say_read(alloc, &mut source, out);
    } else {
        out.refuse();
    }
}

/// Numbers between commas, or `-` for none.
pub fn numbers(alloc: Global, text: &str, out: &mut Answer) -> Vec<u64> {
    let mut numbers = Vec::new(alloc);
    if text != "-" {
        for number in text.split(',') {
            add_number(&mut numbers, number, out);
        }
    }
    numbers
}

fn add_number(numbers: &mut Vec<u64>, text: &str, out: &mut Answer) {
    let is_kept = match text.parse::<u64>() {
        Ok(number) => numbers.push(number).is_ok(),
        Err(_) => false,
    };
    if !is_kept {
        out.refuse();
    }
}

fn say_read(alloc: Global, source: &mut MemSource, out: &mut Answer) {
    match read_qdimacs(alloc, source) {
        Ok(file) => {
            say_prefix(&file.prefix, out);
            say_clauses(&file.clauses, out);
        }
        Err(QdimacsFault::At { place, kind }) => {
            out.say(kind_text(kind));
            out.put(' ');
            out.show(place);
        }
        Err(QdimacsFault::ReadFault) => out.say("read fault"),
        Err(_) => out.refuse(),
    }
}

fn kind_text(kind: QdimacsKind) -> &'static str {
    match kind {
        QdimacsKind::ProblemLine => "problem line",
        QdimacsKind::Number => "number",
        QdimacsKind::Unfinished => "unfinished",
        QdimacsKind::Repeated => "repeated",
        QdimacsKind::Quantifier => "quantifier",
    }
}

fn say_prefix(prefix: &[Quantified], out: &mut Answer) {
    for quantified in prefix {
        out.put(match quantified.quant {
            Quant::Exists => 'e',
            Quant::Forall => 'a',
        });
        out.show(quantified.variable);
        out.put(' ');
    }
}

// Says clauses, each with its `0`.
fn say_clauses(clauses: &Packed, out: &mut Answer) {
    out.put('/');
    for at in 0..clauses.len() {
        say_clause(clauses.get(at), out);
    }
}

/// Says a clause with its `0`, each word behind a blank.
pub fn say_clause(clause: &[Lit], out: &mut Answer) {
    for lit in clause {
        out.put(' ');
        out.show(lit.number());
    }
    out.say(" 0");
}
