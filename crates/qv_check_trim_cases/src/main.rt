//! Reads cases of sections and of certificates beside scripts from standard input, and prints what is
//! written of each, trimmed or as clause lists; and cases of proofs beside CNF texts, and prints what
//! they come to.
#![tactic(auto)]

mod proofs;
mod texts;

use qv_cases_rows::{Answer, Cases, Words, answer_all};
use std::alloc::Global;
use std::io;

enum Call {
    Section,
    Trim,
    Clauses,
    Proof,
}

static CALLS: [(&str, Call); 4] = [
    ("section", Call::Section),
    ("trim", Call::Trim),
    ("clauses", Call::Clauses),
    ("proof", Call::Proof),
];

// The cases have no state.
#[derive(Clone, Copy)]
struct TextCases {
    alloc: Global,
}

impl Cases for TextCases {
    fn answer(&mut self, words: &mut Words<'_>, out: &mut Answer) {
        match words.pick(&CALLS) {
            Some(Call::Section) => texts::section(self.alloc, words, out),
            Some(Call::Trim) => texts::trimmed(self.alloc, words, out),
            Some(Call::Clauses) => texts::listed(self.alloc, words, out),
            Some(Call::Proof) => proofs::say_proof(self.alloc, words, out),
            None => out.refuse(),
        }
    }
}

fn main(rt: HostRuntime) -> io::Result<()> {
    let mut cases = TextCases { alloc: rt.alloc() };
    answer_all(&rt, &mut cases)
}
