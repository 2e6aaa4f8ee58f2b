//! Reads cases of quantified formulas from standard input, and prints the terms that they are.
//! `formula PREFIX/CLAUSES` gives the term and the outer variables, and `size PREFIX/CLAUSES` how
//! many terms there are, and how deep the formula is. A prefix is written as `a1 e2`, and each clause
//! ends with a `0`. Each case has a store of its own. `text GIVE FAILS TEXT` gives the file that a text
//! says, or its fault. `dimacs` stands before cases of texts in the DIMACS format, and `lrat` before
//! those of lines of proofs.
#![tactic(auto)]

mod bytes;
mod dimacs;
mod files;
mod formulas;
mod lines;
mod pieces;
mod steps;
mod texts;

use dimacs::say_dimacs;
use formulas::say_file;
use lines::say_lrat;
use qv_cases_rows::{Answer, Cases, Words, answer_all};
use std::alloc::Global;
use std::io;
use texts::say_text;

// What is told: the term of a file, how large it is, what a text says, or what a line does.
#[derive(Clone, Copy)]
enum Call {
    Formula,
    Size,
    Text,
    Dimacs,
    Lrat,
}

static CALLS: [(&str, Call); 5] = [
    ("formula", Call::Formula),
    ("size", Call::Size),
    ("text", Call::Text),
    ("dimacs", Call::Dimacs),
    ("lrat", Call::Lrat),
];

// The cases have no state.
#[derive(Clone, Copy)]
struct FileCases {
    alloc: Global,
}

impl Cases for FileCases {
    fn answer(&mut self, words: &mut Words<'_>, out: &mut Answer) {
        match words.pick(&CALLS) {
            Some(Call::Formula) => say_file(self.alloc, words.rest(), false, out),
            Some(Call::Size) => say_file(self.alloc, words.rest(), true, out),
            Some(Call::Text) => say_text(self.alloc, words, out),
            Some(Call::Dimacs) => say_dimacs(self.alloc, words, out),
            Some(Call::Lrat) => say_lrat(self.alloc, words, out),
            None => out.refuse(),
        }
    }
}

fn main(rt: HostRuntime) -> io::Result<()> {
    let mut cases = FileCases { alloc: rt.alloc() };
    answer_all(&rt, &mut cases)
}
