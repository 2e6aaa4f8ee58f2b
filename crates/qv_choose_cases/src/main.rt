//! Prints what terms are chosen for blocks, and the candidates for a place, a line of standard
//! input each: `choose FIRST END WORDS | REGION` and `candidates FIRST END PLACE | REGION`. Regions
//! are written with the arguments before their operator: `v1:8 v0:8 bvnot =`. Also prints what the
//! calls on inverse terms and the generator answer.
#![tactic(auto)]

mod choosing;
mod inverses;
mod ready;
mod scripts;

use choosing::say_chosen;
use inverses::say_inverse;
use qv_cases_rows::{Answer, Cases, Words, answer_all};
use scripts::{say_block, say_script, say_state, say_sum};
use std::alloc::Global;
use std::io;

enum Call {
    Choose,
    Candidates,
    Invert,
    State,
    Block,
    Script,
    Sum,
}

static CALLS: [(&str, Call); 7] = [
    ("choose", Call::Choose),
    ("candidates", Call::Candidates),
    ("invert", Call::Invert),
    ("state", Call::State),
    ("block", Call::Block),
    ("script", Call::Script),
    ("sum", Call::Sum),
];

// The cases have no state.
#[derive(Clone, Copy)]
struct TermCases {
    alloc: Global,
}

impl Cases for TermCases {
    fn answer(&mut self, words: &mut Words<'_>, out: &mut Answer) {
        match words.pick(&CALLS) {
            Some(Call::Choose) => say_chosen(self.alloc, true, words, out),
            Some(Call::Candidates) => say_chosen(self.alloc, false, words, out),
            Some(Call::Invert) => say_inverse(self.alloc, words, out),
            Some(Call::State) => say_state(words, out),
            Some(Call::Block) => say_block(self.alloc, words, out),
            Some(Call::Script) => say_script(self.alloc, words, out),
            Some(Call::Sum) => say_sum(self.alloc, words, out),
            None => out.refuse(),
        }
    }
}

fn main(rt: HostRuntime) -> io::Result<()> {
    let mut cases = TermCases { alloc: rt.alloc() };
    answer_all(&rt, &mut cases)
}
