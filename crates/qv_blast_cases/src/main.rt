//! Prints the clause lists of the formulas of standard input, a line for each case, which has a
//! store of its own. Terms are written with the arguments before their operator, as `v0:8 8:3
//! bvult`; `dup` is the last term once more. Also prints circuits of operators, by their clauses.
#![tactic(auto)]

mod asking;
mod cases;
mod circuits;
mod parsing;
mod printing;

use cases::BlastCases;
use qv_cases_rows::answer_all;
use std::io;

fn main(rt: HostRuntime) -> io::Result<()> {
    let mut cases = BlastCases { alloc: rt.alloc() };
    answer_all(&rt, &mut cases)
}
