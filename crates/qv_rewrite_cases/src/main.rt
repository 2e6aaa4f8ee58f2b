//! Prints what passes and simplification make of the terms of standard input, a line for each.
//! Terms are written with the arguments before their operator: `v0:8 8:3 bvadd`. Also prints what
//! `prenex` makes of terms: `prenex SORTS/TERMS` gives the prefix, the constants and the matrix, `count
//! SORTS/TERMS` how many places and blocks there are, and `within N SORTS/TERMS` the same under a limit
//! of N places. Each case has a store of its own.
#![tactic(auto)]

mod posed;
mod problems;
mod rewriting;

use qv_cases_rows::answer_all;
use rewriting::RewriteCases;
use std::io;

fn main(rt: HostRuntime) -> io::Result<()> {
    let mut cases = RewriteCases { alloc: rt.alloc() };
    answer_all(&rt, &mut cases)
}
