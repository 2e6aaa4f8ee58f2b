//! Prints what stores, boxed trees and problems answer to the cases of standard input, a line for
//! each. Each case has a store of its own. Terms are written with the arguments before their
//! operator, as `v0:8 8:3 bvadd`, and quantifiers behind their body, as `v0:bool All:0:bool`;
//! `dup` is the last term once more.
#![tactic(auto)]

mod commands;
mod problems;
mod ready;
mod saying;

use commands::TreeCases;
use qv_cases_rows::answer_all;
use std::io;

fn main(rt: HostRuntime) -> io::Result<()> {
    let mut cases = TreeCases { alloc: rt.alloc() };
    answer_all(&rt, &mut cases)
}
