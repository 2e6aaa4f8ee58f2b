//! Prints what words, sorts and terms answer to the cases of standard input, a line for each.
#![tactic(auto)]

mod answers;
mod forms;
mod parsing;
mod printing;
mod readiness;
mod terms;

use answers::WordCases;
use qv_cases_rows::answer_all;
use std::io;

fn main(rt: HostRuntime) -> io::Result<()> {
    let mut cases = WordCases { alloc: rt.alloc() };
    answer_all(&rt, &mut cases)
}
