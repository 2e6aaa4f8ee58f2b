//! Cases of closure on gates: each line of input is answered by one line.
#![tactic(auto)]

mod closures;
mod printing;

use closures::GateCases;
use qv_cases_rows::answer_all;
use std::io;

fn main(rt: HostRuntime) -> io::Result<()> {
    let mut cases = GateCases { alloc: rt.alloc() };
    answer_all(&rt, &mut cases)
}
