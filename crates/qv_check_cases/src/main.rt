//! Checks sections of certificates, a line of standard input each, and prints how they end:
//! `check NUMBER GIVE TERM;TERM;..|CERT`. The terms are asserted, each written with the arguments
//! before their operator; the certificate has a header and then the section, and its bytes come at
//! most GIVE a call. `each`, `bits` and `fails` check many changes of a certificate. `outer LINE` and
//! `inner LINE` print how a line is read, outside of a refutation and in it, and `reader` what comes of
//! a text, line by line.
#![tactic(auto)]

mod bytes;
mod cases;
mod changes;
mod lines;
mod pieces;
mod readers;
mod sections;

use cases::CheckCases;
use qv_cases_rows::answer_all;
use std::io;

fn main(rt: HostRuntime) -> io::Result<()> {
    let mut cases = CheckCases { alloc: rt.alloc() };
    answer_all(&rt, &mut cases)
}
