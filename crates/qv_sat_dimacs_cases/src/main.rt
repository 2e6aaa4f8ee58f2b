//! Solves problems in the DIMACS format: reads them from standard input, and answers lines that ask
//! about them.
#![tactic(auto)]

mod chain;
mod judging;
mod problem;
mod session;
mod solving;
mod steps;

use qv_cases_rows::{Answer, Cases, Words};
use session::Session;
use std::alloc::{AllocError, Global};
use std::io;

// Comments and empty lines are copied.
fn is_copied(line: &str) -> bool {
    line.is_empty() || line.starts_with('#')
}

// The lines that answer one, without the last end of a line. It is empty at a line of a problem.
fn answered<C: Cases>(alloc: Global, cases: &mut C, line: &str) -> Result<String, AllocError> {
    let mut words = Words::new(line);
    let mut out = Answer::new(alloc);
    cases.answer(&mut words, &mut out);
    out.line(alloc, words.are_read() && words.is_empty())
}

fn answer_line<C: Cases>(
    rt: &(impl Print + AllocGlobal),
    cases: &mut C,
    line: &str,
) -> io::Result<()> {
    if is_copied(line) {
        return rt.println(line);
    }
    let text = answered(rt.alloc(), cases, line)?;
    if text.is_empty() {
        return Ok(());
    }
    rt.println(text)
}

fn answer_all<C: Cases>(rt: &(impl Input + Print + AllocGlobal), cases: &mut C) -> io::Result<()> {
    for line in rt.lines(rt.alloc()) {
        answer_line(rt, cases, line?.as_str())?;
    }
    Ok(())
}

fn main(rt: HostRuntime) -> io::Result<()> {
    let mut session = Session::new(rt.alloc());
    answer_all(&rt, &mut session)
}
