//! The loop over the lines of standard input.

use crate::answer::Answer;
use crate::words::Words;
use std::alloc::{AllocError, Global};
use std::io;

/// What answers a line.
pub trait Cases {
    fn answer(&mut self, words: &mut Words<'_>, out: &mut Answer);
}

/// Answers each line of standard input. A comment and an empty line stand for themselves.
pub fn answer_all<C: Cases>(
    rt: &(impl Input + Print + AllocGlobal),
    cases: &mut C,
) -> io::Result<()> {
    for line in rt.lines(rt.alloc()) {
        rt.println(answered(rt.alloc(), cases, line?.as_str())?)?;
    }
    Ok(())
}

fn answered<C: Cases>(alloc: Global, cases: &mut C, line: &str) -> Result<String, AllocError> {
    if line.is_empty() || line.starts_with('#') {
        return String::from_str(alloc, line);
    }
    let mut words = Words::new(line);
    let mut out = Answer::new(alloc);
    cases.answer(&mut words, &mut out);
    out.line(alloc, words.are_read() && words.is_empty())
}
