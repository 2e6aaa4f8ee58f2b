//! Cases of cores: each line of input is answered by one line.
#![tactic(auto)]

mod cores;
mod counted;
mod judging;
mod lits;
mod sessions;
mod tally;

use cores::CoreCase;
use counted::CountedCase;
use qv_cases_rows::{Answer, Cases, Words, answer_all};
use std::io;

// What a line begins with.
enum Group {
    Core,
    Counted,
}

static GROUPS: [(&str, Group); 2] = [("core", Group::Core), ("counted", Group::Counted)];

// A core, and a core under a counter.
#[derive(Drop)]
struct Table<'c, 'n, C: Cases, N: Cases> {
    core: &'c mut C,
    counted: &'n mut N,
}

impl<C: Cases, N: Cases> Cases for Table<'_, '_, C, N> {
    fn answer(&mut self, words: &mut Words<'_>, out: &mut Answer) {
        match words.pick(&GROUPS) {
            Some(Group::Core) => self.core.answer(words, out),
            Some(Group::Counted) => self.counted.answer(words, out),
            None => out.refuse(),
        }
    }
}

// A function that owns one of the groups is proved in seconds, and one that owns both in a minute.
fn answer_with<C: Cases, N: Cases>(
    rt: &(impl Input + Print + AllocGlobal),
    core: &mut C,
    counted: &mut N,
) -> io::Result<()> {
    let mut table = Table { core, counted };
    answer_all(rt, &mut table)
}

fn answer_counted<C: Cases>(
    rt: &(impl Input + Print + AllocGlobal),
    core: &mut C,
) -> io::Result<()> {
    let mut counted = CountedCase::new(rt.alloc());
    answer_with(rt, core, &mut counted)
}

fn main(rt: HostRuntime) -> io::Result<()> {
    let mut core = CoreCase::new(rt.alloc());
    answer_counted(&rt, &mut core)
}
