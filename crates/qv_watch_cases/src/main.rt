//! Cases of literals, clause lists and refutations, and of trails and what is learnt on them: each line
//! of input is answered by one line.
#![tactic(auto)]

mod checks;
mod learning;
mod lists;
mod literals;
mod lits;
mod trails;

use checks::CheckCase;
use lists::ListCase;
use qv_cases_rows::{Answer, Cases, Words, answer_all};
use qv_cnf::Lit;
use std::alloc::Global;
use std::io;
use trails::TrailCase;

// What a line begins with.
enum Group {
    Literal,
    Default,
    Clause,
    Charge,
    List,
    Check,
    Trail,
}

static GROUPS: [(&str, Group); 7] = [
    ("literal", Group::Literal),
    ("default", Group::Default),
    ("clause", Group::Clause),
    ("charge", Group::Charge),
    ("list", Group::List),
    ("check", Group::Check),
    ("trail", Group::Trail),
];

// A clause list, a checker, and a trail.
#[derive(Drop)]
struct Table<'l, 'k, 't, T: Cases> {
    alloc: Global,
    list: &'l mut ListCase,
    check: &'k mut CheckCase,
    trail: &'t mut T,
}

impl<T: Cases> Cases for Table<'_, '_, '_, T> {
    fn answer(&mut self, words: &mut Words<'_>, out: &mut Answer) {
        match words.pick(&GROUPS) {
            Some(Group::Literal) => literals::named(words, out),
            Some(Group::Default) => literals::describe(Lit::default(), out),
            Some(Group::Clause) => literals::clause(self.alloc, words, out),
            Some(Group::Charge) => literals::charge(self.alloc, words, out),
            Some(Group::List) => self.list.answer(words, out),
            Some(Group::Check) => self.check.answer(words, out),
            Some(Group::Trail) => self.trail.answer(words, out),
            None => out.refuse(),
        }
    }
}

fn answer_with<T: Cases>(rt: &(impl Input + Print + AllocGlobal), trail: &mut T) -> io::Result<()> {
    let alloc = rt.alloc();
    let mut list = ListCase::new(alloc);
    let mut check = CheckCase::new(alloc);
    let mut table = Table {
        alloc,
        list: &mut list,
        check: &mut check,
        trail,
    };
    answer_all(rt, &mut table)
}

fn main(rt: HostRuntime) -> io::Result<()> {
    let mut trail = TrailCase::new(rt.alloc());
    answer_with(&rt, &mut trail)
}
