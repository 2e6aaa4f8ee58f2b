//! A checker of refutations.

use crate::lists::yes_or_no;
use crate::lits::literal;
use qv_cases_rows::{Answer, Words};
use qv_cnf::{Lit, Step};
use qv_rup::{Checker, OriginalFault, StepFault};
use std::alloc::Global;

enum Call {
    New,
    Original,
    Step,
    Rup,
    Refuted,
}

static CALLS: [(&str, Call); 5] = [
    ("new", Call::New),
    ("original", Call::Original),
    ("step", Call::Step),
    ("rup", Call::Rup),
    ("refuted", Call::Refuted),
];

/// A checker that is given clauses and steps.
#[derive(Drop)]
pub(crate) struct CheckCase {
    alloc: Global,
    checker: Checker,
}

impl CheckCase {
    pub(crate) fn new(alloc: Global) -> CheckCase {
        CheckCase {
            alloc,
            checker: Checker::new(alloc),
        }
    }

    /// Answers a line behind its first word.
    pub(crate) fn answer(&mut self, words: &mut Words<'_>, out: &mut Answer) {
        match words.pick(&CALLS) {
            Some(Call::New) => self.renew(out),
            Some(Call::Original) => self.original(words, out),
            Some(Call::Step) => self.step(words, out),
            Some(Call::Rup) => self.rup_step(words, out),
            Some(Call::Refuted) => out.say(yes_or_no(self.checker.is_refuted())),
            None => out.refuse(),
        }
    }

    fn renew(&mut self, out: &mut Answer) {
        self.checker = Checker::new(self.alloc);
        out.say("ok");
    }

    fn original(&mut self, words: &mut Words<'_>, out: &mut Answer) {
        let id = words.number();
        let lits = words.each(self.alloc, literal);
        if words.are_read() {
            say_given(self.checker.original(id, &lits), out);
        }
    }

    fn step(&mut self, words: &mut Words<'_>, out: &mut Answer) {
        match read_step(self.alloc, words) {
            Some(step) => say_taken(self.checker.step(&step), out),
            None => out.refuse(),
        }
    }

    fn rup_step(&mut self, words: &mut Words<'_>, out: &mut Answer) {
        match read_step(self.alloc, words) {
            Some(step) => say_taken(self.checker.rup_step(&step), out),
            None => out.refuse(),
        }
    }
}

fn say_given(given: Result<(), OriginalFault>, out: &mut Answer) {
    match given {
        Ok(()) => out.say("ok"),
        Err(OriginalFault::Order) => out.say("order"),
        Err(OriginalFault::NoMemory) => out.refuse(),
    }
}

fn say_taken(taken: Result<(), StepFault>, out: &mut Answer) {
    match taken {
        Ok(()) => out.say("ok"),
        Err(StepFault::Order) => out.say("order"),
        Err(StepFault::Rat { hint }) => say_hint("rat ", hint, out),
        Err(StepFault::Hint { hint }) => say_hint("hint ", hint, out),
        Err(StepFault::Open) => out.say("open"),
        Err(StepFault::NoMemory) => out.refuse(),
    }
}

fn say_hint(word: &str, hint: u64, out: &mut Answer) {
    out.say(word);
    out.show(hint);
}

// A line of an LRAT proof, without the 0 at its end.
fn read_step(alloc: Global, words: &mut Words<'_>) -> Option<Step> {
    let id = words.number();
    if words.passes("d") {
        let ids = words.each(alloc, |word| word.parse::<u64>().ok());
        deletion(id, ids, words.are_read())
    } else {
        let numbers = words.each(alloc, |word| word.parse::<i64>().ok());
        addition(alloc, id, &numbers, words.are_read())
    }
}

fn deletion(id: u64, ids: Vec<u64>, are_read: bool) -> Option<Step> {
    if are_read {
        Some(Step::Delete { id, ids })
    } else {
        None
    }
}

// The literals stand before the first 0, and the hints behind it.
fn addition(alloc: Global, id: u64, numbers: &[i64], are_read: bool) -> Option<Step> {
    let zero = numbers.iter().position(|number| *number == 0)?;
    let lits = lits_of(alloc, &numbers[..zero]);
    match Vec::from_slice(alloc, &numbers[zero + 1..]) {
        Ok(hints) if are_read && lits.len() == zero => Some(Step::Add { id, lits, hints }),
        _ => None,
    }
}

// The literals of these numbers. One that is none is left out.
fn lits_of(alloc: Global, numbers: &[i64]) -> Vec<Lit> {
    let mut lits = Vec::new(alloc);
    for number in numbers {
        add_literal(&mut lits, *number);
    }
    lits
}

fn add_literal(lits: &mut Vec<Lit>, number: i64) -> Option<()> {
    let number = i32::try_from(number).ok()?;
    lits.push(Lit::new(number)?).ok()
}
