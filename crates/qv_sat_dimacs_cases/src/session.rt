//! The lines: what each asks.

use super::chain::walked;
use super::judging::{judged, word};
use super::problem::Problem;
use super::solving::{Solved, solve};
use super::steps::{say_all, say_deletions, say_learnt};
use qv_cases_rows::{Answer, Cases, Words, find};
use qv_cnf::Lit;
use qv_sat::{Policy, Work};
use std::alloc::Global;

// What is told of the last answer.
enum Fact {
    Judge,
    Conflicts,
    Steps,
    Learnt,
    Deletions,
    Work,
    Policy,
}

enum Call {
    Comment,
    Begin,
    Solve,
    Chain,
    Last(Fact),
}

static CALLS: [(&str, Call); 11] = [
    ("c", Call::Comment),
    ("p", Call::Begin),
    ("solve", Call::Solve),
    ("chain", Call::Chain),
    ("judge", Call::Last(Fact::Judge)),
    ("conflicts", Call::Last(Fact::Conflicts)),
    ("steps", Call::Last(Fact::Steps)),
    ("learnt", Call::Last(Fact::Learnt)),
    ("deletions", Call::Last(Fact::Deletions)),
    ("work", Call::Last(Fact::Work)),
    ("policy", Call::Last(Fact::Policy)),
];

/// A problem, and what a core answered about it, if one was asked.
#[derive(Drop)]
pub(crate) struct Session {
    alloc: Global,
    problem: Problem,
    solved: Vec<Solved>,
}

impl Session {
    pub(crate) fn new(alloc: Global) -> Session {
        Session {
            alloc,
            problem: Problem::new(alloc),
            solved: Vec::new(alloc),
        }
    }

    // `p cnf VARIABLES CLAUSES`
    fn begin(&mut self, words: &mut Words<'_>, out: &mut Answer) {
        let form = words.next();
        let _variables = words.number::<u32>();
        let promised = words.number();
        if form == "cnf" && words.are_read() && words.is_empty() {
            self.problem.begin(promised);
            self.solved.clear();
        } else {
            out.refuse();
        }
    }

    // `solve LIMIT`
    fn solve(&mut self, words: &mut Words<'_>, out: &mut Answer) {
        let limit = words.number();
        match self.problem.clauses() {
            Some(clauses) if words.are_read() && words.is_empty() => {
                solve_anew(self.alloc, clauses, limit, &mut self.solved, out)
            }
            _ => out.refuse(),
        }
    }

    // A line of a problem.
    fn read(&mut self, first: &str, words: &mut Words<'_>, out: &mut Answer) {
        if !self.problem.read(first, words.rest()) {
            out.refuse();
        }
    }

    fn tell(&self, fact: &Fact, out: &mut Answer) {
        match self.solved.last() {
            Some(solved) => tell_of(self.alloc, &self.problem, solved, fact, out),
            None => out.refuse(),
        }
    }
}

impl Cases for Session {
    fn answer(&mut self, words: &mut Words<'_>, out: &mut Answer) {
        let first = words.next();
        match find(&CALLS, first) {
            Some(Call::Comment) => skip(words),
            Some(Call::Begin) => self.begin(words, out),
            Some(Call::Solve) => self.solve(words, out),
            Some(Call::Chain) => say_walked(self.alloc, words.number(), out),
            Some(Call::Last(fact)) => self.tell(fact, out),
            None => self.read(first, words, out),
        }
    }
}

fn skip(words: &mut Words<'_>) {
    let _text = words.rest();
}

fn say_walked(alloc: Global, pairs: u32, out: &mut Answer) {
    match walked(alloc, pairs) {
        Some(count) => out.show(count),
        None => out.refuse(),
    }
}

fn solve_anew(
    alloc: Global,
    clauses: &[Vec<Lit>],
    limit: u64,
    solved: &mut Vec<Solved>,
    out: &mut Answer,
) {
    solved.clear();
    if !solve(alloc, clauses, limit, solved) {
        out.refuse();
    }
    match solved.last() {
        Some(solved) => say_word(solved, out),
        None => out.refuse(),
    }
}

fn say_word(solved: &Solved, out: &mut Answer) {
    match &solved.answer {
        Some(answer) => out.say(word(answer)),
        None => out.refuse(),
    }
}

fn tell_of(alloc: Global, problem: &Problem, solved: &Solved, fact: &Fact, out: &mut Answer) {
    if solved.answer.is_none() {
        out.refuse();
    }
    match fact {
        Fact::Judge => say_judged(alloc, problem.clauses(), solved, out),
        Fact::Conflicts => out.show(solved.conflicts),
        Fact::Steps => say_all(alloc, solved.steps(), out),
        Fact::Learnt => say_learnt(alloc, solved.steps(), out),
        Fact::Deletions => say_deletions(solved.steps(), out),
        Fact::Work => say_work(&solved.work(), out),
        Fact::Policy => say_policy(&solved.policy(), out),
    }
}

fn say_judged(alloc: Global, clauses: Option<&[Vec<Lit>]>, solved: &Solved, out: &mut Answer) {
    match clauses {
        Some(clauses) => out.say(judged(alloc, clauses, solved)),
        None => out.refuse(),
    }
}

// Both numbers.
fn say_work(work: &Work, out: &mut Answer) {
    say_number("conflicts ", work.conflicts, out);
    say_number(" reductions ", work.reductions, out);
}

fn say_number(name: &str, number: u64, out: &mut Answer) {
    out.say(name);
    out.show(number);
}

// What there was at all.
fn say_policy(policy: &Policy, out: &mut Answer) {
    out.say("restarts ");
    out.say(some(policy.restarts));
    out.say(", reductions above level 0 ");
    out.say(some(policy.reductions_above_zero));
}

fn some(count: u64) -> &'static str {
    if count > 0 { "some" } else { "none" }
}
