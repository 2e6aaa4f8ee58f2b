//! Answers of cores by other means: values are looked at clause by clause, and steps are given to a
//! checker.

use qv_cnf::{Lit, Step};
use qv_rup::Checker;
use qv_sat::{Outcome, SatFault};
use std::alloc::Global;

/// A clause that a core was given.
#[derive(Drop)]
pub(crate) struct Original {
    pub(crate) id: u64,
    pub(crate) lits: Vec<Lit>,
}

fn is_true(lit: Lit, values: &[bool]) -> bool {
    let place = (lit.variable() as usize).wrapping_sub(1);
    match values.get(place) {
        Some(value) => *value == lit.is_positive(),
        None => false,
    }
}

fn some_true(lits: &[Lit], values: &[bool]) -> bool {
    for lit in lits {
        if is_true(*lit, values) {
            return true;
        }
    }
    false
}

fn all_true(lits: &[Lit], values: &[bool]) -> bool {
    for lit in lits {
        if !is_true(*lit, values) {
            return false;
        }
    }
    true
}

// Whether the values make every clause and every assumption true.
fn is_model(originals: &[Original], assumptions: &[Lit], values: &[bool]) -> bool {
    for original in originals {
        if !some_true(&original.lits, values) {
            return false;
        }
    }
    all_true(assumptions, values)
}

// The least id of a clause that comes behind the step.
fn bound(step: &Step) -> u64 {
    match step {
        Step::Add { id, .. } => *id,
        Step::Delete { id, .. } => id.saturating_add(1),
    }
}

// Gives the clauses from this place on whose ids are below the bound. The answer is the place
// behind them, if each was taken.
fn give(checker: &mut Checker, originals: &[Original], from: usize, bound: u64) -> Option<usize> {
    let mut place = from;
    while place < originals.len() && originals[place].id < bound {
        let original = &originals[place];
        if checker.original(original.id, &original.lits).is_err() {
            return None;
        }
        place += 1;
    }
    Some(place)
}

// Whether the checker takes the clauses and the steps in the order of their ids.
fn takes_all(checker: &mut Checker, originals: &[Original], steps: &[Step]) -> bool {
    let mut place = 0;
    for step in steps {
        match give(checker, originals, place, bound(step)) {
            Some(next) => place = next,
            None => return false,
        }
        if checker.step(step).is_err() {
            return false;
        }
    }
    give(checker, originals, place, u64::MAX) == Some(originals.len())
}

// Whether a checker that took all of these refutes the clauses, where it takes them.
fn refuted(alloc: Global, originals: &[Original], steps: &[Step]) -> Option<bool> {
    let mut checker = Checker::new(alloc);
    if takes_all(&mut checker, originals, steps) {
        Some(checker.is_refuted())
    } else {
        None
    }
}

fn all_among(assumptions: &[Lit], core: &[Lit]) -> bool {
    for lit in core {
        if !assumptions.contains(lit) {
            return false;
        }
    }
    true
}

/// The answer in a word, or what is wrong with it. That the assumptions of a core suffice is not
/// looked at.
pub(crate) fn judged(
    alloc: Global,
    originals: &[Original],
    steps: &[Step],
    assumptions: &[Lit],
    answer: &Result<Outcome, SatFault>,
) -> &'static str {
    let Some(refuted) = refuted(alloc, originals, steps) else {
        return "wrong: a checker refuses";
    };
    match answer {
        Ok(Outcome::Found(values)) => found_word(refuted, originals, assumptions, values),
        Ok(Outcome::Unsat { core }) => unsat_word(refuted, assumptions, core),
        Err(SatFault::Spent) if refuted => "wrong: spent, and refuted",
        Err(SatFault::Spent) => "spent",
        Err(SatFault::NoMemory) => "no memory",
    }
}

fn found_word(
    refuted: bool,
    originals: &[Original],
    assumptions: &[Lit],
    values: &[bool],
) -> &'static str {
    if refuted {
        "wrong: found, and refuted"
    } else if is_model(originals, assumptions, values) {
        "found"
    } else {
        "wrong: no model"
    }
}

fn unsat_word(refuted: bool, assumptions: &[Lit], core: &[Lit]) -> &'static str {
    if core.is_empty() != refuted {
        "wrong: an empty core, or refuted"
    } else if all_among(assumptions, core) {
        "unsat"
    } else {
        "wrong: a core of others"
    }
}
