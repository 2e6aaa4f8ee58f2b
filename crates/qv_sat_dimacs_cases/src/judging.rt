//! Answers by other means: values are looked at clause by clause, and steps are given to a checker.

use super::solving::Solved;
use qv_cnf::{Lit, Step};
use qv_rup::Checker;
use qv_sat::{Outcome, SatFault};
use std::alloc::Global;

fn is_true(lit: Lit, values: &[bool]) -> bool {
    let place = (lit.variable() as usize).wrapping_sub(1);
    match values.get(place) {
        Some(value) => *value == lit.is_positive(),
        None => false,
    }
}

fn some_true(lits: &[Lit], values: &[bool]) -> bool {
    lits.iter().any(|lit| is_true(*lit, values))
}

// Whether the values make every clause true.
fn is_model(clauses: &[Vec<Lit>], values: &[bool]) -> bool {
    for lits in clauses {
        if !some_true(lits, values) {
            return false;
        }
    }
    true
}

// Gives the clauses to the checker, under the ids from 1 on.
fn give(checker: &mut Checker, clauses: &[Vec<Lit>]) -> Option<()> {
    for (place, lits) in clauses.iter().enumerate() {
        checker.original(place as u64 + 1, lits).ok()?;
    }
    Some(())
}

// Gives the steps to the checker. The answer is how many of them add a clause.
fn take_all(checker: &mut Checker, steps: &[Step]) -> Option<u64> {
    let mut additions = 0u64;
    for step in steps {
        checker.step(step).ok()?;
        if let Step::Add { .. } = step {
            additions = additions.saturating_add(1);
        }
    }
    Some(additions)
}

// Whether a checker takes the clauses and the steps, of which as many add a clause as conflicts
// were charged; and whether it is refuted.
fn checked(checker: &mut Checker, clauses: &[Vec<Lit>], solved: &Solved) -> Option<bool> {
    give(checker, clauses)?;
    let additions = take_all(checker, solved.steps())?;
    if additions == solved.conflicts {
        Some(checker.is_refuted())
    } else {
        None
    }
}

/// `right`, or what is wrong with the answer.
pub(crate) fn judged(alloc: Global, clauses: &[Vec<Lit>], solved: &Solved) -> &'static str {
    let mut checker = Checker::new(alloc);
    let refuted = checked(&mut checker, clauses, solved);
    match (refuted, &solved.answer) {
        (Some(refuted), Some(answer)) => verdict(refuted, clauses, answer),
        (None, _) => "wrong: a checker refuses",
        (_, None) => "wrong: no answer",
    }
}

fn verdict(
    refuted: bool,
    clauses: &[Vec<Lit>],
    answer: &Result<Outcome, SatFault>,
) -> &'static str {
    match answer {
        Ok(Outcome::Found(values)) => found_verdict(refuted, clauses, values),
        Ok(Outcome::Unsat { core }) => unsat_verdict(refuted, core),
        Err(_) if refuted => "wrong: refuted",
        Err(_) => "right",
    }
}

fn found_verdict(refuted: bool, clauses: &[Vec<Lit>], values: &[bool]) -> &'static str {
    if !is_model(clauses, values) {
        "wrong: no model"
    } else if refuted {
        "wrong: refuted"
    } else {
        "right"
    }
}

fn unsat_verdict(refuted: bool, core: &[Lit]) -> &'static str {
    if !refuted {
        "wrong: not refuted"
    } else if core.is_empty() {
        "right"
    } else {
        "wrong: a core without assumptions"
    }
}

/// The answer in a word.
pub(crate) fn word(answer: &Result<Outcome, SatFault>) -> &'static str {
    match answer {
        Ok(Outcome::Found(_)) => "satisfiable",
        Ok(Outcome::Unsat { .. }) => "unsatisfiable",
        Err(SatFault::Spent) => "spent",
        Err(SatFault::NoMemory) => "no memory",
    }
}
