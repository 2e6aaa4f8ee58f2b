//! Whether steps that come from elsewhere refute clauses.

ghost use Rattle.std.specs.Prelude.{◌≡◌, ◌↔◌, ◌∷◌, ◌&&◌, ◌||◌, All, IfOk, IsTrue, List, false};
ghost use Rattle.qv_cnf.specs.Listing.{clauses_of};
ghost use Rattle.qv_cnf.specs.LratLine.{LratLine, line_of, lines_of};
ghost use Rattle.qv_cnf.specs.Refutation.{refutes_from, Refutes};
ghost use Rattle.qv_lrat_text.specs.Grammar.{HasIds};
ghost use Rattle.qv_blast.specs.Blasters.{from_one};
ghost use Rattle.qv_solve_refute.specs.Feeding.{listed_in};

use qv_cert_formulas::give_clauses;
use qv_closed::have_ids;
use qv_cnf::{ClauseList, Step};
use qv_rup::{Checker, StepFault};
use qv_store::NoMemory;
use std::alloc::{AllocError, Global};

// Whether the steps refute these clauses, whose ids count from 1, and their ids can be written.
pub(crate) fn refutes(alloc: Global, clauses: &ClauseList, steps: &[Step]) -> Result<bool, NoMemory>
    requires numbered { clauses.now ≡ from_one (clauses_of clauses.now.live) }
    ensures { IfOk result (λ refuted. IsTrue refuted ↔
        (Refutes (listed_in clauses.now) (lines_of steps.now) × All HasIds (lines_of steps.now))) }
{
    if steps.is_empty() {
        return Ok(false);
    }
    if !have_ids(steps) {
        return Ok(false);
    }
    let mut checker = give_clauses(alloc, clauses)?;
    take_all(&mut checker, steps)
}

// Whether the steps refute the clauses of a checker that has taken none.
fn take_all(checker: &mut Checker, steps: &[Step]) -> Result<bool, NoMemory>
    requires { checker.old.refuted ≡ false }
    ensures { IfOk result (λ refuted. refuted ≡ refutes_from checker.old (lines_of steps.now)) }
{
    'steps: for step in steps {
        if !take(checker, step)? {
            return Ok(false);
        }
    }
    Ok(checker.is_refuted())
}

// Whether the step goes. Once the clauses are refuted any does.
fn take(checker: &mut Checker, step: &Step) -> Result<bool, NoMemory>
    ensures { IfOk result (λ goes. (rest : List LratLine) →
        (checker.old.refuted || refutes_from checker.old (line_of step.now ∷ rest))
        ≡ (goes && (checker.new.refuted || refutes_from checker.new rest))) }
{
    if checker.is_refuted() {
        return Ok(true);
    }
    match checker.step(step) {
        Ok(()) => Ok(true),
        Err(StepFault::NoMemory) => Err(AllocError),
        Err(_fault) => Ok(false),
    }
}
