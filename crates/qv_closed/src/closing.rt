//! Closure on gates of a whole clause list.

ghost use Rattle.std.specs.Prelude.{◌≡◌, [], IfOk, IsTrue};
ghost use Rattle.qv_cnf.specs.Listing.{clauses_of};
ghost use Rattle.qv_cnf.specs.LratLine.{lines_of};
ghost use Rattle.qv_cnf.specs.Refutation.{standing_at, Refutes};
ghost use Rattle.qv_blast.specs.Blasters.{from_one};
ghost use Rattle.qv_gates.specs.Closing.{no_clauses, Adds};

use qv_cnf::{ClauseList, Step};
use qv_gates::{Advice, Closure};
use std::alloc::{AllocError, Global};

// A search does with fewer clauses by itself, and more take too long.
const FEWEST: u64 = 500;

const MOST: u64 = 6_000_000;

// So many rounds by gates alone, and then so many by all clauses.
const ROUNDS: u32 = 4;

/// The steps of a closure, whether they refute its clauses, and what a search may use.
#[derive(Drop)]
pub struct Closed {
    pub steps: Vec<Step>,
    pub refuted: bool,
    pub advice: Advice,
}

/// The closure of clauses whose ids count from 1. Where these are few or too many there is no step.
pub fn close(alloc: Global, clauses: &ClauseList) -> Result<Closed, AllocError>
    requires { clauses.now ≡ from_one (clauses_of clauses.now.live) }

    // Each step adds a clause that follows.
    ensures adds { IfOk result (λ closed. Adds (standing_at clauses.now.live)
        (lines_of closed.steps.items)) }
    ensures refutes { IfOk result (λ closed. IsTrue closed.refuted →
        Refutes clauses.now.live (lines_of closed.steps.items)) }
{
    let mut closure = Closure::new(alloc);
    if !add_all(&mut closure, clauses)? {
        return Ok(Closed {
            steps: Vec::new(alloc),
            refuted: false,
            advice: Advice::none(alloc),
        });
    }
    // Where memory is wanting there are fewer steps.
    let _closed = closure.close(ROUNDS);
    let _steps = closure.steps();
    let refuted = closure.is_refuted();
    let (steps, advice) = closure.finish();
    Ok(Closed {
        steps,
        refuted,
        advice,
    })
}

// Adds clauses whose ids count from 1 to a closure that has none. Whether these are all.
fn add_all(closure: &mut Closure, clauses: &ClauseList) -> Result<bool, AllocError>
    requires none { closure.old ≡ no_clauses }
    requires numbered { clauses.now ≡ from_one (clauses_of clauses.now.live) }
    ensures { IfOk result (λ whole. IsTrue whole → closure.new.base ≡ clauses.now.live) }
{
    if clauses.get(FEWEST).is_none() {
        return Ok(false);
    }
    'added: for id in 1..MOST {
        match clauses.get(id) {
            Some(lits) => closure.add(id, lits)?,
            None => return Ok(true),
        }
    }
    Ok(false)
}
