//! Closure on gates of a list's clauses, and a core that has what it adds.

ghost use Rattle.std.specs.Prelude.{◌≡◌, ◌≢◌, [], All, IfOk, IsTrue, List};
ghost use Rattle.qv_words.specs.Tree.{Tree};
ghost use Rattle.qv_cnf.specs.Listing.{clauses_of};
ghost use Rattle.qv_cnf.specs.LratLine.{lines_of};
ghost use Rattle.qv_cnf.specs.Refutation.{standing_at, Refutes};
ghost use Rattle.qv_gates.specs.Closing.{Adds};
ghost use Rattle.qv_meter.specs.Bases.{IsBaseOf};
ghost use Rattle.qv_closed.specs.Cores.{IsLaid};
ghost use Rattle.qv_blast.specs.Blasters.{from_one};
ghost use Rattle.qv_solve_refute.specs.Feeding.{listed_in};

use qv_closed::{Closed, Laid, close, laid_core};
use qv_cnf::{ClauseList, Step};
use qv_gates::Advice;
use qv_store::NoMemory;
use std::alloc::Global;

// The closure of these clauses, whose ids count from 1.
pub(crate) fn close_list(alloc: Global, clauses: &ClauseList) -> Result<Closed, NoMemory>
    requires { clauses.now ≡ from_one (clauses_of clauses.now.live) }
    ensures adds { IfOk result (λ closed. Adds (standing_at (listed_in clauses.now))
        (lines_of closed.steps.items)) }
    ensures refutes { IfOk result (λ closed. IsTrue closed.refuted →
        Refutes (listed_in clauses.now) (lines_of closed.steps.items)) }
{
    close(alloc, clauses)
}

// A core that has them, and behind them what these steps add, or what none add. A search may use the
// advice.
pub(crate) fn laid_list(
    alloc: Global,
    clauses: &ClauseList,
    steps: Vec<Step>,
    advice: Advice,
) -> Result<Laid, NoMemory>
    requires numbered { clauses.now ≡ from_one (clauses_of clauses.now.live) }
    requires each { All (λ c. c ≢ []) (clauses_of clauses.now.live) }
    requires adds { Adds (standing_at (listed_in clauses.now)) (lines_of steps.items) }
    ensures laid { IfOk result (λ laid. IsLaid laid.core (listed_in clauses.now)
        (lines_of laid.steps.items)) }
    ensures base { IfOk result (λ laid. (formulas : List Tree) →
        IsBaseOf (listed_in clauses.now) formulas → IsBaseOf laid.core.base formulas) }
{
    laid_core(alloc, clauses, steps, advice)
}
