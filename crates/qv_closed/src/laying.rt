//! Clauses that closure adds, given to a core behind those of the list.

ghost use Rattle.std.specs.Prelude.{◌≡◌, ◌≢◌, ◌<◌, ◌^◌, ◌++◌, [], All, IfOk, IfSome, List, suc};
ghost use Rattle.qv_words.specs.Tree.{Tree};
ghost use Rattle.qv_cnf.specs.Listing.{clauses_of};
ghost use Rattle.qv_cnf.specs.LratLine.{line_of, lines_of};
ghost use Rattle.qv_cnf.specs.Refutation.{standing_at};
ghost use Rattle.qv_gates.specs.Closing.{added, Adds};
ghost use Rattle.qv_lrat_text.specs.Grammar.{HasIds, IsId};
ghost use Rattle.qv_blast.specs.Blasters.{from_one};
ghost use Rattle.qv_meter.specs.Bases.{IsBaseOf};
ghost use Rattle.qv_closed.specs.Cores.{IsAddedTo, IsFed, IsLaid};

use crate::feeding::{MOST_IDS, asked_core_of, core_of, give};
use crate::ids::have_ids;
use qv_cnf::{ClauseList, Step};
use qv_gates::Advice;
use qv_sat::Core;
use std::alloc::{AllocError, Global};

/// A core that has clauses, and behind them those that steps add.
#[derive(Drop)]
pub struct Laid {
    pub core: Core,
    pub steps: Vec<Step>,
    /// The id behind those of its clauses.
    pub next: u64,
}

/// A core that has these clauses, whose ids count from 1, and behind them those that the steps add.
/// Where they can't be added there are no steps. A search may use the advice.
pub fn laid_core(
    alloc: Global,
    clauses: &ClauseList,
    steps: Vec<Step>,
    advice: Advice,
) -> Result<Laid, AllocError>
    requires numbered { clauses.now ≡ from_one (clauses_of clauses.now.live) }
    requires each { All (λ c. c ≢ []) (clauses_of clauses.now.live) }
    requires adds { Adds (standing_at clauses.now.live) (lines_of steps.items) }
    ensures laid { IfOk result (λ laid. IsLaid laid.core clauses.now.live
        (lines_of laid.steps.items)) }
    ensures next { IfOk result (λ laid. laid.next ≡ suc laid.core.top) }

    // What is added is charged to nothing.
    ensures base { IfOk result (λ laid. (formulas : List Tree) →
        IsBaseOf clauses.now.live formulas → IsBaseOf laid.core.base formulas) }
{
    let Advice { pairs, guards } = advice;
    let mut given = asked_core_of(alloc, clauses, &guards, pairs)?;
    let first = given.next;
    if let Some(next) = lay(&mut given.core, first, &steps, &guards)? {
        return Ok(Laid {
            core: given.core,
            steps,
            next,
        });
    }
    let plain = core_of(alloc, clauses, &[])?;
    Ok(Laid {
        core: plain.core,
        steps: Vec::new(alloc),
        next: plain.next,
    })
}

// Adds the clauses of steps to a core that has taken none, and whose next id is this one, and gives
// the id behind them. Where some can't be added the core is given up.
fn lay(
    core: &mut Core,
    first: u64,
    steps: &[Step],
    guards: &[u32],
) -> Result<Option<u64>, AllocError>
    requires none { core.old.steps ≡ [] }
    requires next { first ≡ suc core.old.top }
    requires few { core.old.top < 2 ^ 61 }
    requires ids { All (λ c. IsId c.id) core.old.base }
    ensures fed { IfOk result (λ laid. IfSome laid (λ next.
        IsFed core.new (core.old.base ++ added (lines_of steps.now)))) }
    ensures next { IfOk result (λ laid. IfSome laid (λ next. next ≡ suc core.new.top)) }
    ensures ids { IfOk result (λ laid. IfSome laid (λ next. All HasIds (lines_of steps.now))) }
{
    if !have_ids(steps) {
        return Ok(None);
    }
    let mut next = first;
    'laid: for step in steps {
        match lay_one(core, next, step, guards)? {
            Some(behind) => next = behind,
            None => return Ok(None),
        }
    }
    Ok(Some(next))
}

// Adds the clause of a step, if its id is at least this one, and gives the id behind it.
fn lay_one(
    core: &mut Core,
    next: u64,
    step: &Step,
    guards: &[u32],
) -> Result<Option<u64>, AllocError>
    requires { next ≡ suc core.old.top }
    ensures { IfOk result (λ behind. IfSome behind (λ id.
        IsAddedTo core.old (line_of step.now) id core.new)) }
{
    match step {
        Step::Add { id, lits, .. } => {
            if *id < next || *id >= MOST_IDS || lits.is_empty() {
                return Ok(None);
            }
            give(core, *id, lits, guards)?;
            Ok(Some(*id + 1))
        }
        Step::Delete { .. } => Ok(None),
    }
}
