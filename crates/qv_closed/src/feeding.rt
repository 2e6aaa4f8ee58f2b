//! Clauses of a list, given to a core.

ghost use Rattle.std.specs.Prelude.{◌≡◌, ◌≢◌, ◌<◌, ◌^◌, [], All, IfOk, OnOk, suc};
ghost use Rattle.qv_cnf.specs.Listing.{clauses_of};
ghost use Rattle.qv_blast.specs.Blasters.{from_one};
ghost use Rattle.qv_sat.specs.CoreState.{empty_core, with_base};
ghost use Rattle.qv_closed.specs.Cores.{IsFed};

use qv_cnf::{ClauseList, Lit};
use qv_sat::Core;
use std::alloc::{AllocError, Global};

/// Memory holds fewer clauses.
pub(crate) const MOST_IDS: u64 = 1 << 61;

/// A core, and the id behind those that it has.
#[derive(Drop)]
pub(crate) struct Given {
    pub(crate) core: Core,
    pub(crate) next: u64,
}

/// A core that has these clauses, whose ids count from 1. Those are left aside that have a guard.
pub(crate) fn core_of(
    alloc: Global,
    clauses: &ClauseList,
    guards: &[u32],
) -> Result<Given, AllocError>
    requires numbered { clauses.now ≡ from_one (clauses_of clauses.now.live) }
    requires each { All (λ c. c ≢ []) (clauses_of clauses.now.live) }
    ensures fed { IfOk result (λ given. IsFed given.core clauses.now.live) }
    ensures next { IfOk result (λ given. given.next ≡ suc given.core.top) }
{
    let mut core = Core::new(alloc);
    let next = add_all(&mut core, clauses, guards)?;
    Ok(Given { core, next })
}

/// The same core, which looks in a long search whether these pairs of literals are equal.
pub(crate) fn asked_core_of(
    alloc: Global,
    clauses: &ClauseList,
    guards: &[u32],
    pairs: Vec<Vec<Lit>>,
) -> Result<Given, AllocError>
    requires numbered { clauses.now ≡ from_one (clauses_of clauses.now.live) }
    requires each { All (λ c. c ≢ []) (clauses_of clauses.now.live) }
    ensures fed { IfOk result (λ given. IsFed given.core clauses.now.live) }
    ensures next { IfOk result (λ given. given.next ≡ suc given.core.top) }
{
    let mut given = core_of(alloc, clauses, guards)?;
    given.core.suggest(pairs);
    Ok(given)
}

// Adds them to a core that has none, and gives the id behind them.
fn add_all(core: &mut Core, clauses: &ClauseList, guards: &[u32]) -> Result<u64, AllocError>
    requires empty { core.old ≡ empty_core }
    requires numbered { clauses.now ≡ from_one (clauses_of clauses.now.live) }
    requires each { All (λ c. c ≢ []) (clauses_of clauses.now.live) }
    ensures fed { OnOk result (IsFed core.new clauses.now.live) }
    ensures next { IfOk result (λ next. next ≡ suc core.new.top) }
{
    'fed: for id in 1..MOST_IDS {
        match clauses.get(id) {
            Some(lits) => give(core, id, lits, guards)?,
            None => return Ok(id),
        }
    }
    Err(AllocError)
}

/// Adds a clause, which is left aside where it has a guard.
pub(crate) fn give(core: &mut Core, id: u64, lits: &[Lit], guards: &[u32]) -> Result<(), AllocError>
    requires above { core.old.top < id }
    requires few { id < 2 ^ 62 }
    requires some { lits.now ≢ [] }
    ensures ok { OnOk result (core.new ≡ with_base core.old id lits.now) }
{
    match guards.get(id as usize) {
        Some(guard) => core.set_aside(id, lits, *guard),
        None => core.add(id, lits),
    }
}
