//! Takes learnt clauses away.

ghost use Rattle.std.specs.Prelude.{◌≡◌, ◌≢◌, ◌↔◌, Some, All, Any, IsSome, IsTrue, IfOk};
ghost use Rattle.qv_cnf.specs.Listing.{clause_named, without, Rises};
ghost use Rattle.qv_watch.specs.Entries.{reason_of};
ghost use Rattle.qv_watch.specs.TrailState.{IsTrail};
ghost use Rattle.qv_sat.specs.Reducing.{IsIdle, ListsIdle};

use qv_cnf::{ClauseList, Lit};
use qv_watch::Trail;
use std::alloc::{AllocError, Global};

// Those of the ids, as far as they rise, whose clauses may be deleted.
pub(crate) fn idle(
    alloc: Global,
    base: &ClauseList,
    trail: &Trail,
    chosen: &[u64],
) -> Result<Vec<u64>, AllocError>
    ensures { IfOk result (λ ids. ListsIdle base.now.live trail.now chosen.now ids.items) }
{
    let mut ids = Vec::with_capacity(alloc, chosen.len())?;
    let _level = trail.level();
    let mut last = 0u64;
    'chosen: for id in chosen {
        if *id <= last {
            continue;
        }
        last = *id;
        if is_idle(base, trail, last) {
            ids.push(last)?;
        }
    }
    Ok(ids)
}

// Whether a clause that isn't of the base is attached, and is no reason.
fn is_idle(base: &ClauseList, trail: &Trail, id: u64) -> bool
    requires { IsTrail trail.now }
    ensures { IsTrue result ↔ IsIdle base.now.live trail.now id }
{
    let Some(lits) = trail.clause(id) else {
        return false;
    };
    match base.get(id) {
        Some(_) => false,
        None => !is_reason(trail, lits, id),
    }
}

// Whether one of the literals came from the clause of that id.
fn is_reason(trail: &Trail, lits: &[Lit], id: u64) -> bool
    ensures { IsTrue result ↔ Any (λ l. reason_of trail.now.entries l ≡ Some id) lits.now }
{
    lits.iter().any(|lit| trail.reason(*lit) == Some(id))
}

// Takes the clauses away.
pub(crate) fn detach_all(trail: &mut Trail, ids: &[u64])
    requires attached { All (λ id. IsSome (clause_named id trail.old.clauses)) ids.now }
    requires no_reason { All (λ id. All (λ e. e.reason ≢ Some id) trail.old.entries) ids.now }
    requires rises { Rises 0 ids.now }
    ensures { trail.new ≡ record trail.old {
      clauses = without ids.now trail.old.clauses;
      answer = trail.new.answer;
    } }
{
    'ids: for id in ids {
        trail.detach(*id);
    }
}
