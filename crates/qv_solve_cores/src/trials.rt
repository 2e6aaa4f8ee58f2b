//! A trial: whether a list still has no model.

ghost use Rattle.std.specs.Prelude.{◌<◌, All, IfOk, OnErr, length, map};
ghost use Rattle.qv_store.specs.Nodes.{tree_at};
ghost use Rattle.qv_store.specs.Stores.{Grows};
ghost use Rattle.qv_meter.specs.Records.{AreLimits};
ghost use Rattle.qv_meter.specs.Views.{limits_of};
ghost use Rattle.qv_solve_cores.specs.Cores.{StartsSome};
ghost use Rattle.qv_solve_cores.specs.Trying.{ListIsTried, MaySolve};

use qv_cert::Section;
use qv_meter::{Limits, Meter};
use qv_solve::{SolveFault, Solved, solve_one};
use qv_store::{Id, NoMemory, Store};
use std::alloc::{AllocError, Global};

// So many places any list may have: all formulas were within a limit when they were checked.
const MOST_PLACES: u32 = u32::MAX;

/// A section by which the formulas have no model, if they are answered so; else they have one, or
/// the new record is spent on them.
pub(crate) fn try_list(
    alloc: Global,
    store: &mut Store,
    list: &[Id],
    limits: Limits,
    meter: &mut Meter,
) -> Result<Option<Section>, NoMemory>
    requires ids { All (λ id. id < length store.old) list.now }
    requires solvable { MaySolve (map (tree_at store.old) list.now) }
    requires limits { AreLimits (limits_of limits) }
    ensures tried { IfOk result (ListIsTried (limits_of limits) meter.old meter.new
        (map (tree_at store.old) list.now)) }
    ensures memory { OnErr result (StartsSome (limits_of limits) meter.old meter.new) }
    ensures grows { Grows store.old store.new }
{
    match solve_one(alloc, store, list, &[], 1, MOST_PLACES, limits, meter) {
        Ok(Solved::Unsat { section, .. }) => Ok(Some(section)),
        Ok(_) => Ok(None),
        // Such a list has no more places than all formulas, which have fewer than 2^32.
        Err(SolveFault::PrefixLimit) => unreachable!(),
        Err(SolveFault::NoMemory) => Err(AllocError),
    }
}
