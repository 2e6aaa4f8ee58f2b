//! What is asked of a case, and what is answered.

ghost use Rattle.std.specs.Prelude.{All, IfOk, IfSome};
ghost use Rattle.qv_cert.specs.Line.{IsCertLine};
ghost use Rattle.qv_solve.specs.Solutions.{lines_of};

use crate::limits::are_limits;
use qv_cases_terms::may_be_posed;
use qv_meter::{Limits, Meter};
use qv_solve::{SolveFault, Solved, solve_one};
use qv_store::{Id, Store};
use qv_words::Sort;
use std::alloc::Global;

/// A check: formulas over constants of these sorts, its number, and its limits.
#[derive(Clone, Copy)]
pub struct Asked<'a> {
    pub sorts: &'a [Sort],
    pub formulas: &'a str,
    pub number: u64,
    pub limits: Limits,
}

/// Limits that small cases don't meet.
pub const AMPLE: Limits = Limits {
    conflicts: 1_000_000,
    instances: 10_000,
    variables: 4_000_000,
};

/// What is answered about formulas of the store. `None` where it is no case, or for want of memory.
pub fn solved(
    alloc: Global,
    store: &mut Store,
    meter: &mut Meter,
    asked: Asked<'_>,
    ids: &[Id],
) -> Option<Result<Solved, SolveFault>>
    ensures { IfSome result (λ solved. IfOk solved (λ s. All IsCertLine (lines_of s))) }
{
    if !may_be_posed(alloc, store, asked.sorts, ids)? {
        return None;
    }
    if !are_limits(asked.limits) || asked.number >= 1 << 62 {
        return None;
    }
    Some(solve_one(
        alloc,
        store,
        ids,
        &[],
        asked.number,
        4_096,
        asked.limits,
        meter,
    ))
}
