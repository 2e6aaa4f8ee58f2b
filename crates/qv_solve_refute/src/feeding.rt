//! The clauses of formulas.

ghost use Rattle.std.specs.Prelude.{◌<◌, ◌≤◌, ◌^◌, All, IfOk, length};
ghost use Rattle.qv_words.specs.Tree.{IsQuantifierFree};
ghost use Rattle.qv_store.specs.Nodes.{tree_at};
ghost use Rattle.qv_store.specs.Walks.{named};
ghost use Rattle.qv_solve_refute.specs.Feeding.{IsBlasted};

use qv_blast::{BlastFault, Blaster};
use qv_store::{Id, NoMemory, Store};
use std::alloc::{AllocError, Global};

// The clauses of formulas, where they take no more variables than the limit.
pub(crate) fn blast(
    alloc: Global,
    store: &Store,
    list: &[Id],
    limit: u32,
) -> Result<Option<Blaster>, NoMemory>
    requires some { 1 ≤ limit }
    requires most { limit ≤ 2 ^ 30 }
    requires below { All (λ id. id < length store.now) list.now }
    requires free { All (λ id. IsQuantifierFree (tree_at store.now id)) list.now }
    ensures { IfOk result (IsBlasted store.now (named store.now list.now) limit) }
{
    let _nodes = store.len();
    let mut blaster = Blaster::new(alloc, limit)?;
    'blasted: for formula in list {
        match blaster.assert(store, *formula) {
            Ok(_added) => {}
            Err(BlastFault::TooManyVariables) => return Ok(None),
            Err(BlastFault::NoMemory) => return Err(AllocError),
        }
    }
    Ok(Some(blaster))
}
