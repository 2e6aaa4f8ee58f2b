//! Formulas that are joined by halves.

ghost use Rattle.std.specs.Prelude.{◌≡◌, ◌<◌, All, IfOk, length};
ghost use Rattle.qv_store.specs.Stores.{AreShared, Grows, StandsAt};
ghost use Rattle.qv_store.specs.Walks.{named};
ghost use Rattle.qv_qdimacs.specs.Translation.{joined};
ghost use Rattle.qv_qdimacs.specs.Formulas.{IsFormulaAt};

use crate::putting::{put_pair, put_truth};
use qv_store::{Id, NoMemory, Store};
use std::alloc::Global;

/// The conjunction of formulas, or their disjunction. The calls within it are no deeper than the
/// number of halvings.
pub(crate) fn put_joined(
    alloc: Global,
    store: &mut Store,
    both: bool,
    ids: &[Id],
) -> Result<Id, NoMemory>
    requires { All (IsFormulaAt store.old) ids.now }
    ensures id { IfOk result (λ id. StandsAt store.new id (joined both (named store.old ids.now))) }
    ensures grows { Grows store.old store.new }
    ensures shared { AreShared store.new }
{
    if ids.len() < 2 {
        return put_few(store, both, ids);
    }
    let middle = ids.len() / 2;
    let front = put_joined(alloc, store, both, &ids[..middle])?;
    let behind = put_joined(alloc, store, both, &ids[middle..])?;
    put_pair(alloc, store, both, front, behind)
}

// The same of one formula, or of none.
fn put_few(store: &mut Store, both: bool, ids: &[Id]) -> Result<Id, NoMemory>
    requires ids { All (IsFormulaAt store.old) ids.now }
    requires few { length ids.now < 2 }
    ensures id { IfOk result (λ id. StandsAt store.new id (joined both (named store.old ids.now))) }
    ensures grows { Grows store.old store.new }
    ensures shared { AreShared store.new }
{
    let _few = store.len();
    match ids.first() {
        Some(id) => Ok(*id),
        None => put_truth(store, both),
    }
}
