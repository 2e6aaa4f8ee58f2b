//! Whether terms may be asserted together.

ghost use Rattle.std.specs.Prelude.{All, IfSome, IsTrue};
ghost use Rattle.qv_cases_terms.specs.Posable.{IsFormulaAt, MayBePosed};

use crate::closed::are_closed;
use crate::leaf_sorts::are_leaves;
use qv_store::{Id, Store};
use qv_words::Sort;
use std::alloc::Global;

// Levels are below this one.
const LEVELS: u64 = 8;

/// Whether these terms may be asserted together. It is asked of all constants and variables of the
/// store that each constant has the sort of its index, and each variable a level below 8. `None`
/// for want of memory.
pub fn may_be_posed(alloc: Global, store: &Store, sorts: &[Sort], ids: &[Id]) -> Option<bool>
    ensures { IfSome result (λ may. IsTrue may → MayBePosed store.now ids.now) }
{
    let _few = store.len();
    if !are_formulas(store, ids) {
        return Some(false);
    }
    if !are_leaves(store, sorts, LEVELS) {
        return Some(false);
    }
    are_closed(alloc, store, ids, LEVELS)
}

// Whether each is a term of the store and a formula.
fn are_formulas(store: &Store, ids: &[Id]) -> bool
    ensures { IsTrue result → All (IsFormulaAt store.now) ids.now }
{
    'each: for id in ids {
        if !is_formula(store, *id) {
            return false;
        }
    }
    true
}

fn is_formula(store: &Store, id: Id) -> bool
    ensures { IsTrue result → IsFormulaAt store.now id }
{
    if id.number() < store.len() {
        store.sort(id) == Sort::Bool
    } else {
        false
    }
}
