//! Whether the conditions of a choice hold.

ghost use Rattle.std.specs.Prelude.{◌≡◌, ◌<◌, ◌≤◌, [], IsTrue, length};
ghost use Rattle.qv_words.specs.declared.sort.Sort.TheVariants.{Bool as BoolSort};
ghost use Rattle.qv_words.specs.Word.{values_of};
ghost use Rattle.qv_words.specs.Tree.{IsQuantifierFree};
ghost use Rattle.qv_words.specs.Values.{HasWords};
ghost use Rattle.qv_words.specs.Skolem.{IsTermOf};
ghost use Rattle.qv_words.specs.Choice.{IsTrueAt};
ghost use Rattle.qv_store.specs.Nodes.{tree_at};

use qv_cases_terms::{has, have_words};
use qv_store::{Id, Store};
use qv_words::{Sort, Word};

/// Whether a block ends where the point does.
pub fn is_block(first: u64, end: u64, point: &[Word]) -> bool
    ensures block { IsTrue result → first ≤ end }
    ensures point { IsTrue result → length point.now ≡ end }
{
    if first <= end {
        point.len() as u64 == end
    } else {
        false
    }
}

/// Whether a term is a region: one of truth values, without quantifiers and constants, with a word
/// of its sort for each variable.
pub fn is_region(store: &Store, id: Id, point: &[Word]) -> bool
    ensures id { IsTrue result → id < length store.now }
    ensures formula { IsTrue result → IsTermOf (tree_at store.now id) BoolSort }
    ensures places { IsTrue result → HasWords [] point.now (tree_at store.now id) }
{
    if !has(store, id) {
        return false;
    }
    if store.quantified(id) {
        return false;
    }
    match store.sort(id) {
        Sort::Bool => have_words(store, &[], point),
        Sort::Bits(_) => false,
    }
}

/// Whether a region is true at a point.
pub fn is_true(store: &Store, id: Id, point: &[Word]) -> bool
    requires id { id < length store.now }
    requires free { IsQuantifierFree (tree_at store.now id) }
    requires places { HasWords [] point.now (tree_at store.now id) }
    ensures { IsTrue result → IsTrueAt (values_of point.now) (tree_at store.now id) }
{
    match store.eval_at(id, &[], point) {
        Ok(word) => word.value() == 1,
        Err(_) => false,
    }
}
