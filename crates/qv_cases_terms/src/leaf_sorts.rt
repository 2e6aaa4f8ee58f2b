//! Whether the constants and the variables of a store are as a call asks. It is asked of all of
//! them, those of other terms too.

ghost use Rattle.std.specs.Prelude.{◌≡◌, ◌<◌, Some, IsTrue, length, slice_get};
ghost use Rattle.qv_store.specs.Nodes.{tree_at};
ghost use Rattle.qv_cases_terms.specs.Leaves.{IsFit, AreFitBelow, IsSortAt, IsBelow};

use qv_store::{Id, Node, Store};
use qv_words::Sort;

/// Whether each constant has the sort of its index, and each variable a level below so many.
pub fn are_leaves(store: &Store, sorts: &[Sort], levels: u64) -> bool
    ensures { IsTrue result
        → AreFitBelow (IsSortAt sorts.now) (IsBelow levels) store.now (length store.now) }
{
    'terms: for number in 0..store.len() {
        if !is_leaf(store, store.id_at(number), sorts, levels) {
            return false;
        }
    }
    true
}

// Whether a term is as asked, if it is a constant or a variable.
fn is_leaf(store: &Store, id: Id, sorts: &[Sort], levels: u64) -> bool
    requires { id < length store.now }
    ensures { IsTrue result → IsFit (IsSortAt sorts.now) (IsBelow levels) (tree_at store.now id) }
{
    match store.node(id) {
        Node::Const { index, sort } => is_sort_at(sorts, *index, *sort),
        Node::Var { level, .. } => *level < levels,
        Node::Lit { .. } | Node::App { .. } | Node::All { .. } | Node::Ex { .. } => true,
    }
}

fn is_sort_at(sorts: &[Sort], index: u64, sort: Sort) -> bool
    ensures { IsTrue result → slice_get sorts.now index ≡ Some sort }
{
    match sorts.get(index as usize) {
        Some(of) => *of == sort,
        None => false,
    }
}
