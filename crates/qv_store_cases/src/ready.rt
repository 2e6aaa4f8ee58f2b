//! Whether terms are of the store, and whether what is put in for its variables is as the call
//! asks: that is asked of all of them, those of other terms too.

ghost use Rattle.std.specs.Prelude.{◌≡◌, ◌<◌, Some, All, IfSome, IsTrue, length};
ghost use Rattle.qv_words.specs.Tree.{tree_sort};
ghost use Rattle.qv_store.specs.Nodes.{tree_at};
ghost use Rattle.qv_store.specs.Replacing.{put_by_level, AreTermsOf};
ghost use Rattle.qv_cases_terms.specs.Leaves.{IsFit, AreFitBelow, IsAny, IsPutAt};

use qv_cases_terms::has;
use qv_store::{Id, Node, Store};
use qv_words::Sort;

/// Whether these are terms of the store.
pub fn has_all(store: &Store, ids: &[Id]) -> bool
    ensures { IsTrue result → All (λ id. id < length store.now) ids.now }
{
    'terms: for id in ids {
        if !has(store, *id) {
            return false;
        }
    }
    true
}

/// Whether the terms that are put in are terms of the store.
pub fn are_terms(store: &Store, terms: &[Option<Id>]) -> bool
    ensures { IsTrue result → AreTermsOf store.now terms.now }
{
    'levels: for level in 0..terms.len() {
        if let Some(id) = terms[level] {
            if !has(store, id) {
                return false;
            }
        }
    }
    true
}

/// Whether what is put in for a variable has its sort.
pub fn have_their_sorts(store: &Store, terms: &[Option<Id>]) -> bool
    ensures { IsTrue result
        → AreFitBelow IsAny (IsPutAt store.now terms.now) store.now (length store.now) }
{
    'terms: for number in 0..store.len() {
        if !has_its_sort(store, store.id_at(number), terms) {
            return false;
        }
    }
    true
}

fn has_its_sort(store: &Store, id: Id, terms: &[Option<Id>]) -> bool
    requires { id < length store.now }
    ensures { IsTrue result → IsFit IsAny (IsPutAt store.now terms.now) (tree_at store.now id) }
{
    match store.node(id) {
        Node::Var { level, sort } => is_put_at(store, terms, *level, *sort),
        Node::Const { .. }
        | Node::Lit { .. }
        | Node::App { .. }
        | Node::All { .. }
        | Node::Ex { .. } => true,
    }
}

fn is_put_at(store: &Store, terms: &[Option<Id>], level: u64, sort: Sort) -> bool
    ensures { IsTrue result
        → IfSome (put_by_level store.now terms.now level) (λ put. tree_sort put ≡ Some sort) }
{
    match terms.get(level as usize) {
        Some(held) => match *held {
            Some(id) => {
                if has(store, id) {
                    store.sort(id) == sort
                } else {
                    false
                }
            }
            None => true,
        },
        None => true,
    }
}
