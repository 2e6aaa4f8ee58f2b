//! What small rules ask of the terms of a store.

ghost use Rattle.std.specs.Prelude.{◌≡◌, ◌<◌, ◌&&◌, ◌||◌, All, Some, IfSome, length, option_map};
ghost use Rattle.qv_words.specs.Sort.{IsLawful};
ghost use Rattle.qv_words.specs.Tree.{Apply, tree_sort};
ghost use Rattle.qv_words.specs.Equality.{op_eq, tree_eq};
ghost use Rattle.qv_words.specs.Passes.{under_both};
ghost use Rattle.qv_rewrite_passes.specs.Xors.{sort_in};
ghost use Rattle.qv_rewrite_passes.specs.Simps.{value_of, is_truth, is_complement};
ghost use Rattle.qv_store.specs.Nodes.{tree_at, trees_at};
ghost use Rattle.qv_store.specs.Stores.{AreShared};
ghost use Rattle.qv_rewrite_simps.specs.Held.{IsNegation};

use qv_store::{Id, Node, Store};
use qv_words::{Op, Sort};

// The sort of a term.
pub(crate) fn sort_of(store: &Store, id: Id) -> Sort
    requires { id < length store.now }
    ensures sort { tree_sort (tree_at store.now id) ≡ Some result }
    ensures is { sort_in (tree_at store.now id) ≡ result }
    ensures lawful { IsLawful result }
    ensures shared { AreShared store.now }
{
    store.sort(id)
}

// The value of a literal.
pub(crate) fn value_of(store: &Store, id: Id) -> Option<u128>
    requires { id < length store.now }
    ensures { result ≡ value_of (tree_at store.now id) }
{
    match store.node(id) {
        Node::Lit { word } => Some(word.value()),
        _ => None,
    }
}

// Whether a term is the literal of this truth value.
pub(crate) fn is_truth(store: &Store, id: Id, value: u128) -> bool
    requires { id < length store.now }
    ensures { result ≡ is_truth value (tree_at store.now id) }
{
    match store.node(id) {
        Node::Lit { word } => match word.sort() {
            Sort::Bool => word.value() == value,
            Sort::Bits(_) => false,
        },
        _ => false,
    }
}

// Whether two terms are the same.
pub(crate) fn are_same(store: &Store, a: Id, b: Id) -> bool
    requires first { a < length store.now }
    requires second { b < length store.now }
    requires shared { AreShared store.now }
    ensures { result ≡ tree_eq (tree_at store.now a) (tree_at store.now b) }
{
    let _terms = store;
    a == b
}

// Whether one of two terms is the complement of the other.
pub(crate) fn are_opposite(store: &Store, a: Id, b: Id) -> bool
    requires first { a < length store.now }
    requires second { b < length store.now }
    requires shared { AreShared store.now }
    ensures { result ≡ (is_complement (tree_at store.now a) (tree_at store.now b)
        || is_complement (tree_at store.now b) (tree_at store.now a)) }
{
    is_complement(store, a, b) || is_complement(store, b, a)
}

// Whether the second term is the complement of the first.
fn is_complement(store: &Store, id: Id, other: Id) -> bool
    requires first { id < length store.now }
    requires second { other < length store.now }
    requires shared { AreShared store.now }
    ensures { result ≡ is_complement (tree_at store.now id) (tree_at store.now other) }
{
    match store.node(other) {
        Node::App { op, kids } => is_complement_by(store, id, *op, kids.as_slice()),
        _ => false,
    }
}

fn is_complement_by(store: &Store, id: Id, op: Op, kids: &[Id]) -> bool
    requires id { id < length store.now }
    requires kids { All (λ kid. kid < length store.now) kids.now }
    requires shared { AreShared store.now }
    ensures { result ≡ is_complement (tree_at store.now id)
        (Apply op (trees_at store.now kids.now)) }
{
    let _terms = store;
    if kids.len() != 1 {
        return false;
    }
    match kids {
        [kid] => (is_op(Op::Not, op) || is_op(Op::BvNot, op)) && are_same(store, *kid, id),
        _ => unreachable!(),
    }
}

// What stands under an application of this negation.
pub(crate) fn under(store: &Store, op: Op, id: Id) -> Option<Id>
    requires id { id < length store.now }
    requires negation { IsNegation op }
    ensures tree { option_map (tree_at store.now) result ≡ under_both op (tree_at store.now id) }
    ensures below { IfSome result (λ kid. kid < length store.now) }
{
    match store.node(id) {
        Node::App { op: inner, kids } => only_under(store, op, *inner, kids.as_slice()),
        _ => None,
    }
}

// The only argument of an operator, where it is this negation.
fn only_under(store: &Store, op: Op, inner: Op, kids: &[Id]) -> Option<Id>
    requires kids { All (λ kid. kid < length store.now) kids.now }
    requires negation { IsNegation op }
    ensures tree { option_map (tree_at store.now) result
        ≡ under_both op (Apply inner (trees_at store.now kids.now)) }
    ensures below { IfSome result (λ kid. kid < length store.now) }
{
    let _terms = store;
    if kids.len() != 1 {
        return None;
    }
    match kids {
        [kid] => { if is_op(op, inner) { Some(*kid) } else { None } }
        _ => unreachable!(),
    }
}

// Whether an operator is this negation.
fn is_op(op: Op, other: Op) -> bool
    requires { IsNegation op }
    ensures { result ≡ op_eq op other }
{
    match op {
        Op::Not => matches!(other, Op::Not),
        Op::BvNot => matches!(other, Op::BvNot),
        _ => unreachable!(),
    }
}
