//! Terms put into a store, where they have a sort.

ghost use Rattle.std.specs.Prelude.{◌<◌, IfSome, IsTrue, OnSome, length};
ghost use Rattle.qv_words.specs.Sort.{IsLawful};
ghost use Rattle.qv_words.specs.Tree.{ForAll};
ghost use Rattle.qv_words.specs.Sorted.{IsSorted};
ghost use Rattle.qv_store.specs.Nodes.{tree_at};
ghost use Rattle.qv_store.specs.Stores.{Grows};

use crate::fitting::{has, have_level_sort};
use crate::parsing::{Binder, Leaf};
use qv_store::{Id, Node, Store};
use qv_words::{Op, Sort, result_sort};
use smallvec::SmallVec;
use std::alloc::Global;

// A leaf.
pub(crate) fn put_leaf(store: &mut Store, found: Leaf) -> Option<Id>
    ensures { OnSome result (Grows store.old store.new) }
{
    match found {
        Leaf::Const(index, sort) => put_const(store, index, lawful(sort)?),
        Leaf::Var(level, sort) => put_var(store, level, lawful(sort)?),
        Leaf::Lit(word) => store.put(Node::Lit { word }).ok(),
    }
}

// A sort again, if it is one.
fn lawful(sort: Sort) -> Option<Sort>
    ensures { IfSome result IsLawful }
{
    match sort {
        Sort::Bool => Some(Sort::Bool),
        Sort::Bits(width) => Sort::bits(u128::from(width)),
    }
}

fn put_const(store: &mut Store, index: u64, sort: Sort) -> Option<Id>
    requires { IsLawful sort }
    ensures { OnSome result (Grows store.old store.new) }
{
    store.put(Node::Const { index, sort }).ok()
}

fn put_var(store: &mut Store, level: u64, sort: Sort) -> Option<Id>
    requires { IsLawful sort }
    ensures { OnSome result (Grows store.old store.new) }
{
    store.put(Node::Var { level, sort }).ok()
}

// A quantifier over a body.
pub(crate) fn put_binder(store: &mut Store, binder: Binder, body: Id) -> Option<Id>
    ensures { OnSome result (Grows store.old store.new) }
{
    match binder {
        Binder::All(level, sort) => put_all(store, level, lawful(sort)?, body),
        Binder::Ex(level, sort) => put_ex(store, level, lawful(sort)?, body),
    }
}

fn put_all(store: &mut Store, level: u64, sort: Sort, body: Id) -> Option<Id>
    requires { IsLawful sort }
    ensures { OnSome result (Grows store.old store.new) }
{
    if !is_body(store, level, sort, body) {
        return None;
    }
    store.put(Node::All { level, sort, body }).ok()
}

fn put_ex(store: &mut Store, level: u64, sort: Sort, body: Id) -> Option<Id>
    requires { IsLawful sort }
    ensures { OnSome result (Grows store.old store.new) }
{
    if !is_body(store, level, sort, body) {
        return None;
    }
    store.put(Node::Ex { level, sort, body }).ok()
}

// Whether this term may stand below a quantifier of this level and sort. Each variable of the level
// that the store has must be of that sort, also in other terms.
fn is_body(store: &Store, level: u64, sort: Sort, body: Id) -> bool
    requires { IsLawful sort }
    ensures below { IsTrue result → body < length store.now }
    ensures sorted { IsTrue result → IsSorted (ForAll level sort (tree_at store.now body)) }
{
    if !has(store, body) {
        return false;
    }
    match store.sort(body) {
        Sort::Bool => have_level_sort(store, level, sort),
        Sort::Bits(_) => false,
    }
}

// An application to the arguments on top of the stack.
pub(crate) fn put_application(
    alloc: Global,
    store: &mut Store,
    op: Op,
    stack: &mut Vec<Id>,
) -> Option<Id>
    ensures { OnSome result (Grows store.old store.new) }
{
    match arity(op) {
        1 => {
            let a = stack.pop()?;
            put_one(alloc, store, op, a)
        }
        2 => {
            let b = stack.pop()?;
            let a = stack.pop()?;
            put_two(alloc, store, op, a, b)
        }
        _ => {
            let c = stack.pop()?;
            let b = stack.pop()?;
            let a = stack.pop()?;
            put_three(alloc, store, op, a, b, c)
        }
    }
}

fn put_one(alloc: Global, store: &mut Store, op: Op, a: Id) -> Option<Id>
    ensures { OnSome result (Grows store.old store.new) }
{
    if !has(store, a) {
        return None;
    }
    let sort = store.sort(a);
    if result_sort(op, &[sort]).is_none() {
        return None;
    }
    let kids = SmallVec::from_slice(alloc, &[a]).ok()?;
    store.put(Node::App { op, kids }).ok()
}

fn put_two(alloc: Global, store: &mut Store, op: Op, a: Id, b: Id) -> Option<Id>
    ensures { OnSome result (Grows store.old store.new) }
{
    if !has(store, a) {
        return None;
    }
    if !has(store, b) {
        return None;
    }
    let first = store.sort(a);
    let second = store.sort(b);
    if result_sort(op, &[first, second]).is_none() {
        return None;
    }
    let kids = SmallVec::from_slice(alloc, &[a, b]).ok()?;
    store.put(Node::App { op, kids }).ok()
}

fn put_three(alloc: Global, store: &mut Store, op: Op, a: Id, b: Id, c: Id) -> Option<Id>
    ensures { OnSome result (Grows store.old store.new) }
{
    if !has(store, a) {
        return None;
    }
    if !has(store, b) {
        return None;
    }
    if !has(store, c) {
        return None;
    }
    let first = store.sort(a);
    let second = store.sort(b);
    let third = store.sort(c);
    if result_sort(op, &[first, second, third]).is_none() {
        return None;
    }
    let kids = SmallVec::from_slice(alloc, &[a, b, c]).ok()?;
    store.put(Node::App { op, kids }).ok()
}

// How many arguments an operator takes.
fn arity(op: Op) -> usize {
    match op {
        Op::Not
        | Op::BvNot
        | Op::BvNeg
        | Op::Extract(..)
        | Op::Repeat(_)
        | Op::ZeroExtend(_)
        | Op::SignExtend(_)
        | Op::RotateLeft(_)
        | Op::RotateRight(_)
        | Op::BvNego => 1,
        Op::Ite => 3,
        _ => 2,
    }
}
