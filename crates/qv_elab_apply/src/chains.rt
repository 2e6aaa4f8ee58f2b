//! Applications to more arguments than two, as chains.

ghost use Rattle.std.specs.Prelude.{◌≡◌, ◌<◌, ◌∷◌, All, IfOk, IsOk, IsOkAnd, None, length, map};
ghost use Rattle.qv_words.specs.Tree.{Apply};
ghost use Rattle.qv_store.specs.Nodes.{tree_at};
ghost use Rattle.qv_store.specs.Walks.{named};
ghost use Rattle.qv_store.specs.Stores.{StandsAt, Grows};
ghost use Rattle.qv_sorts.specs.Faults.{fault_of};
ghost use Rattle.qv_elab_defs.specs.Applying.{sort_of, in_trees, to_the_left};
ghost use Rattle.qv_elab_defs.specs.Answers.{Answers};
ghost use Rattle.qv_elab_defs.specs.Built.{limited};
ghost use Rattle.qv_elab_apply.specs.Chained.{all_to_the_right};

use crate::outlines::{fault_at, joined_left, joined_right, outline_of, outlines_of};
use qv_elab_defs::ElabFault;
use qv_store::{Id, NoMemory, Node, Store};
use qv_words::Op;
use smallvec::SmallVec;
use std::alloc::Global;

/// An operator's application that has a rank.
pub(crate) fn put_application(
    alloc: Global,
    store: &mut Store,
    op: Op,
    kids: &[Id],
) -> Result<Id, NoMemory>
    requires kids { All (λ id. id < length store.old) kids.now }
    requires rank { fault_of op (map sort_of (named store.old kids.now)) ≡ None }
    ensures id { IfOk result (λ id. StandsAt store.new id
        (Apply op (in_trees (named store.old kids.now)))) }
    ensures grows { Grows store.old store.new }
{
    let _terms = store.len();
    let kids = SmallVec::from_slice(alloc, kids)?;
    store.put(Node::App { op, kids })
}

/// A chain to the left, where all of it has ranks.
pub(crate) fn build_left(
    alloc: Global,
    store: &mut Store,
    op: Op,
    first: Id,
    others: &[Id],
) -> Result<Id, NoMemory>
    requires first { first < length store.old }
    requires others { All (λ id. id < length store.old) others.now }
    requires ranks { IsOk (to_the_left op (tree_at store.old first) (named store.old others.now)) }
    ensures id { IfOk result (λ id. IsOkAnd
        (to_the_left op (tree_at store.old first) (named store.old others.now))
        (StandsAt store.new id)) }
    ensures grows { Grows store.old store.new }
{
    let mut chain = first;
    'others: for other in others {
        chain = put_application(alloc, store, op, &[chain, *other])?;
    }
    Ok(chain)
}

// A chain to the right, where all of it has ranks.
fn build_right(alloc: Global, store: &mut Store, op: Op, ids: &[Id]) -> Result<Id, NoMemory>
    requires some { 0 < length ids.now }
    requires ids { All (λ id. id < length store.old) ids.now }
    requires ranks { IsOk (all_to_the_right op (named store.old ids.now)) }
    ensures id { IfOk result (λ id. IsOkAnd
        (all_to_the_right op (named store.old ids.now))
        (StandsAt store.new id)) }
    ensures grows { Grows store.old store.new }
{
    let mut left = ids.len() - 1;
    let mut chain = ids[left];
    'ids: while left > 0 {
        left -= 1;
        chain = put_application(alloc, store, op, &[ids[left], chain])?;
    }
    Ok(chain)
}

/// A chain to the left, or its fault at a place: a rank fault before that of depth, and both before
/// anything is put into the store.
pub(crate) fn apply_left(
    alloc: Global,
    store: &mut Store,
    place: u64,
    op: Op,
    first: Id,
    others: &[Id],
) -> Result<Id, ElabFault>
    requires first { first < length store.old }
    requires others { All (λ id. id < length store.old) others.now }
    ensures answer { Answers store.new
        (limited place (to_the_left op (tree_at store.old first) (named store.old others.now)))
        result }
    ensures grows { Grows store.old store.new }
{
    let _terms = store.len();
    let outlines = outlines_of(alloc, store, others)?;
    let chain = joined_left(op, outline_of(store, first), &outlines);
    if let Some(fault) = fault_at(place, chain) {
        return Err(fault);
    }
    let id = build_left(alloc, store, op, first, others)?;
    Ok(id)
}

/// The same of a chain to the right.
pub(crate) fn apply_right(
    alloc: Global,
    store: &mut Store,
    place: u64,
    op: Op,
    ids: &[Id],
) -> Result<Id, ElabFault>
    requires some { 0 < length ids.now }
    requires ids { All (λ id. id < length store.old) ids.now }
    ensures answer { Answers store.new
        (limited place (all_to_the_right op (named store.old ids.now))) result }
    ensures grows { Grows store.old store.new }
{
    let _terms = store.len();
    let outlines = outlines_of(alloc, store, ids)?;
    let chain = joined_right(op, &outlines);
    if let Some(fault) = fault_at(place, chain) {
        return Err(fault);
    }
    let id = build_right(alloc, store, op, ids)?;
    Ok(id)
}
