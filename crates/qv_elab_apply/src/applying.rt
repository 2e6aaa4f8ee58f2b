//! Applications of operators to terms.

ghost use Rattle.std.specs.Prelude.{◌≡◌, ◌<◌, ◌∷◌, [], All, length, map};
ghost use Rattle.std.specs.Option.{option_map};
ghost use Rattle.qv_store.specs.Nodes.{tree_at};
ghost use Rattle.qv_store.specs.Walks.{named};
ghost use Rattle.qv_store.specs.Stores.{Grows};
ghost use Rattle.qv_sorts.specs.Faults.{fault_of};
ghost use Rattle.qv_elab_defs.specs.Applying.{
  sort_of,
  in_trees,
  depth_of_all,
  kind_of,
  alone,
  applied,
  application,
};
ghost use Rattle.qv_elab_defs.specs.Answers.{Answers};
ghost use Rattle.qv_elab_defs.specs.Built.{limited};
ghost use Rattle.qv_elab_apply.specs.ChainOf.{chain_of, takes_one};

use crate::chains::{apply_left, apply_right, put_application};
use crate::outlines::kind_of;
use crate::pairs::apply_chained;
use qv_elab_defs::{DEPTH_LIMIT, ElabFault, ElabKind};
use qv_sorts::rank;
use qv_store::{Id, Store};
use qv_words::{Op, Sort};
use std::alloc::Global;

// How an operator is applied to more arguments than its rank has.
#[derive(Clone, Copy, Debug, PartialEq, Eq)]
enum Chain {
    Left,
    Right,
    // Each argument is the next.
    Pairs,
    None,
}

// How the operator is applied to more arguments than its rank has.
fn chain_of(op: Op) -> Chain
    ensures { result ≡ chain_of op }
{
    match op {
        Op::And
        | Op::Or
        | Op::Xor
        | Op::BvAnd
        | Op::BvOr
        | Op::BvXor
        | Op::BvAdd
        | Op::BvMul
        | Op::Concat => Chain::Left,
        Op::Implies => Chain::Right,
        Op::Equal => Chain::Pairs,
        _ => Chain::None,
    }
}

// Whether the operator's application to one argument is that argument.
fn takes_one(op: Op) -> bool
    ensures { result ≡ takes_one op }
{
    op == Op::And || op == Op::Or
}

// The rank fault of an operator's application to these terms.
fn rank_fault(store: &Store, op: Op, kids: &[Id]) -> Option<ElabKind>
    requires { All (λ id. id < length store.now) kids.now }
    ensures { result ≡ option_map kind_of (fault_of op (map sort_of (named store.now kids.now))) }
{
    let sort = |id: &Id| store.sort(*id);
    let ranked = match kids {
        [] => rank(op, &[]),
        [a] => rank(op, &[sort(a)]),
        [a, b] => rank(op, &[sort(a), sort(b)]),
        [a, b, c] => rank(op, &[sort(a), sort(b), sort(c)]),
        [_, _, _, _, ..] => return Some(ElabKind::Arity),
    };
    match ranked {
        Ok(_) => None,
        Err(fault) => Some(kind_of(fault)),
    }
}

// The depth of the deepest of these terms.
fn deepest(store: &Store, kids: &[Id]) -> u64
    requires { All (λ id. id < length store.now) kids.now }
    ensures depth { result ≡ depth_of_all (in_trees (named store.now kids.now)) }
{
    let mut depth = 0;
    'kids: for kid in kids {
        depth = depth.max(store.depth(*kid));
    }
    depth
}

// An operator's application as its rank has it, or its fault at a place.
fn apply_ranked(
    alloc: Global,
    store: &mut Store,
    place: u64,
    op: Op,
    args: &[Id],
) -> Result<Id, ElabFault>
    requires { All (λ id. id < length store.old) args.now }
    ensures answer { Answers store.new (limited place (applied op (named store.old args.now)))
        result }
    ensures grows { Grows store.old store.new }
{
    if let Some(kind) = rank_fault(store, op, args) {
        return Err(ElabFault::At { place, kind });
    }
    if deepest(store, args) >= DEPTH_LIMIT {
        let kind = ElabKind::DepthLimit;
        return Err(ElabFault::At { place, kind });
    }
    let id = put_application(alloc, store, op, args)?;
    Ok(id)
}

// An operator's application to one term, or its fault at a place: `and` and `or` of one formula are
// that formula.
fn apply_one(
    alloc: Global,
    store: &mut Store,
    place: u64,
    op: Op,
    only: Id,
) -> Result<Id, ElabFault>
    requires { only < length store.old }
    ensures answer { Answers store.new (limited place
        (application op (tree_at store.old only ∷ []))) result }
    ensures grows { Grows store.old store.new }
{
    if takes_one(op) {
        apply_alone(store, place, only)
    } else {
        apply_ranked(alloc, store, place, op, &[only])
    }
}

// A formula alone, or its fault at a place.
fn apply_alone(store: &Store, place: u64, only: Id) -> Result<Id, ElabFault>
    requires { only < length store.now }
    ensures { Answers store.now (limited place (alone (tree_at store.now only))) result }
{
    if store.sort(only) != Sort::Bool {
        let kind = ElabKind::Sorts;
        return Err(ElabFault::At { place, kind });
    }
    if store.depth(only) > DEPTH_LIMIT {
        let kind = ElabKind::DepthLimit;
        return Err(ElabFault::At { place, kind });
    }
    Ok(only)
}

// An operator's application to more terms than two, or its fault at a place.
fn apply_many(
    alloc: Global,
    store: &mut Store,
    place: u64,
    op: Op,
    args: &[Id],
) -> Result<Id, ElabFault>
    requires many { 2 < length args.now }
    requires args { All (λ id. id < length store.old) args.now }
    ensures answer { Answers store.new (limited place (application op (named store.old args.now)))
        result }
    ensures grows { Grows store.old store.new }
{
    let Some((first, others)) = args.split_first() else {
        unreachable!();
    };
    match chain_of(op) {
        Chain::Left => apply_left(alloc, store, place, op, *first, others),
        Chain::Right => apply_right(alloc, store, place, op, args),
        Chain::Pairs => apply_chained(alloc, store, place, *first, others),
        Chain::None => apply_ranked(alloc, store, place, op, args),
    }
}

/// An operator's application to these terms, or its fault at a place: a rank fault before that of
/// depth, and both before anything is put into the store.
pub fn apply_operator(
    alloc: Global,
    store: &mut Store,
    place: u64,
    op: Op,
    args: &[Id],
) -> Result<Id, ElabFault>
    requires { All (λ id. id < length store.old) args.now }
    ensures answer { Answers store.new (limited place (application op (named store.old args.now)))
        result }
    ensures grows { Grows store.old store.new }
{
    match args {
        [] => apply_ranked(alloc, store, place, op, args),
        [only] => apply_one(alloc, store, place, op, *only),
        [_, _] => apply_ranked(alloc, store, place, op, args),
        [_, _, _, ..] => apply_many(alloc, store, place, op, args),
    }
}
