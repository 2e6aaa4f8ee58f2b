//! Applications of `=` and `distinct`, which are said of pairs of arguments.

ghost use Rattle.std.specs.Prelude.{◌≡◌, ◌<◌, ◌++◌, ◌∷◌, All, IfOk, OnOk, length, map};
ghost use Rattle.std.specs.List.{list_all};
ghost use Rattle.qv_words.specs.Rank.{sort_eq};
ghost use Rattle.qv_store.specs.Nodes.{tree_at};
ghost use Rattle.qv_store.specs.Walks.{named};
ghost use Rattle.qv_store.specs.Stores.{StandsAt, Grows};
ghost use Rattle.qv_elab_defs.specs.Applying.{sort_of, have_one_sort, conjunction, chained};
ghost use Rattle.qv_elab_defs.specs.Applying.{distinct};
ghost use Rattle.qv_elab_defs.specs.Answers.{Answers};
ghost use Rattle.qv_elab_defs.specs.Built.{limited};
ghost use Rattle.qv_elab_apply.specs.Outlines.{outline_of};
ghost use Rattle.qv_elab_apply.specs.Chained.{
  neighbours_in,
  pairs_in,
  both_at,
  said_of,
  AreAlike,
  IsPairBelow,
};

use crate::chains::{build_left, put_application};
use crate::outlines::{Outline, fault_at, joined_left};
use qv_elab_defs::{ElabFault, ElabKind, above};
use qv_store::{Id, NoMemory, Store};
use qv_words::{Op, Sort};
use std::alloc::Global;

// Of more arguments than so many `distinct` is too deep.
const MOST_DISTINCT: usize = 142;

// Two terms, of which it is said that they are the same, or that they aren't.
type Pair = (Id, Id);

// Whether the terms have this sort.
fn are_of_sort(store: &Store, sort: Sort, ids: &[Id]) -> bool
    requires { All (λ id. id < length store.now) ids.now }
    ensures { result ≡ list_all (λ t. sort_eq sort (sort_of t)) (named store.now ids.now) }
{
    'ids: for id in ids {
        if store.sort(*id) != sort {
            return false;
        }
    }
    true
}

// Whether the terms have one sort.
fn have_one_sort(store: &Store, ids: &[Id]) -> bool
    requires { All (λ id. id < length store.now) ids.now }
    ensures { result ≡ have_one_sort (named store.now ids.now) }
{
    match ids {
        [] => true,
        [first, others @ ..] => are_of_sort(store, store.sort(*first), others),
    }
}

// The pairs of neighbours.
fn neighbours(alloc: Global, first: Id, others: &[Id]) -> Result<Vec<Pair>, NoMemory>
    ensures { IfOk result (λ pairs. pairs.items ≡ neighbours_in first others.now) }
{
    let mut pairs = Vec::new(alloc);
    let mut before = first;
    'others: for other in others {
        pairs.push((before, *other))?;
        before = *other;
    }
    Ok(pairs)
}

// Adds the pairs of a term with each of others.
fn pair_with(pairs: &mut Vec<Pair>, first: Id, others: &[Id]) -> Result<(), NoMemory>
    ensures { OnOk result (pairs.new.items
        ≡ pairs.old.items ++ map (λ other. (first, other)) others.now) }
{
    'others: for other in others {
        pairs.push((first, *other))?;
    }
    Ok(())
}

// The pairs of places, the smaller first place first.
fn all_pairs(alloc: Global, ids: &[Id]) -> Result<Vec<Pair>, NoMemory>
    ensures { IfOk result (λ pairs. pairs.items ≡ pairs_in ids.now) }
{
    let mut pairs = Vec::new(alloc);
    let mut left = ids;
    'ids: while let Some((first, others)) = left.split_first() {
        pair_with(&mut pairs, *first, others)?;
        left = others;
    }
    Ok(pairs)
}

// The outline of what is said of a pair.
fn said_outline(store: &Store, pair: Pair, same: bool) -> Outline
    requires { IsPairBelow (length store.now) pair }
    ensures { result ≡ outline_of (said_of same (both_at store.now pair)) }
{
    let depth = above(store.depth(pair.0).max(store.depth(pair.1)));
    Outline {
        sort: Sort::Bool,
        depth: if same { depth } else { above(depth) },
    }
}

// The outlines of what is said of pairs.
fn said_outlines(
    alloc: Global,
    store: &Store,
    pairs: &[Pair],
    same: bool,
) -> Result<Vec<Outline>, NoMemory>
    requires { All (IsPairBelow (length store.now)) pairs.now }
    ensures { IfOk result (λ outlines. outlines.items
        ≡ map (λ pair. outline_of (said_of same (both_at store.now pair))) pairs.now) }
{
    pairs
        .iter()
        .map(|pair| said_outline(store, *pair, same))
        .collect(alloc)
}

// What is said of a pair.
fn build_said(alloc: Global, store: &mut Store, pair: Pair, same: bool) -> Result<Id, NoMemory>
    requires below { IsPairBelow (length store.old) pair }
    requires alike { AreAlike (both_at store.old pair) }
    ensures id { IfOk result (λ id. StandsAt store.new id (said_of same (both_at store.old pair))) }
    ensures grows { Grows store.old store.new }
{
    let equation = put_application(alloc, store, Op::Equal, &[pair.0, pair.1])?;
    if same {
        return Ok(equation);
    }
    put_application(alloc, store, Op::Not, &[equation])
}

// What is said of pairs.
fn build_all_said(
    alloc: Global,
    store: &mut Store,
    pairs: &[Pair],
    same: bool,
) -> Result<Vec<Id>, NoMemory>
    requires below { All (IsPairBelow (length store.old)) pairs.now }
    requires alike { All (λ pair. AreAlike (both_at store.old pair)) pairs.now }
    ensures below { IfOk result (λ ids. All (λ id. id < length store.new) ids.items) }
    ensures ids { IfOk result (λ ids. named store.new ids.items
        ≡ map (λ pair. said_of same (both_at store.old pair)) pairs.now) }
    ensures grows { Grows store.old store.new }
{
    let mut ids = Vec::new(alloc);
    'pairs: for pair in pairs {
        let id = build_said(alloc, store, *pair, same)?;
        ids.push(id)?;
    }
    Ok(ids)
}

// What is said of each pair joined by `and` to the left, or the fault at a place, before anything
// is put into the store.
fn conjoin(
    alloc: Global,
    store: &mut Store,
    place: u64,
    pairs: &[Pair],
    same: bool,
) -> Result<Id, ElabFault>
    requires below { All (IsPairBelow (length store.old)) pairs.now }
    requires alike { All (λ pair. AreAlike (both_at store.old pair)) pairs.now }
    ensures answer { Answers store.new (limited place
        (conjunction (map (λ pair. said_of same (both_at store.old pair)) pairs.now))) result }
    ensures grows { Grows store.old store.new }
{
    let _terms = store.len();
    let outlines = said_outlines(alloc, store, pairs, same)?;
    let Some((first, others)) = outlines.split_first() else {
        let kind = ElabKind::Arity;
        return Err(ElabFault::At { place, kind });
    };
    if let Some(fault) = fault_at(place, joined_left(Op::And, *first, others)) {
        return Err(fault);
    }
    let ids = build_all_said(alloc, store, pairs, same)?;
    let Some((first, others)) = ids.split_first() else {
        unreachable!();
    };
    let id = build_left(alloc, store, Op::And, *first, others)?;
    Ok(id)
}

/// An application of `=` to two arguments or more: its pairs of neighbours joined by `and`, or its
/// fault at a place.
pub(crate) fn apply_chained(
    alloc: Global,
    store: &mut Store,
    place: u64,
    first: Id,
    others: &[Id],
) -> Result<Id, ElabFault>
    requires first { first < length store.old }
    requires others { All (λ id. id < length store.old) others.now }
    ensures answer { Answers store.new (limited place
        (chained (tree_at store.old first) (named store.old others.now))) result }
    ensures grows { Grows store.old store.new }
{
    if !are_of_sort(store, store.sort(first), others) {
        let kind = ElabKind::Sorts;
        return Err(ElabFault::At { place, kind });
    }
    let pairs = neighbours(alloc, first, others)?;
    conjoin(alloc, store, place, &pairs, true)
}

/// An application of `distinct`: all pairs of places joined by `and`, or its fault at a place. The
/// pairs are looked at only where they can be few enough.
pub fn apply_distinct(
    alloc: Global,
    store: &mut Store,
    place: u64,
    args: &[Id],
) -> Result<Id, ElabFault>
    requires { All (λ id. id < length store.old) args.now }
    ensures answer { Answers store.new (limited place (distinct (named store.old args.now)))
        result }
    ensures grows { Grows store.old store.new }
{
    if !have_one_sort(store, args) {
        let kind = ElabKind::Sorts;
        return Err(ElabFault::At { place, kind });
    }
    if args.len() > MOST_DISTINCT {
        let kind = ElabKind::DepthLimit;
        return Err(ElabFault::At { place, kind });
    }
    let pairs = all_pairs(alloc, args)?;
    conjoin(alloc, store, place, &pairs, false)
}
