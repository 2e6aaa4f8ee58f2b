//! The candidates for a place, in order, by how they are found.

ghost use Rattle.std.specs.Prelude.{◌≡◌, ◌&&◌, IfOk, OnOk, Some, length, map};
ghost use Rattle.std.specs.List.{flat_map};
ghost use Rattle.std.specs.Option.{option_to_list};
ghost use Rattle.qv_words.specs.Prenex.{is_bool};
ghost use Rattle.qv_words.specs.Tree.{Variable};
ghost use Rattle.qv_words.specs.Choice.{candidates_of, candidates_of_sides, candidates_down};
ghost use Rattle.qv_store.specs.Nodes.{tree_at};
ghost use Rattle.qv_store.specs.Walks.{IsEarlier, named};
ghost use Rattle.qv_choose_paths.specs.Rows.{sort_at};
ghost use Rattle.qv_choose_candidates.specs.Targets.{target_tree};
ghost use Rattle.qv_choose_paths.specs.Sights.{IsScene};
ghost use Rattle.qv_choose_candidates.specs.Offers.{offered, open_side, IsAim, AreSides, AreOffers};
ghost use Rattle.qv_choose_candidates.specs.Offers.{AddsOffers};

use crate::offers::{Offer, Side, Target};
use crate::targets::{has_other, targets_of};
use qv_choose_paths::{Sight, Way};
use qv_store::{Id, NoMemory, Node, Store};
use qv_words::{Op, Sort};
use std::alloc::Global;

/// Those of a region's terms, in their order.
pub fn offers_of(alloc: Global, store: &Store, sight: &Sight) -> Result<Vec<Offer>, NoMemory>
    requires { IsScene store.now sight.now }
    ensures { IfOk result (λ offers. AreOffers sight.now.place store.now sight.now.walk
        (flat_map (candidates_of sight.now.place.level) (named store.now sight.now.walk))
        offers.items) }
{
    let mut offers = Vec::new(alloc);
    'terms: for term in sight.walk.ids() {
        add_term(store, sight, *term, &mut offers)?;
    }
    Ok(offers)
}

// Those of one term.
fn add_term(store: &Store, sight: &Sight, id: Id, offers: &mut Vec<Offer>) -> Result<(), NoMemory>
    requires scene { IsScene store.now sight.now }
    requires id { IsEarlier sight.now.walk (length sight.now.walk) id }
    ensures { OnOk result (AddsOffers sight.now.place store.now sight.now.walk
        (candidates_of sight.now.place.level (tree_at store.now id))
        offers.old.items offers.new.items) }
{
    match store.node(id) {
        Node::Var { level, sort } => add_truths(store, sight, id, *level, *sort, offers),
        Node::App { op, kids } => match kids.as_slice() {
            [] => Ok(()),
            [_] => Ok(()),
            [a, b] => add_between(store, sight, *op, *a, *b, offers),
            [_, _, _, ..] => Ok(()),
        },
        _ => Ok(()),
    }
}

// True before false, where the place is a truth value.
fn add_truths(
    store: &Store,
    sight: &Sight,
    id: Id,
    level: u64,
    sort: Sort,
    offers: &mut Vec<Offer>,
) -> Result<(), NoMemory>
    requires id { IsEarlier sight.now.walk (length sight.now.walk) id }
    requires variable { tree_at store.now id ≡ Variable level sort }
    ensures { OnOk result (AddsOffers sight.now.place store.now sight.now.walk
        (candidates_of sight.now.place.level (Variable level sort))
        offers.old.items offers.new.items) }
{
    let _count = store.len();
    match sort {
        Sort::Bits(_) => Ok(()),
        Sort::Bool => {
            if level == sight.place.level {
                offers.push(Offer::Truth(true))?;
                offers.push(Offer::Truth(false))?;
            }
            Ok(())
        }
    }
}

// Those of an equation or a comparison: the place stands in one side, to which the way is open.
fn add_between(
    store: &Store,
    sight: &Sight,
    op: Op,
    a: Id,
    b: Id,
    offers: &mut Vec<Offer>,
) -> Result<(), NoMemory>
    requires scene { IsScene store.now sight.now }
    requires sides { AreSides store.now sight.now.walk op a b }
    ensures { OnOk result (AddsOffers sight.now.place store.now sight.now.walk
        (candidates_of_sides sight.now.place.level op (tree_at store.now a) (tree_at store.now b))
        offers.old.items offers.new.items) }
{
    let targets = targets_of(op);
    if targets.is_empty() {
        return Ok(());
    }
    if is_bool(store.sort(a)) {
        return Ok(());
    }
    let left = sight.look(store, a).way;
    let right = sight.look(store, b).way;
    match open_side(left, right) {
        Side::First => add_down(store, sight, targets, a, b, offers),
        Side::Second => add_down(store, sight, targets, b, a, offers),
        Side::Neither => Ok(()),
    }
}

// Those of the targets down one side.
fn add_down(
    store: &Store,
    sight: &Sight,
    targets: &[Target],
    side: Id,
    other: Id,
    offers: &mut Vec<Offer>,
) -> Result<(), NoMemory>
    requires scene { IsScene store.now sight.now }
    requires aim { IsAim sight.now.place store.now sight.now.walk side other }
    ensures { OnOk result (AddsOffers sight.now.place store.now sight.now.walk
        (candidates_down sight.now.place.level (tree_at store.now side)
        (map (λ k. target_tree k (sort_at store.now other) (tree_at store.now other)) targets.now))
        offers.old.items offers.new.items) }
{
    'targets: for target in targets {
        add_target(store, sight, *target, side, other, offers)?;
    }
    Ok(())
}

// What one of them gives, unless a place of the block stands in it.
fn add_target(
    store: &Store,
    sight: &Sight,
    target: Target,
    side: Id,
    other: Id,
    offers: &mut Vec<Offer>,
) -> Result<(), NoMemory>
    requires scene { IsScene store.now sight.now }
    requires aim { IsAim sight.now.place store.now sight.now.walk side other }
    ensures { OnOk result (AddsOffers sight.now.place store.now sight.now.walk
        (option_to_list (offered sight.now.place store.now (Offer.Down side other target)))
        offers.old.items offers.new.items) }
{
    let inside = sight.look(store, other).inside;
    let has_other = has_other(target);
    if both(inside, has_other) {
        return Ok(());
    }
    offers.push(Offer::Down {
        side,
        other,
        target,
    })?;
    Ok(())
}

// Whether both hold.
fn both(a: bool, b: bool) -> bool
    ensures { result ≡ (a && b) }
{
    a && b
}

// The side to which the way is open, where the place doesn't stand in the other.
fn open_side(left: Way, right: Way) -> Side
    ensures { result ≡ open_side left right }
{
    match left {
        Way::Open => match right {
            Way::Absent => Side::First,
            _ => Side::Neither,
        },
        Way::Absent => match right {
            Way::Open => Side::Second,
            _ => Side::Neither,
        },
        Way::Hidden => Side::Neither,
    }
}

// Whether a sort is that of truth values.
fn is_bool(sort: Sort) -> bool
    ensures { result ≡ is_bool (Some sort) }
{
    match sort {
        Sort::Bool => true,
        Sort::Bits(_) => false,
    }
}
