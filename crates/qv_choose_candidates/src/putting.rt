//! Candidates as terms of a store.

ghost use Rattle.std.specs.Prelude.{◌≡◌, ◌<◌, ◌∷◌, ◌++◌, All, IfOk, OnOk, Some, length, map};
ghost use Rattle.std.specs.Option.{option_to_list};
ghost use Rattle.qv_words.specs.Word.{word_sort, word_value};
ghost use Rattle.qv_words.specs.Tree.{Literal, IsQuantifierFree};
ghost use Rattle.qv_words.specs.Choice.{candidates};
ghost use Rattle.qv_store.specs.Nodes.{tree_at};
ghost use Rattle.qv_store.specs.Stores.{AreShared, Grows, StandsAt};
ghost use Rattle.qv_store.specs.Walks.{named};
ghost use Rattle.qv_choose_paths.specs.Sights.{IsScene, IsSight};
ghost use Rattle.qv_choose_candidates.specs.Offers.{offered, IsAim, IsReady};
ghost use Rattle.qv_choose_candidates.specs.Chosen.{IsPut, others};
ghost use Rattle.qv_choose_clauses.specs.Placing.{NothingPut};

use crate::offering::offers_of;
use crate::offers::{Offer, Target};
use crate::targets::target_row;
use qv_choose_clauses::definition;
use qv_choose_paths::{Place, Sight, put_down, put_row};
use qv_store::{Id, NoMemory, Node, Store};
use qv_words::Word;
use std::alloc::Global;

/// The candidates for a place of a region without quantifiers, in order: the term by which it is
/// defined as a truth value, and those of its equations and comparisons by inverse terms, and true
/// and false where the place is a truth value. The ones with a place from `first` to `end` - 1 in
/// them are passed over. Also where memory runs out the store keeps what was put.
pub fn candidates(
    alloc: Global,
    store: &mut Store,
    region: Id,
    first: u64,
    end: u64,
    level: u64,
) -> Result<Vec<Id>, NoMemory>
    requires region { region < length store.old }
    requires free { IsQuantifierFree (tree_at store.old region) }
    ensures candidates { IfOk result (λ ids. named store.new ids.items
        ≡ candidates first end (tree_at store.old region) level) }
    ensures below { IfOk result (λ ids. All (λ id. id < length store.new) ids.items) }
    ensures grows { Grows store.old store.new }
    ensures shared { OnOk result (AreShared store.new) }
{
    let _count = store.len();
    let sight = Sight::of(alloc, store, region, Place { first, end, level })?;
    let mut put = no_terms(alloc, level)?;
    let defined = definition(alloc, store, region, &sight, &mut put)?;
    let others = others(alloc, store, &sight, region)?;
    in_front(alloc, defined, &others)
}

// No term for any place up to this one.
fn no_terms(alloc: Global, level: u64) -> Result<Vec<Option<Id>>, NoMemory>
    ensures none { IfOk result (λ put. NothingPut put.items) }
    ensures many { IfOk result (λ put. level < length put.items) }
{
    let mut none = Vec::new(alloc);
    'places: for _count in 0..level {
        none.push(None)?;
    }
    none.push(None)?;
    Ok(none)
}

// The term of this number before others, if there is one.
fn in_front(alloc: Global, first: Option<Id>, others: &[Id]) -> Result<Vec<Id>, NoMemory>
    ensures { IfOk result (λ ids. ids.items ≡ option_to_list first ++ others.now) }
{
    match first {
        Some(id) => followed(alloc, id, others),
        None => copied(alloc, others),
    }
}

// A number and others behind it.
fn followed(alloc: Global, id: Id, others: &[Id]) -> Result<Vec<Id>, NoMemory>
    ensures { IfOk result (λ ids. ids.items ≡ id ∷ others.now) }
{
    let mut ids = Vec::new(alloc);
    ids.push(id)?;
    ids.extend_from_slice(others)?;
    Ok(ids)
}

fn copied(alloc: Global, others: &[Id]) -> Result<Vec<Id>, NoMemory>
    ensures { IfOk result (λ ids. ids.items ≡ others.now) }
{
    let ids = others.to_vec(alloc)?;
    Ok(ids)
}

// The candidates but for the definition.
fn others(alloc: Global, store: &mut Store, sight: &Sight, region: Id) -> Result<Vec<Id>, NoMemory>
    requires sight { IsSight store.old region sight.now }
    ensures others { IfOk result (λ ids. named store.new ids.items
        ≡ others sight.now.place (tree_at store.old region)) }
    ensures below { IfOk result (λ ids. All (λ id. id < length store.new) ids.items) }
    ensures grows { Grows store.old store.new }
    ensures shared { OnOk result (AreShared store.new) }
{
    let offers = offers_of(alloc, store, sight)?;
    put_offers(alloc, store, sight, &offers)
}

// The terms of candidates.
fn put_offers(
    alloc: Global,
    store: &mut Store,
    sight: &Sight,
    offers: &[Offer],
) -> Result<Vec<Id>, NoMemory>
    requires scene { IsScene store.old sight.now }
    requires ready { All (IsReady sight.now.place store.old sight.now.walk) offers.now }
    ensures put { IfOk result (λ ids. map Some (named store.new ids.items)
        ≡ map (offered sight.now.place store.old) offers.now) }
    ensures below { IfOk result (λ ids. All (λ id. id < length store.new) ids.items) }
    ensures grows { Grows store.old store.new }
    ensures shared { OnOk result (AreShared store.new) }
{
    let _count = store.len();
    let mut ids = Vec::new(alloc);
    'offers: for offer in offers {
        let id = put_offer(alloc, store, sight, *offer)?;
        ids.push(id)?;
    }
    Ok(ids)
}

/// The term of a candidate.
pub fn put_offer(
    alloc: Global,
    store: &mut Store,
    sight: &Sight,
    offer: Offer,
) -> Result<Id, NoMemory>
    requires scene { IsScene store.old sight.now }
    requires ready { IsReady sight.now.place store.old sight.now.walk offer }
    ensures put { IfOk result (IsPut sight.now.place store.old offer store.new) }
    ensures grows { Grows store.old store.new }
    ensures shared { OnOk result (AreShared store.new) }
{
    match offer {
        Offer::Truth(holds) => put_literal(store, Word::truth(holds)),
        Offer::Down {
            side,
            other,
            target,
        } => put_aim(alloc, store, sight, target, side, other),
    }
}

// What a target gives down a side.
fn put_aim(
    alloc: Global,
    store: &mut Store,
    sight: &Sight,
    target: Target,
    side: Id,
    other: Id,
) -> Result<Id, NoMemory>
    requires scene { IsScene store.old sight.now }
    requires aim { IsAim sight.now.place store.old sight.now.walk side other }
    ensures put { IfOk result (IsPut sight.now.place store.old
        (Offer.Down side other target) store.new) }
    ensures grows { Grows store.old store.new }
    ensures shared { OnOk result (AreShared store.new) }
{
    let row = target_row(alloc, target, store.sort(other))?;
    let aim = put_row(alloc, store, &row, other, other)?;
    let made = put_down(alloc, store, sight, side, aim)?;
    let _count = store.len();
    Ok(made)
}

/// A literal.
pub fn put_literal(store: &mut Store, word: Word) -> Result<Id, NoMemory>
    ensures id { IfOk result (λ id. StandsAt store.new id
        (Literal (word_sort word) (word_value word))) }
    ensures grows { Grows store.old store.new }
    ensures shared { AreShared store.new }
{
    store.put(Node::Lit { word })
}
