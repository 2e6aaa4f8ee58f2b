//! The choice of terms for a block, place by place.

ghost use Rattle.std.specs.Prelude.{◌≡◌, ◌-◌, ◌<◌, ◌≤◌, [], All, IfOk, OnOk, drop, length};
ghost use Rattle.std.specs.List.{AllZip};
ghost use Rattle.qv_words.specs.declared.sort.Sort.TheVariants.{Bool as BoolSort};
ghost use Rattle.qv_words.specs.Word.{sorts_of, values_of};
ghost use Rattle.qv_words.specs.Tree.{Tree};
ghost use Rattle.qv_words.specs.Sorted.{free_levels};
ghost use Rattle.qv_words.specs.Values.{HasWords};
ghost use Rattle.qv_words.specs.Skolem.{IsTermOf};
ghost use Rattle.qv_words.specs.Choice.{definitions, AreChosen, IsTrueAt};
ghost use Rattle.qv_words.specs.Linked.{with_terms};
ghost use Rattle.qv_store.specs.Nodes.{tree_at};
ghost use Rattle.qv_store.specs.Stores.{AreShared, Grows};
ghost use Rattle.qv_store.specs.Walks.{named};
ghost use Rattle.qv_choose_paths.specs.Sights.{IsRegion, IsTrial};
ghost use Rattle.qv_choose_candidates.specs.Chosen.{IsChoice, IsOtherChoice};
ghost use Rattle.qv_choose_clauses.specs.Defining.{IsOnly, IsDefinition};
ghost use Rattle.qv_choose_clauses.specs.Placing.{NothingPut};
ghost use Rattle.qv_choose.specs.Conjuncts.{AreConjuncts, ArePicked};
ghost use Rattle.qv_choose.specs.Listing.{numbers_in, AreListed};
ghost use Rattle.qv_choose.specs.Parts.{ArePut, IsPartChoice};

use crate::listing::listed;
use crate::parting::{pick, put_each};
use crate::splitting::conjuncts;
use crate::trying::{first_offer, holds_with};
use qv_choose_candidates::{Place, Sight, Trial, offers_of, put_literal, put_offer};
use qv_choose_clauses::definition;
use qv_conjoin::conjoin;
use qv_store::{Id, NoMemory, Store};
use qv_words::Word;
use std::alloc::Global;

/// Terms for the places `first` to `end` - 1 of a region over the places below `end`, at a point of
/// it: the region stays true there when they are put in. The terms are over places below `first`.
///
/// For each place in order, the region has the terms put in that were chosen so far. The term is
/// the first candidate with which the region stays true at the point. The candidates are what the
/// region's clauses define a truth value by, and come of its equations and comparisons by inverse
/// terms. Where there is none, and where `first` is 0, so that no place stands before the block, it
/// is the literal of the point's value. A candidate is tried in time proportional to the distinct
/// terms of those of the region's conjuncts in which the place stands.
/// Also where memory runs out the store keeps what was put.
pub fn choose(
    alloc: Global,
    store: &mut Store,
    region: Id,
    first: u64,
    end: u64,
    point: &[Word],
) -> Result<Vec<Id>, NoMemory>
    requires region { region < length store.old }
    requires formula { IsTermOf (tree_at store.old region) BoolSort }
    requires block { first ≤ end }
    requires point { length point.now ≡ end }
    requires places { HasWords [] point.now (tree_at store.old region) }
    requires holds { IsTrueAt (values_of point.now) (tree_at store.old region) }
    ensures chosen { IfOk result (λ ids. AreChosen first end (values_of point.now)
        (tree_at store.old region) first (drop first (sorts_of point.now))
        (named store.new ids.items)) }
    ensures terms { IfOk result (λ ids. AllZip
        (λ t s. IsTermOf t s × All (λ leaf. leaf.0 < first) (free_levels t))
        (named store.new ids.items) (drop first (sorts_of point.now))) }
    ensures stays { IfOk result (λ ids. IsTrueAt (values_of point.now)
        (with_terms first (named store.new ids.items) (tree_at store.old region))) }
    ensures below { IfOk result (λ ids. All (λ id. id < length store.new) ids.items) }
    ensures grows { Grows store.old store.new }
    ensures shared { OnOk result (AreShared store.new) }
{
    let _count = store.len();
    let mut parts = conjuncts(alloc, store, region)?;
    let lists = listed(alloc, store, &parts, first, end)?;
    let mut words = copied(alloc, point)?;
    let mut put = no_terms(alloc, end)?;
    let terms = choose_each(
        alloc, store, &mut parts, &lists, first, end, &mut words, &mut put,
    )?;
    Ok(terms)
}

// Terms for the places, by the region's conjuncts and the numbers of those in which each stands.
fn choose_each(
    alloc: Global,
    store: &mut Store,
    parts: &mut [Id],
    lists: &[Vec<usize>],
    first: u64,
    end: u64,
    point: &mut [Word],
    put: &mut [Option<Id>],
) -> Result<Vec<Id>, NoMemory>
    requires shared { AreShared store.old }
    requires regions { All (IsRegion point.old store.old) parts.old }
    requires hold { All (λ id. IsTrueAt (values_of point.old) (tree_at store.old id)) parts.old }
    requires listed { AreListed first (named store.old parts.old) (numbers_in lists.now) }
    requires many { length lists.now ≡ end - first }
    requires block { first ≤ end }
    requires point { length point.old ≡ end }
    requires none { NothingPut put.old }
    requires places { length put.old ≡ end }
    ensures chosen { IfOk result (λ ids. (region : Tree) →
        AreConjuncts region (named store.old parts.old) → AreChosen first end
        (values_of point.old) region first (drop first (sorts_of point.old))
        (named store.new ids.items)) }
    ensures below { IfOk result (λ ids. All (λ id. id < length store.new) ids.items) }
    ensures grows { Grows store.old store.new }
    ensures shared { OnOk result (AreShared store.new) }
{
    let mut terms = Vec::new(alloc);
    'places: for level in first..end {
        let place = Place { first, end, level };
        let own = &lists[(level - first) as usize];
        let term = choose_next(alloc, store, parts, own, place, point, put)?;
        terms.push(term)?;
    }
    Ok(terms)
}

// The term for one place, by the conjuncts of these numbers, into which it is put.
fn choose_next(
    alloc: Global,
    store: &mut Store,
    parts: &mut [Id],
    numbers: &[usize],
    place: Place,
    point: &mut [Word],
    put: &mut [Option<Id>],
) -> Result<Id, NoMemory>
    requires shared { AreShared store.old }
    requires regions { All (IsRegion point.old store.old) parts.old }
    requires picked { ArePicked place.level 0 (named store.old parts.old) numbers.now }
    requires level { place.level < length point.old }
    requires none { NothingPut put.old }
    requires places { place.level < length put.old }
    ensures point { point.new ≡ point.old }
    ensures put { put.new ≡ put.old }
    ensures choice { IfOk result (IsPartChoice point.old place store.old parts.old numbers.now
        store.new) }
    ensures parts { IfOk result (ArePut place.level store.old parts.old store.new parts.new) }
    ensures grows { Grows store.old store.new }
    ensures shared { OnOk result (AreShared store.new) }
{
    let picked = pick(alloc, parts, numbers)?;
    let region = conjoin(alloc, store, &picked)?;
    let term = choose_one(alloc, store, region, place, point, put)?;
    put_each(store, parts, numbers, put, place.level, term)?;
    let _size = store.len();
    Ok(term)
}

fn copied(alloc: Global, point: &[Word]) -> Result<Vec<Word>, NoMemory>
    ensures { IfOk result (λ words. words.items ≡ point.now) }
{
    let words = point.to_vec(alloc)?;
    Ok(words)
}

// No term for any of so many places.
fn no_terms(alloc: Global, places: u64) -> Result<Vec<Option<Id>>, NoMemory>
    ensures many { IfOk result (λ put. length put.items ≡ places) }
    ensures none { IfOk result (λ put. NothingPut put.items) }
{
    let mut none = Vec::new(alloc);
    'places: for _count in 0..places {
        none.push(None)?;
    }
    Ok(none)
}

// The term for one place: its value where no place stands before the block.
fn choose_one(
    alloc: Global,
    store: &mut Store,
    region: Id,
    place: Place,
    point: &mut [Word],
    put: &mut [Option<Id>],
) -> Result<Id, NoMemory>
    requires region { IsRegion point.old store.old region }
    requires level { place.level < length point.old }
    requires none { NothingPut put.old }
    requires places { place.level < length put.old }
    ensures same { point.new ≡ point.old }
    ensures put { put.new ≡ put.old }
    ensures choice { IfOk result (IsChoice point.old place (tree_at store.old region) store.new) }
    ensures grows { Grows store.old store.new }
    ensures shared { OnOk result (AreShared store.new) }
{
    if place.first == 0 {
        put_literal(store, point[place.level as usize])
    } else {
        choose_term(alloc, store, region, place, point, put)
    }
}

// The region's definition of the place, if it stays true with it, or else another candidate.
fn choose_term(
    alloc: Global,
    store: &mut Store,
    region: Id,
    place: Place,
    point: &mut [Word],
    put: &mut [Option<Id>],
) -> Result<Id, NoMemory>
    requires region { IsRegion point.old store.old region }
    requires level { place.level < length point.old }
    requires none { NothingPut put.old }
    requires places { place.level < length put.old }
    requires before { 0 < place.first }
    ensures same { point.new ≡ point.old }
    ensures put { put.new ≡ put.old }
    ensures choice { IfOk result (IsChoice point.old place (tree_at store.old region) store.new) }
    ensures grows { Grows store.old store.new }
    ensures shared { OnOk result (AreShared store.new) }
{
    let sight = Sight::of(alloc, store, region, place)?;
    let defined = definition(alloc, store, region, &sight, put)?;
    let trial = Trial::of(store, region, sight, point)?;
    choose_first(alloc, store, &trial, region, place, point, defined)
}

// The definition, if there is one with which the region stays true, or else another candidate.
fn choose_first(
    alloc: Global,
    store: &mut Store,
    trial: &Trial,
    region: Id,
    place: Place,
    point: &mut [Word],
    defined: Option<Id>,
) -> Result<Id, NoMemory>
    requires trial { IsTrial point.old store.old region trial.now }
    requires place { trial.now.sight.place ≡ place }
    requires defined { IsDefinition place store.old
        (definitions place.first place.end (tree_at store.old region) place.level) defined }
    requires level { place.level < length point.old }
    requires before { 0 < place.first }
    ensures same { point.new ≡ point.old }
    ensures choice { IfOk result (IsChoice point.old place (tree_at store.old region) store.new) }
    ensures grows { Grows store.old store.new }
    ensures shared { OnOk result (AreShared store.new) }
{
    match defined {
        Some(term) => choose_defined(alloc, store, trial, region, place, point, term),
        None => choose_other(alloc, store, trial, region, place, point),
    }
}

// The definition, if the region stays true with it, or else another candidate.
fn choose_defined(
    alloc: Global,
    store: &mut Store,
    trial: &Trial,
    region: Id,
    place: Place,
    point: &mut [Word],
    term: Id,
) -> Result<Id, NoMemory>
    requires trial { IsTrial point.old store.old region trial.now }
    requires place { trial.now.sight.place ≡ place }
    requires defined { IsOnly place store.old
        (definitions place.first place.end (tree_at store.old region) place.level) term }
    requires level { place.level < length point.old }
    requires before { 0 < place.first }
    ensures same { point.new ≡ point.old }
    ensures choice { IfOk result (IsChoice point.old place (tree_at store.old region) store.new) }
    ensures grows { Grows store.old store.new }
    ensures shared { OnOk result (AreShared store.new) }
{
    let _count = store.len();
    if holds_with(store, trial, region, point, term)? {
        return Ok(term);
    }
    choose_other(alloc, store, trial, region, place, point)
}

// The first other candidate with which the region stays true, or else the value.
fn choose_other(
    alloc: Global,
    store: &mut Store,
    trial: &Trial,
    region: Id,
    place: Place,
    point: &mut [Word],
) -> Result<Id, NoMemory>
    requires trial { IsTrial point.old store.old region trial.now }
    requires place { trial.now.sight.place ≡ place }
    requires level { place.level < length point.old }
    ensures same { point.new ≡ point.old }
    ensures choice { IfOk result (IsOtherChoice point.old place (tree_at store.old region)
        store.new) }
    ensures grows { Grows store.old store.new }
    ensures shared { OnOk result (AreShared store.new) }
{
    let offers = offers_of(alloc, store, &trial.sight)?;
    match first_offer(alloc, store, trial, region, point, &offers)? {
        Some(offer) => put_offer(alloc, store, &trial.sight, offer),
        None => put_literal(store, point[place.level as usize]),
    }
}
