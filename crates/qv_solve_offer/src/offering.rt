//! What may be left out together.

ghost use Rattle.std.specs.Prelude.{◌<◌, ◌≡◌, ◌↔◌, All, IfOk, IsTrue, OnOk, Some, length, slice_get};
ghost use Rattle.qv_solve_offer.specs.Parts.{IsPart};
ghost use Rattle.qv_solve_offer.specs.Asking.{IsBase};

use crate::base::Base;
use qv_blast::BlastFault;
use qv_cnf::Lit;
use qv_store::{Id, NoMemory, Store};
use std::alloc::{AllocError, Global};

// How many conflicts a search may take.
const MOST_CONFLICTS: u64 = 100_000;

/// Places of named formulas that a refutation of the formulas without quantifiers doesn't need, in
/// the order of the names. There are none where no refutation is found within a budget of its own,
/// which is charged to no record. Nothing is claimed of the rest: whoever leaves them out shows that
/// it has no model.
pub fn unneeded(
    alloc: Global,
    store: &Store,
    formulas: &[Id],
    named: &[u64],
) -> Result<Vec<u64>, NoMemory>
    requires { All (λ id. id < length store.now) formulas.now }
    ensures { IfOk result (λ places. IsPart places.items named.now) }
{
    let mut lits = Vec::new(alloc);
    match needed(alloc, store, formulas, named, &mut lits)? {
        Some(failed) => others(alloc, named, &lits, &failed),
        None => Ok(Vec::new(alloc)),
    }
}

// The literals of named formulas that fail together, if that is found. Gives the literal of each
// named formula, but of none with quantifiers.
fn needed(
    alloc: Global,
    store: &Store,
    formulas: &[Id],
    named: &[u64],
    lits: &mut Vec<Option<Lit>>,
) -> Result<Option<Vec<Lit>>, NoMemory>
    requires { All (λ id. id < length store.now) formulas.now }
{
    // Without a name there is nothing to offer.
    if named.is_empty() {
        return Ok(None);
    }
    // What a store keeps.
    let _count = store.len();
    let mut base = Base::new(alloc)?;
    refuted(alloc, store, formulas, named, &mut base, lits)
}

// The same over a base.
fn refuted(
    alloc: Global,
    store: &Store,
    formulas: &[Id],
    named: &[u64],
    base: &mut Base,
    lits: &mut Vec<Option<Lit>>,
) -> Result<Option<Vec<Lit>>, NoMemory>
    requires ids { All (λ id. id < length store.now) formulas.now }
    requires base { IsBase store.now base.old }
{
    match put_all(store, formulas, named, base, lits) {
        Ok(()) => {
            let assumptions = assumptions(alloc, lits)?;
            base.failed(&assumptions, MOST_CONFLICTS)
        }
        Err(BlastFault::TooManyVariables) => Ok(None),
        Err(BlastFault::NoMemory) => Err(AllocError),
    }
}

// The formulas without quantifiers go to a base, and a literal comes for each name.
fn put_all(
    store: &Store,
    formulas: &[Id],
    named: &[u64],
    base: &mut Base,
    lits: &mut Vec<Option<Lit>>,
) -> Result<(), BlastFault>
    requires ids { All (λ id. id < length store.now) formulas.now }
    requires base { IsBase store.now base.old }
    ensures base { OnOk result (IsBase store.now base.new) }
{
    'formulas: for place in 0..formulas.len() {
        let is_named = is_at(named, lits.len(), place as u64);
        put(store, formulas[place], is_named, base, lits)?;
    }
    Ok(())
}

// Whether the next of the places that have names is this one.
fn is_at(named: &[u64], item: usize, place: u64) -> bool
    ensures { IsTrue result ↔ (slice_get named.now item ≡ Some place) }
{
    match named.get(item) {
        Some(next) => *next == place,
        None => false,
    }
}

// One formula goes to a base.
fn put(
    store: &Store,
    formula: Id,
    is_named: bool,
    base: &mut Base,
    lits: &mut Vec<Option<Lit>>,
) -> Result<(), BlastFault>
    requires id { formula < length store.now }
    requires base { IsBase store.now base.old }
    ensures base { OnOk result (IsBase store.now base.new) }
{
    if store.quantified(formula) {
        return put_none(is_named, lits);
    }
    if is_named {
        let lit = base.name(store, formula)?;
        lits.push(lit)?;
        return Ok(());
    }
    base.assert(store, formula)
}

// A formula that doesn't go there has no literal.
fn put_none(is_named: bool, lits: &mut Vec<Option<Lit>>) -> Result<(), BlastFault> {
    if is_named {
        lits.push(None)?;
    }
    Ok(())
}

// The literals that are there.
fn assumptions(alloc: Global, lits: &[Option<Lit>]) -> Result<Vec<Lit>, NoMemory> {
    let mut assumptions = Vec::with_capacity(alloc, lits.len())?;
    'lits: for lit in lits {
        if let Some(lit) = lit {
            assumptions.push(*lit)?;
        }
    }
    Ok(assumptions)
}

// The places whose literals aren't among those that failed. Of equal literals one is enough.
fn others(
    alloc: Global,
    named: &[u64],
    lits: &[Option<Lit>],
    failed: &[Lit],
) -> Result<Vec<u64>, NoMemory>
    ensures { IfOk result (λ places. IsPart places.items named.now) }
{
    let mut marks = marks_of(alloc, failed)?;
    let mut places = Vec::new(alloc);
    'items: for item in 0..named.len() {
        if !takes(&mut marks, lits, item) {
            places.push(named[item])?;
        }
    }
    Ok(places)
}

// A mark for each literal that is listed.
fn marks_of(alloc: Global, listed: &[Lit]) -> Result<Vec<bool>, NoMemory> {
    let mut marks = vec![in alloc; false; room_for(listed)]?;
    'listed: for lit in listed {
        let index = lit.index();
        if index < marks.len() {
            marks[index] = true;
        }
    }
    Ok(marks)
}

// More than the greatest index of a literal.
fn room_for(listed: &[Lit]) -> usize {
    let mut room = 0;
    'listed: for lit in listed {
        room = room.max(lit.index() + 1);
    }
    room
}

// Whether the literal of an item has a mark, which it then loses.
fn takes(marks: &mut [bool], lits: &[Option<Lit>], item: usize) -> bool {
    match lits.get(item) {
        Some(Some(lit)) => take(marks, lit.index()),
        _ => false,
    }
}

// Whether there is a mark, which is taken away.
fn take(marks: &mut [bool], index: usize) -> bool {
    if index < marks.len() && marks[index] {
        marks[index] = false;
        return true;
    }
    false
}
