//! The attached clauses, at their places and under their ids.

ghost use Rattle.std.specs.Prelude.{◌≡◌, ◌≢◌, ℕ, ◌+◌, ◌<◌, [], ◌∷◌, ◌++◌, length, None, Some};
ghost use Rattle.std.specs.Prelude.{IsTrue, ◌↔◌, IfOk, IfSome, IfNone, IsSomeAnd, OnOk, OnErr, slice_get};
ghost use Rattle.std.specs.Prelude.{nat_eq, ◌⊎◌};
ghost use Rattle.std.specs.Option.{option_copied, option_map};
ghost use Rattle.std.specs.HashMap.{get};
ghost use Rattle.qv_cnf.specs.Listing.{clause_named};
ghost use Rattle.qv_watch.specs.Attaching.{attached_in, let_go, lits_in, IsNamed};
ghost use Rattle.qv_watch.specs.Storing.{first_or, AreFound, HoldsId, LacksId};

use qv_cnf::Lit;
use std::alloc::{AllocError, Global};
use std::collections::HashMap;
use std::marker::Model;

// Where a clause's literals begin and end. Of one that isn't attached any more the end comes before
// the start: so a slot has 16 bytes, and more of them are in the cache.
#[derive(Drop)]
pub(crate) struct Slot {
    id: u64,
    start: u32,
    end: u32,
}

// Clauses at places, with all their literals in one vector. A place is given once. Where no id is
// left out, places follow from the first id; the map has the others.
#[derive(Drop)]
pub(crate) struct Attached {
    slots: Vec<Slot>,
    lits: Vec<Lit>,
    places: HashMap<u64, usize>,
}

impl Model for Attached {
    ghost use Rattle.std.specs.Prelude.{List};
    ghost use Rattle.qv_watch.specs.Attaching.{Stored};

    ghost Value = { List Stored };

    ghost use Rattle.qv_watch.specs.Storing.{stored_at, IsStored};

    ghost view = { λ a. stored_at a.lits.items a.slots.items };

    ghost invariant = { λ a. IsStored a.lits.items a.slots.items a.places };
}

impl Attached {
    pub(crate) fn new(alloc: Global) -> Self
        ensures { result ≡ [] }
    {
        Attached {
            slots: Vec::new(alloc),
            lits: Vec::new(alloc),
            places: HashMap::new(alloc),
        }
    }

    pub(crate) fn attach(&mut self, id: u64, lits: &[Lit]) -> Result<(), AllocError>
        requires { clause_named id (attached_in self.old) ≡ None }
        ensures ok { OnOk result
            (self.new ≡ self.old ++ record { id = id; lits = Some lits.now } ∷ []) }
        ensures err { OnErr result (self.new ≡ self.old) }
    {
        self.slots.reserve(1)?;
        let before = self.lits.len();
        let start = short(before)?;
        let end = short_sum(before, lits.len())?;
        self.lits.extend_from_slice(lits)?;
        note(&self.slots, &mut self.places, id)?;
        self.slots.push_reserved(Slot { id, start, end });
        Ok(())
    }

    pub(crate) fn detach(&mut self, id: u64)
        ensures { self.new ≡ let_go id self.old }
    {
        if let Some(place) = find(&self.slots, &self.places, id) {
            let slot = &mut self.slots[place];
            slot.start = 1;
            slot.end = 0;
        }
    }

    // The clause of that id.
    pub(crate) fn get(&self, id: u64) -> Option<&[Lit]>
        ensures { option_copied result ≡ clause_named id (attached_in self.now) }
    {
        let place = find(&self.slots, &self.places, id)?;
        self.get_at(place)
    }

    // The place of the clause of that id.
    pub(crate) fn place_of(&self, id: u64) -> Option<usize> {
        find(&self.slots, &self.places, id)
    }

    // The clause at that place.
    pub(crate) fn get_at(&self, place: usize) -> Option<&[Lit]>
        ensures { option_copied result ≡ lits_in (slice_get self.now place) }
    {
        let slot = self.slots.get(place)?;
        if slot.start <= slot.end {
            Some(&self.lits[slot.start as usize..slot.end as usize])
        } else {
            None
        }
    }

    // The id of the clause that came to that place.
    pub(crate) fn id_at(&self, place: usize) -> u64
        requires { place < length self.now }
        ensures id { option_map (λ s. s.id) (slice_get self.now place) ≡ Some result }
        ensures named { IsNamed self.now }
    {
        self.slots[place].id
    }

    // How many places there are.
    pub(crate) fn len(&self) -> usize
        ensures { result ≡ length self.now }
    {
        self.slots.len()
    }
}

// A place in 32 bits, which is as many literals as there is room for.
fn short(place: usize) -> Result<u32, AllocError>
    ensures { IfOk result (λ short. short ≡ place) }
{
    match u32::try_from(place) {
        Ok(short) => Ok(short),
        Err(_) => Err(AllocError),
    }
}

// The place so many behind another.
fn short_sum(place: usize, more: usize) -> Result<u32, AllocError>
    ensures { IfOk result (λ sum. sum ≡ place + more) }
{
    match place.checked_add(more) {
        Some(sum) => short(sum),
        None => Err(AllocError),
    }
}

// Whether the place behind the others is that of the id where no id is left out.
fn follows(slots: &[Slot], id: u64) -> bool
    ensures { IsTrue result ↔ (id ≡ first_or slots.now id + length slots.now) }
{
    match slots {
        [] => true,
        [first, ..] => first.id <= id && id - first.id == slots.len() as u64,
    }
}

// Keeps the place behind the others for the id, where it doesn't follow from the first id.
fn note(slots: &[Slot], places: &mut HashMap<u64, usize>, id: u64) -> Result<(), AllocError>
    ensures ok { OnOk result ((id ≡ first_or slots.now id + length slots.now) ⊎
        (get nat_eq places.new id ≡ Some (length slots.now))) }
    ensures others { (q : ℕ) → id ≢ q → get nat_eq places.new q ≡ get nat_eq places.old q }
    ensures err { OnErr result ((q : ℕ) → get nat_eq places.new q ≡ get nat_eq places.old q) }
{
    if follows(slots, id) {
        return Ok(());
    }
    places.insert(id, slots.len())?;
    Ok(())
}

// The place of the id where no id is left out.
fn direct_place(slots: &[Slot], id: u64) -> Option<usize>
    ensures { (k : ℕ) → id ≡ first_or slots.now id + k → result ≡ Some k }
{
    let first = match slots {
        [] => id,
        [first, ..] => first.id,
    };
    if first <= id {
        Some((id - first) as usize)
    } else {
        None
    }
}

fn find(slots: &[Slot], places: &HashMap<u64, usize>, id: u64) -> Option<usize>
    requires { AreFound slots.now places.now }
    ensures some { IfSome result (HoldsId slots.now id) }
    ensures none { IfNone result (LacksId slots.now id) }
{
    let direct = direct_place(slots, id);
    if has_at(slots, direct, id) {
        return direct;
    }
    let kept = places.get(&id).copied();
    if has_at(slots, kept, id) { kept } else { None }
}

fn has_at(slots: &[Slot], at: Option<usize>, id: u64) -> bool
    ensures { IsTrue result ↔ IsSomeAnd at (HoldsId slots.now id) }
{
    let Some(k) = at else {
        return false;
    };
    match slots.get(k) {
        Some(slot) => slot.start <= slot.end && slot.id == id,
        None => false,
    }
}
