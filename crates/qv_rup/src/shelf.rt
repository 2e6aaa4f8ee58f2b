//! The live clauses of a checker.

ghost use Rattle.std.specs.Prelude.{◌≡◌, ◌≤◌, ◌+◌, ◌↔◌, [], ◌∷◌, ◌++◌, map, IsTrue, IfOk, OnOk};
ghost use Rattle.std.specs.Prelude.{◌<◌, OnErr, None, Some, length};
ghost use Rattle.std.specs.Option.{option_copied};
ghost use Rattle.qv_cnf.specs.Listing.{clause_named, without, IsListing, Listing, Rises};
ghost use Rattle.qv_rup.specs.Indexing.{IsIndex};
ghost use Rattle.qv_rup.specs.Shelving.{picked, IsGathered};

use super::index::Index;
use qv_cnf::{ClauseList, Lit};
use std::alloc::{AllocError, Global};
use std::marker::Model;

/// Clauses under rising ids. Where most of the memory is of clauses that were taken away, the
/// others are moved together, so it is used again.
#[derive(Debug, Drop)]
pub(crate) struct Shelf {
    alloc: Global,
    list: ClauseList,
    // The ids that the list was given.
    ids: Vec<u64>,
    // The greatest id that was given.
    last: Option<u64>,
    // How many words the clauses take, and how many of these are of clauses that were taken away.
    held: usize,
    dead: usize,
}

impl Model for Shelf {
    ghost use Rattle.qv_rup.specs.Shelving.{next_after, IsShelved, Shelved};

    ghost Value = { Shelved };

    ghost view = { λ a. record { live = a.list.live; next = next_after a.last } };

    ghost invariant = { λ a. IsShelved a.list a.ids.items (next_after a.last) };
}

impl Shelf {
    pub(crate) fn new(alloc: Global) -> Self
        ensures { result ≡ record { live = []; next = 0 } }
    {
        Shelf {
            alloc,
            list: ClauseList::new(alloc),
            ids: Vec::new(alloc),
            last: None,
            held: 0,
            dead: 0,
        }
    }

    /// The allocator.
    pub(crate) fn alloc(&self) -> Global {
        self.alloc
    }

    /// Whether the id is greater than every id given before.
    pub(crate) fn may_add(&self, id: u64) -> bool
        ensures may { IsTrue result ↔ (self.now.next ≤ id) }
        ensures rises { Rises 0 (map (λ c. c.id) self.now.live) }
    {
        let _listing = self.list.may_add(0);
        match self.last {
            None => true,
            Some(last) => last < id,
        }
    }

    /// Adds a clause.
    pub(crate) fn add(&mut self, id: u64, lits: &[Lit]) -> Result<(), AllocError>
        requires { self.old.next ≤ id }
        ensures ok { OnOk result (self.new ≡ record {
          live = self.old.live ++ record { id = id; lits = lits.now } ∷ [];
          next = id + 1;
        }) }
        ensures err { OnErr result (self.new ≡ self.old) }
    {
        self.ids.reserve(1)?;
        self.list.add(id, lits)?;
        self.ids.push_reserved(id);
        self.last = Some(id);
        self.held = self.held.saturating_add(size(lits));
        Ok(())
    }

    /// Takes the clause of that id away, if it is live.
    pub(crate) fn remove(&mut self, id: u64)
        ensures { self.new ≡ record self.old { live = without (id ∷ []) self.old.live } }
    {
        if let Some(lits) = self.list.get(id) {
            self.dead = self.dead.saturating_add(size(lits));
        }
        self.list.remove(id);
    }

    /// The clause of that id, if it is live.
    pub(crate) fn get(&self, id: u64) -> Option<&[Lit]>
        ensures { option_copied result ≡ clause_named id self.now.live }
    {
        self.list.get(id)
    }

    /// The ids that were given, but for some of clauses that were taken away.
    pub(crate) fn ids(&self) -> &[u64]
        ensures { picked result.now self.now.live ≡ self.now.live }
    {
        let _listing = self.list.may_add(0);
        &self.ids
    }

    /// An index of the live clauses.
    pub(crate) fn index(&self) -> Result<Index, AllocError>
        ensures { IfOk result (λ index. IsIndex index.lists.items self.now.live) }
    {
        let _listing = self.list.may_add(0);
        // Some lists for each clause: most problems have fewer literals.
        let size = self.held.saturating_sub(self.dead) / 16;
        let mut index = Index::new(self.alloc, size)?;
        file_all(&self.list, &self.ids, &mut index)?;
        Ok(index)
    }

    /// Moves the live clauses together where they take less than half of the memory, if there is
    /// memory for that, and says whether it did.
    pub(crate) fn tidy(&mut self) -> bool
        ensures { self.new ≡ self.old }
    {
        if self.dead <= self.held / 2 {
            return false;
        }
        let mut list = ClauseList::new(self.alloc);
        let mut ids = Vec::new(self.alloc);
        if let Ok(()) = gather(&self.list, &self.ids, &mut list, &mut ids) {
            self.list = list;
            self.ids = ids;
            self.held = self.held.saturating_sub(self.dead);
            self.dead = 0;
            true
        } else {
            false
        }
    }
}

// How many words a clause takes, beside its literals those of its id and its place.
fn size(lits: &[Lit]) -> usize {
    lits.len().saturating_add(8)
}

// Adds the live ones of the clauses of these ids to a list, and their ids to others.
fn gather(
    from: &ClauseList,
    ids: &[u64],
    list: &mut ClauseList,
    kept: &mut Vec<u64>,
) -> Result<(), AllocError>
    requires rises { Rises 0 ids.now }
    requires list { list.old ≡ record { live = []; given = [] } }
    requires kept { kept.old.items ≡ [] }
    ensures gathered { OnOk result (
        IsGathered (picked ids.now from.now.live) list.new kept.new.items) }
    ensures listing { IsListing from.now }
{
    let _listing = from.may_add(0);
    for id in ids {
        if let Some(lits) = from.get(*id) {
            list.add(*id, lits)?;
            kept.push(*id)?;
        }
    }
    Ok(())
}

// Puts the live ones of the clauses of these ids into an index.
fn file_all(from: &ClauseList, ids: &[u64], index: &mut Index) -> Result<(), AllocError>
    requires { 0 < length index.old.lists.items }
    ensures { OnOk result (
        IsIndex index.new.lists.items (picked ids.now from.now.live)) }
{
    'filing: for id in ids {
        if let Some(lits) = from.get(*id) {
            index.add(*id, lits)?;
        }
    }
    Ok(())
}
