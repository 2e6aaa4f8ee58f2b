//! Clauses under rising ids.

ghost use Rattle.std.specs.Prelude.{◌≡◌, ◌≤◌, ◌+◌, ◌↔◌, [], ◌∷◌, IsTrue, OnOk, OnErr};
ghost use Rattle.std.specs.Option.{option_copied};

use super::Lit;
use super::numbering::Numbering;
use super::packed::Packed;
use std::alloc::{AllocError, Global};
use std::marker::Model;

/// Clauses under ids that rise, as in a list for a checker or a solver. A clause takes its literals
/// and little more than a word, and its id four words more where it isn't the one behind the id
/// before; a clause that was removed keeps its memory until the list is cut or dropped.
#[derive(Debug, Drop)]
pub struct ClauseList {
    ids: Numbering,
    flags: Vec<bool>,
    clauses: Packed,
}

impl Model for ClauseList {
    ghost use Rattle.std.specs.Prelude.{◌≡◌, length};
    ghost use Rattle.qv_cnf.specs.Listing.{Listing};

    ghost Value = { Listing };

    ghost use Rattle.qv_cnf.specs.Live.{live_of};

    ghost view = { λ a. record { live = live_of a.ids a.flags.items a.clauses; given = a.ids } };

    ghost invariant = { λ a. (length a.flags.items ≡ length a.ids)
        × (length a.clauses ≡ length a.ids) };
}

impl ClauseList {
    ghost use Rattle.qv_cnf.specs.Listing.{Listing, clause_named, next_id, with_clause, without};
    ghost use Rattle.qv_cnf.specs.Listing.{cut_at, IsListing, Extends};

    /// No clause, and no id given.
    pub fn new(alloc: Global) -> Self
        ensures { result ≡ record { live = []; given = [] } }
    {
        ClauseList {
            ids: Numbering::new(alloc),
            flags: Vec::new(alloc),
            clauses: Packed::new(alloc),
        }
    }

    /// Whether the id is greater than every id given before. Memory holds fewer than 2^61 ids: so
    /// those that are counted from 1 stay below 2^61, and those of 2^60 conflicts behind them below
    /// 2^62.
    pub fn may_add(&self, id: u64) -> bool
        ensures above { IsTrue result ↔ (next_id self.now.given ≤ id) }
        ensures listing { IsListing self.now }
    {
        self.ids.may_push(id)
    }

    /// Makes room for so many more clauses with so many literals in all.
    pub fn reserve(&mut self, clauses: usize, lits: usize) -> Result<(), AllocError>
        ensures { self.new ≡ self.old }
    {
        self.flags.reserve(clauses)?;
        self.clauses.reserve(clauses, lits)
    }

    /// Adds a clause.
    pub fn add(&mut self, id: u64, lits: &[Lit]) -> Result<(), AllocError>
        requires { next_id self.old.given ≤ id }
        ensures ok { OnOk result (self.new ≡ with_clause self.old id lits.now) }
        ensures next { OnOk result (next_id self.new.given ≡ id + 1) }
        ensures err { OnErr result (self.new ≡ self.old) }
    {
        self.flags.reserve(1)?;
        let count = self.flags.len();
        self.clauses.push(lits)?;
        if let Err(fault) = self.ids.push(id) {
            self.clauses.truncate(count);
            return Err(fault);
        }
        self.flags.push_reserved(true);
        Ok(())
    }

    /// Takes the clause of that id away, if it is live.
    pub fn remove(&mut self, id: u64)
        ensures { self.new ≡ record self.old { live = without (id ∷ []) self.old.live } }
    {
        if let Some(at) = self.ids.find(id) {
            self.flags[at] = false;
        }
    }

    /// Takes every clause away whose id is this one or more. The ids from this one on then count as
    /// never given.
    pub fn cut(&mut self, id: u64)
        ensures cut { self.new ≡ cut_at id self.old }

        // So what was added since is taken back.
        ensures back { (older : Listing) → IsListing older → Extends older self.old id →
            self.new ≡ older }
    {
        let count = self.ids.count_below(id);
        self.ids.truncate(count);
        self.flags.truncate(count);
        self.clauses.truncate(count);
    }

    /// The clause of that id, if it is live.
    pub fn get(&self, id: u64) -> Option<&[Lit]>
        ensures { option_copied result ≡ clause_named id self.now.live }
    {
        let at = self.ids.find(id)?;
        if self.flags[at] {
            Some(self.clauses.get(at))
        } else {
            None
        }
    }
}
