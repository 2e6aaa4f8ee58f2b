//! Lists of entries.

ghost use Rattle.std.specs.Prelude.{◌≡◌, ◌<◌, [], ◌∷◌, ◌++◌, All, IfOk, OnErr, OnOk, Some, length};
ghost use Rattle.std.specs.Prelude.{slice_get};
ghost use Rattle.qv_words.specs.Word.{values_of};
ghost use Rattle.qv_words.specs.Linked.{IsLinked};
ghost use Rattle.qv_store.specs.Problems.{problem_in, quantifier_of};
ghost use Rattle.qv_entries.specs.Rows.{entries_in, regions_of, row_of, IsRowIn};
ghost use Rattle.qv_entries.specs.Holding.{HoldsAt, IsAskable, IsFirstWith};

use crate::entry::Entry;
use crate::holding::first_holding;
use crate::table::Table;
use qv_store::{Id, NoMemory, Problem, Quant, Store};
use qv_words::Word;
use std::alloc::Global;
use std::marker::Model;

/// Entries of a game, numbered from 0 in the order in which they came.
#[derive(Drop)]
pub struct Entries {
    list: Vec<Entry>,
    alloc: Global,
}

impl Model for Entries {
    ghost use Rattle.std.specs.Prelude.{List, map};
    ghost use Rattle.qv_entries.specs.Rows.{Row, row_of};

    ghost Value = { List Row };

    ghost use Rattle.std.specs.Coded.{codes};

    ghost coded = { Prim.hlevel codes };

    ghost view = { λ a. map row_of a.list.items };
}

impl Entries {
    /// No entries.
    pub fn new(alloc: Global) -> Entries
        ensures { result ≡ [] }
    {
        Entries {
            list: Vec::new(alloc),
            alloc,
        }
    }

    /// Puts an entry behind the others, where the list is linked with it for this problem, and
    /// answers its number.
    pub fn add(&mut self, _store: &Store, _problem: &Problem, entry: Entry) -> Result<u64, NoMemory>
        requires terms { IsRowIn _store.now (row_of entry) }
        requires linked { IsLinked (problem_in _store.now _problem.now)
            (entries_in _store.now (self.old ++ row_of entry ∷ [])) }
        ensures number { IfOk result (λ number. number ≡ length self.old) }
        ensures ok { OnOk result (self.new ≡ self.old ++ row_of entry ∷ []) }
        ensures err { OnErr result (self.new ≡ self.old) }
        ensures linked { OnOk result (IsLinked (problem_in _store.now _problem.now)
            (entries_in _store.now self.new)) }
    {
        let number = self.list.len() as u64;
        self.list.push(entry)?;
        Ok(number)
    }

    /// The entry of a number.
    pub fn entry(&self, number: u64) -> &Entry
        requires { number < length self.now }
        ensures { slice_get self.now number ≡ Some (row_of result.now) }
    {
        &self.list[number as usize]
    }

    /// How many entries it has.
    pub fn len(&self) -> u64
        ensures { result ≡ length self.now }
    {
        self.list.len() as u64
    }

    /// The regions of a level and a winner, in order of entry.
    pub fn cover(&self, level: u64, winner: Quant) -> Result<Vec<Id>, NoMemory>
        ensures { IfOk result (λ ids.
            ids.items ≡ regions_of level (quantifier_of winner) self.now) }
    {
        let mut regions = Vec::new(self.alloc);
        'entries: for entry in &self.list {
            if entry.is_of(level, winner) {
                regions.push(entry.region)?;
            }
        }
        Ok(regions)
    }

    /// The number of the first entry of a level and a winner whose region holds the point.
    pub fn holds_at(
        &self,
        store: &Store,
        level: u64,
        winner: Quant,
        point: &[Word],
    ) -> Result<Option<u64>, NoMemory>
        requires { All (IsAskable store.now point.now)
            (regions_of level (quantifier_of winner) self.now) }
        ensures { IfOk result (IsFirstWith
            (HoldsAt level (quantifier_of winner) (values_of point.now))
            (entries_in store.now self.now)) }
    {
        let mut table = Table::new(self.alloc);
        first_holding(&self.list, store, level, winner, point, &mut table)
    }
}
