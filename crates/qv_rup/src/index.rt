//! For each literal the clauses that hold it.

ghost use Rattle.std.specs.Prelude.{◌≡◌, ◌<◌, ◌↔◌, [], IsTrue, IfOk, OnOk, Contains, length};
ghost use Rattle.qv_cnf.specs.Listing.{Numbered};
ghost use Rattle.qv_rup.specs.Indexing.{ids_in, list_for, IsFiled};

use qv_cnf::Lit;
use std::alloc::{AllocError, Global};

/// The ids of clauses by their literals. Literals may share a list, and a list may have ids of
/// clauses that were taken away since. There is no list where the index isn't made yet.
#[derive(Debug, Drop)]
pub(crate) struct Index {
    pub(crate) lists: Vec<Vec<u64>>,
    // How many ids the lists have.
    filed: usize,
}

impl Index {
    /// An index that isn't made yet.
    pub(crate) fn none(alloc: Global) -> Index
        ensures { result.lists.items ≡ [] }
    {
        Index {
            lists: Vec::new(alloc),
            filed: 0,
        }
    }

    /// Empty lists, as many as this, and one at least.
    pub(crate) fn new(alloc: Global, size: usize) -> Result<Index, AllocError>
        ensures { IfOk result (λ index. 0 < length index.lists.items) }
    {
        let mut lists = Vec::new(alloc);
        fill(alloc, &mut lists, size)?;
        Ok(Index { lists, filed: 0 })
    }

    /// Whether it is made.
    pub(crate) fn is_made(&self) -> bool
        ensures { IsTrue result ↔ (0 < length self.now.lists.items) }
    {
        !self.lists.is_empty()
    }

    /// Whether it is made, and its lists are short for their number.
    pub(crate) fn is_ready(&self) -> bool
        ensures { IsTrue result → 0 < length self.now.lists.items }
    {
        self.is_made() && self.filed / 16 <= self.lists.len()
    }

    /// Gives it up.
    pub(crate) fn clear(&mut self)
        ensures { self.new.lists.items ≡ [] }
    {
        self.lists.clear();
        self.filed = 0;
    }

    /// Puts a clause into the lists of its literals, if the index is made.
    pub(crate) fn add(&mut self, id: u64, lits: &[Lit]) -> Result<(), AllocError>
        ensures size { length self.new.lists.items ≡ length self.old.lists.items }
        ensures stay { (c : Numbered) → IsFiled (ids_in self.old.lists.items) c
            → IsFiled (ids_in self.new.lists.items) c }
        ensures filed { OnOk result (0 < length self.old.lists.items
            → IsFiled (ids_in self.new.lists.items) (record { id = id; lits = lits.now })) }
    {
        if !self.is_made() {
            return Ok(());
        }
        self.filed = self.filed.saturating_add(lits.len());
        'filing: for lit in lits {
            file(&mut self.lists, id, *lit)?;
        }
        Ok(())
    }

    /// The list of a literal.
    pub(crate) fn ids(&self, lit: Lit) -> &[u64]
        requires { 0 < length self.now.lists.items }
        ensures { result.now ≡ list_for (ids_in self.now.lists.items) lit }
    {
        let place = lit.index();
        let at = place % self.lists.len();
        self.lists[at].as_slice()
    }
}

// Adds empty lists, as many as this, and one at least.
fn fill(alloc: Global, lists: &mut Vec<Vec<u64>>, size: usize) -> Result<(), AllocError>
    ensures { OnOk result (0 < length lists.new.items) }
{
    lists.push(Vec::new(alloc))?;
    'more: for _ in 1..size {
        lists.push(Vec::new(alloc))?;
    }
    Ok(())
}

// Puts an id into the list of a literal.
fn file(lists: &mut Vec<Vec<u64>>, id: u64, lit: Lit) -> Result<(), AllocError>
    requires { 0 < length lists.old.items }
    ensures size { length lists.new.items ≡ length lists.old.items }
    ensures stay { (c : Numbered) → IsFiled (ids_in lists.old.items) c
        → IsFiled (ids_in lists.new.items) c }
    ensures there { OnOk result (Contains (list_for (ids_in lists.new.items) lit) id) }
{
    let place = lit.index();
    let at = place % lists.len();
    lists[at].push(id)?;
    Ok(())
}
