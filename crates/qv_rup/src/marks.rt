//! Sets of literals that are cleared in the time in which they were filled.

ghost use Rattle.std.specs.Prelude.{◌≡◌, ◌-◌, ◌==◌, ◌&&◌, ℕ, true, false, [], ◌∷◌, OnOk, OnErr};
ghost use Rattle.std.specs.Prelude.{if◌then◌else◌, length, drop};
ghost use Rattle.qv_cnf.specs.Literal.{index_of};
ghost use Rattle.qv_cnf.specs.Refutation.{among};
ghost use Rattle.qv_rup.specs.Marking.{mark_at};

use qv_cnf::Lit;
use std::alloc::{AllocError, Global};
use std::collections::HashSet;
use std::marker::Model;

// A literal of the set, and whether it wasn't in the set before.
#[derive(Clone, Copy, Debug)]
pub(crate) struct Marked {
    pub(crate) lit: Lit,
    pub(crate) fresh: bool,
}

/// A set of literals. The table has a mark for each literal of most variables; the few variables
/// whose numbers are large beside the number of literals seen have theirs among the others.
#[derive(Debug, Drop)]
pub(crate) struct Marks {
    table: Vec<bool>,
    others: HashSet<usize>,
    set: Vec<Marked>,
    seen: usize,
}

impl Model for Marks {
    ghost use Rattle.std.specs.Prelude.{List, reverse};
    ghost use Rattle.qv_cnf.specs.Literal.{Literal};

    ghost Value = { List Literal };

    ghost use Rattle.qv_rup.specs.Marking.{literals_of, AreFresh, AreMarked};

    ghost view = { λ a. literals_of (reverse a.set.items) };

    ghost invariant = { λ a. AreFresh (reverse a.set.items)
        × AreMarked a.table.items a.others (literals_of (reverse a.set.items)) };
}

impl Marks {
    pub(crate) fn new(alloc: Global) -> Self
        ensures { result ≡ [] }
    {
        Marks {
            table: Vec::new(alloc),
            others: HashSet::new(alloc),
            set: Vec::new(alloc),
            seen: 0,
        }
    }

    /// Makes the table longer for the literals' variables, as far as it stays within a multiple of
    /// the literals seen.
    pub(crate) fn make_room(&mut self, lits: &[Lit]) -> Result<(), AllocError>
        requires { self.old ≡ [] }
        ensures { self.new ≡ [] }
    {
        self.seen = self.seen.saturating_add(lits.len());
        let most = self.seen.saturating_mul(16).saturating_add(1024);
        let size = size_for(lits, most);
        grow(&mut self.table, &self.others, size)
    }

    pub(crate) fn has(&self, lit: Lit) -> bool
        ensures { result ≡ among self.now lit }
    {
        is_marked(&self.table, &self.others, lit.index())
    }

    pub(crate) fn insert(&mut self, lit: Lit) -> Result<(), AllocError>
        ensures ok { OnOk result (self.new ≡ lit ∷ self.old) }
        ensures err { OnErr result (self.new ≡ self.old) }
    {
        let fresh = !self.has(lit);
        self.set.reserve(1)?;
        mark(&mut self.table, &mut self.others, lit.index())?;
        self.set.push_reserved(Marked { lit, fresh });
        Ok(())
    }

    /// How many literals were inserted.
    pub(crate) fn len(&self) -> usize
        ensures { result ≡ length self.now }
    {
        self.set.len()
    }

    /// Takes the last literals away, so that this many are left.
    pub(crate) fn truncate(&mut self, left: usize)
        ensures { self.new ≡ drop (length self.old - left) self.old }
    {
        'cutting: while self.len() > left {
            self.pop();
        }
    }

    /// Takes every literal away.
    pub(crate) fn clear(&mut self)
        ensures { self.new ≡ [] }
    {
        self.truncate(0);
    }

    fn pop(&mut self)
        ensures { self.new ≡ drop 1 self.old }
    {
        if let Some(last) = self.set.pop() {
            take_back(&mut self.table, &mut self.others, last);
        }
    }
}

// A literal's place is no longer marked, where it wasn't before the literal came.
fn take_back(table: &mut Vec<bool>, others: &mut HashSet<usize>, last: Marked)
    ensures { (k : ℕ) → mark_at table.new.items others.new k ≡
        (if last.fresh && (index_of last.lit == k) then false
        else mark_at table.old.items others.old k) }
{
    if !last.fresh {
        return;
    }
    unmark(table, others, last.lit.index());
}

// How long the table is to be: past the literals' variables, but for those past the most.
fn size_for(lits: &[Lit], most: usize) -> usize {
    let mut size = 0;
    for lit in lits {
        let end = 2 * lit.variable() as usize + 2;
        if size < end && end <= most {
            size = end;
        }
    }
    size
}

fn grow(table: &mut Vec<bool>, others: &HashSet<usize>, size: usize) -> Result<(), AllocError>
    requires { (k : ℕ) → mark_at table.old.items others.now k ≡ false }
    ensures { (k : ℕ) → mark_at table.new.items others.now k ≡ false }
{
    if table.len() < size {
        table.resize(size, false)?;
    }
    Ok(())
}

fn is_marked(table: &[bool], others: &HashSet<usize>, at: usize) -> bool
    ensures { result ≡ mark_at table.now others.now at }
{
    match table.get(at) {
        Some(mark) => *mark,
        None => others.contains(&at),
    }
}

fn mark(table: &mut Vec<bool>, others: &mut HashSet<usize>, at: usize) -> Result<(), AllocError>
    ensures ok { OnOk result ((k : ℕ) → mark_at table.new.items others.new k ≡
        (if at == k then true else mark_at table.old.items others.old k)) }
    ensures err { OnErr result ((k : ℕ) → mark_at table.new.items others.new k ≡
        mark_at table.old.items others.old k) }
{
    if at < table.len() {
        table[at] = true;
    } else {
        others.insert(at)?;
    }
    Ok(())
}

fn unmark(table: &mut Vec<bool>, others: &mut HashSet<usize>, at: usize)
    ensures { (k : ℕ) → mark_at table.new.items others.new k ≡
        (if at == k then false else mark_at table.old.items others.old k) }
{
    if at < table.len() {
        table[at] = false;
    } else {
        let _had = others.remove(&at);
    }
}
