//! Blocks of lists of literals.

ghost use Rattle.std.specs.Prelude.{◌≡◌, ◌≤◌, ◌<◌, List, [], ◌∷◌, ◌++◌, length, take, OnOk, OnErr};
ghost use Rattle.std.specs.Prelude.{IfOk};
ghost use Rattle.std.specs.Prelude.{Some, slice_get, slice_range};
ghost use Rattle.qv_cnf.specs.Spans.{lists_from, start_at, Packs};

use super::Lit;
use std::alloc::{AllocError, Global};
use std::marker::Model;

/// Lists of literals in one vector, one behind the other: each begins where the one before ends.
#[derive(Debug, Drop)]
pub(crate) struct Block {
    lits: Vec<Lit>,
    ends: Vec<usize>,
}

impl Model for Block {
    ghost use Rattle.std.specs.Prelude.{List};
    ghost use Rattle.qv_cnf.specs.Literal.{Literal};

    ghost Value = { List (List Literal) };

    ghost use Rattle.qv_cnf.specs.Spans.{lists_from, Packs};

    ghost view = { λ a. lists_from 0 a.lits.items a.ends.items };

    ghost invariant = { λ a. Packs 0 a.lits.items a.ends.items };
}

impl Block {
    /// No list.
    pub(crate) fn new(alloc: Global) -> Self
        ensures { result ≡ [] }
    {
        Block {
            lits: Vec::new(alloc),
            ends: Vec::new(alloc),
        }
    }

    /// No list, and room for as many lists and literals as another block has.
    pub(crate) fn with_room_of(alloc: Global, other: &Block) -> Result<Self, AllocError>
        ensures { IfOk result (λ block. block ≡ []) }
    {
        let mut block = Block::new(alloc);
        block.reserve(other.ends.len(), other.lits.len())?;
        Ok(block)
    }

    /// Makes room for so many more lists with so many literals in all.
    pub(crate) fn reserve(&mut self, lists: usize, lits: usize) -> Result<(), AllocError>
        ensures { self.new ≡ self.old }
    {
        self.ends.reserve(lists)?;
        self.lits.reserve(lits)
    }

    /// Gives back the memory that nothing stands in.
    pub(crate) fn shrink(&mut self)
        ensures { self.new ≡ self.old }
    {
        self.ends.shrink_to_fit();
        self.lits.shrink_to_fit();
    }

    /// Adds a list.
    pub(crate) fn push(&mut self, lits: &[Lit]) -> Result<(), AllocError>
        ensures ok { OnOk result (self.new ≡ self.old ++ lits.now ∷ []) }
        ensures err { OnErr result (self.new ≡ self.old) }
    {
        self.ends.reserve(1)?;
        self.lits.extend_from_slice(lits)?;
        let end = self.lits.len();
        self.ends.push_reserved(end);
        Ok(())
    }

    /// The list at this place.
    pub(crate) fn get(&self, at: usize) -> &[Lit]
        requires { at < length self.now }
        ensures { slice_get self.now at ≡ Some result.now }
    {
        list_at(&self.lits, &self.ends, at)
    }

    /// How many lists there are.
    pub(crate) fn len(&self) -> usize
        ensures { result ≡ length self.now }
    {
        self.ends.len()
    }

    /// Keeps the first n lists.
    pub(crate) fn truncate(&mut self, n: usize)
        ensures { self.new ≡ take n self.old }
    {
        if n < self.ends.len() {
            let start = start_at(&self.ends, n);
            self.lits.truncate(start);
            self.ends.truncate(n);
        }
    }
}

// The list at this place.
fn list_at<'a>(lits: &'a [Lit], ends: &[usize], at: usize) -> &'a [Lit]
    requires packs { Packs 0 lits.now ends.now }
    requires within { at < length ends.now }
    ensures { slice_get (lists_from 0 lits.now ends.now) at ≡ Some result.now }
{
    let start = start_at(ends, at);
    let end = ends[at];
    between(lits, start, end)
}

fn between(lits: &[Lit], start: usize, end: usize) -> &[Lit]
    requires up { start ≤ end }
    requires within { end ≤ length lits.now }
    ensures { result.now ≡ slice_range lits.now start end }
{
    &lits[start..end]
}

// Where the list at this place begins.
fn start_at(ends: &[usize], at: usize) -> usize
    requires { at ≤ length ends.now }
    ensures { result ≡ start_at ends.now at }
{
    if at == 0 { 0 } else { ends[at - 1] }
}
