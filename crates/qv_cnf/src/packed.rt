//! Lists of literals in blocks.

ghost use Rattle.std.specs.Prelude.{◌≡◌, ◌+◌, ◌<◌, ◌≤◌, ◌++◌, ◌∷◌, [], length, take, OnOk, OnErr};
ghost use Rattle.std.specs.Prelude.{Some, slice_get};
ghost use Rattle.qv_cnf.specs.Blocks.{lists_of, ArePacked};

use super::Lit;
use super::blocks::Block;
use std::alloc::{AllocError, Global};
use std::marker::Model;
use std::mem;

// How many lists a block has.
const BLOCK: usize = 1024;

// No memory holds as many blocks.
const MOST_BLOCKS: usize = 0x4_0000_0000_0000;

/// Lists of literals, one behind the other. What stands is never moved for want of room, but for
/// the lists of the last block, so that a list takes little more than its literals and one word.
#[derive(Debug, Drop)]
pub struct Packed {
    alloc: Global,
    full: Vec<Block>,
    last: Block,
}

impl Model for Packed {
    ghost use Rattle.std.specs.Prelude.{List, ◌++◌};
    ghost use Rattle.qv_cnf.specs.Literal.{Literal};

    ghost Value = { List (List Literal) };

    ghost use Rattle.qv_cnf.specs.Blocks.{lists_of, ArePacked};

    ghost view = { λ a. lists_of a.full.items ++ a.last };

    ghost invariant = { λ a. ArePacked a.full.items a.last };
}

impl Packed {
    /// No list.
    pub fn new(alloc: Global) -> Self
        ensures { result ≡ [] }
    {
        Packed {
            alloc,
            full: Vec::new(alloc),
            last: Block::new(alloc),
        }
    }

    /// Makes room for so many more lists with so many literals in all, as far as they go into the
    /// last block; those behind take a block at a time.
    pub fn reserve(&mut self, lists: usize, lits: usize) -> Result<(), AllocError>
        ensures { self.new ≡ self.old }
    {
        let room = BLOCK - self.last.len();
        if lists <= room {
            return self.last.reserve(lists, lits);
        }
        self.full.reserve(lists / BLOCK + 1)?;
        self.last.reserve(room, (lits / lists).saturating_mul(room))
    }

    /// Adds a list.
    pub fn push(&mut self, lits: &[Lit]) -> Result<(), AllocError>
        ensures ok { OnOk result (self.new ≡ self.old ++ lits.now ∷ []) }
        ensures err { OnErr result (self.new ≡ self.old) }
    {
        if self.last.len() == BLOCK {
            begin_block(self.alloc, &mut self.full, &mut self.last)?;
        }
        self.last.push(lits)
    }

    /// The list at this place.
    pub fn get(&self, at: usize) -> &[Lit]
        requires { at < length self.now }
        ensures { slice_get self.now at ≡ Some result.now }
    {
        let block = at / BLOCK;
        if block < self.full.len() {
            self.full[block].get(at % BLOCK)
        } else {
            self.last.get(at - self.full.len() * BLOCK)
        }
    }

    /// How many lists there are.
    pub fn len(&self) -> usize
        ensures { result ≡ length self.now }
    {
        self.full.len() * BLOCK + self.last.len()
    }

    /// Keeps the first n lists.
    pub fn truncate(&mut self, n: usize)
        ensures { self.new ≡ take n self.old }
    {
        let block = n / BLOCK;
        if block < self.full.len() {
            self.last = cut(&mut self.full, block);
            self.last.truncate(n % BLOCK);
        } else {
            self.last.truncate(n - self.full.len() * BLOCK);
        }
    }
}

// Takes the blocks from this place on away, and gives the first of them.
fn cut(full: &mut Vec<Block>, at: usize) -> Block
    requires { at < length full.old.items }
    ensures front { full.new.items ≡ take at full.old.items }
    ensures first { slice_get full.old.items at ≡ Some result }
{
    full.truncate(at + 1);
    full.pop().unwrap()
}

// Begins a new block behind one that is full.
fn begin_block(alloc: Global, full: &mut Vec<Block>, last: &mut Block) -> Result<(), AllocError>
    requires packed { ArePacked full.old.items last.old }
    requires full { length last.old ≡ 1024 }
    ensures packed { ArePacked full.new.items last.new }
    ensures lists { lists_of full.new.items ++ last.new ≡ lists_of full.old.items ++ last.old }
    ensures room { OnOk result (last.new ≡ []) }
{
    if full.len() >= MOST_BLOCKS {
        return Err(AllocError);
    }
    full.reserve(1)?;
    let next = Block::with_room_of(alloc, last)?;
    let mut block = mem::replace(last, next);
    block.shrink();
    full.push_reserved(block);
    Ok(())
}
