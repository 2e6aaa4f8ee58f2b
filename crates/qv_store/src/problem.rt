//! Prenex problems over the terms of a store.

ghost use Rattle.std.specs.Prelude.{◌≡◌, ◌<◌, ◌≤◌, ◌^◌, IfOk, map, length, vec_len};
ghost use Rattle.qv_words.specs.Linked.{blocks_of};
ghost use Rattle.qv_store.specs.Problems.{place_of, places_of, IsInBlock};

use crate::id::Id;
use crate::store::NoMemory;
use qv_words::Sort;

/// A quantifier, and the player who has it.
#[derive(Clone, Copy, Debug, PartialEq, Eq, Hash)]
pub enum Quant {
    Exists,
    Forall,
}

/// A place of a prefix: the variable whose level is the place's number, from 0.
#[derive(Clone, Copy, Debug, PartialEq, Eq, Hash)]
pub struct Place {
    pub quant: Quant,
    pub sort: Sort,
}

/// A prefix of places, and a matrix over them without other quantifiers. The first places are those
/// of constants.
#[derive(Debug, Drop)]
pub struct Problem {
    pub prefix: Vec<Place>,
    /// The indices of the constants of the first places.
    pub constants: Vec<u64>,
    pub matrix: Id,
}

impl Problem {
    /// How many blocks the prefix has: its maximal runs of one quantifier.
    pub fn block_count(&self) -> u64
        ensures count { result ≡ length (blocks_of (places_of self.now)) }
        ensures few { result < 2 ^ 63 }
    {
        count_blocks(&self.prefix)
    }

    /// The number of the block in which a place stands, from 1.
    pub fn block_of(&self, place: u64) -> u64
        requires { place < vec_len self.now.prefix }
        ensures { IsInBlock (places_of self.now) place result }
    {
        count_blocks(&self.prefix[..place as usize + 1])
    }

    /// A problem of its own that is the same.
    pub fn copy(&self) -> Result<Problem, NoMemory>
        ensures prefix { IfOk result (λ copied. copied.prefix.items ≡ self.now.prefix.items) }
        ensures constants { IfOk result (λ copied.
            copied.constants.items ≡ self.now.constants.items) }
        ensures matrix { IfOk result (λ copied. copied.matrix ≡ self.now.matrix) }
    {
        let alloc = *self.prefix.allocator();
        Ok(Problem {
            prefix: Vec::from_slice(alloc, &self.prefix)?,
            constants: Vec::from_slice(alloc, &self.constants)?,
            matrix: self.matrix,
        })
    }
}

// How many runs of one quantifier the places have.
fn count_blocks(prefix: &[Place]) -> u64
    ensures count { result ≡ length (blocks_of (map place_of prefix.now)) }
    ensures few { result ≤ length prefix.now }
{
    let mut count = 0;
    let mut before = None;
    'places: for place in prefix {
        if before != Some(place.quant) {
            count += 1;
        }
        before = Some(place.quant);
    }
    count
}
