//! Entries.

ghost use Rattle.std.specs.Prelude.{◌≡◌};
ghost use Rattle.qv_store.specs.Problems.{quantifier_of};
ghost use Rattle.qv_entries.specs.Rows.{is_row_of, row_of};

use qv_store::{Id, Quant};
use qv_words::Word;

/// A region over the places of the blocks before one, from each of whose points a player wins the
/// rest of the game.
#[derive(Debug, Drop)]
pub struct Entry {
    /// The number of the block that is played next, from 1.
    pub level: u64,
    pub winner: Quant,
    pub region: Id,
    /// A point of the region.
    pub point: Vec<Word>,
    /// Where the winner owns the block, a term for each of its places.
    pub terms: Vec<Id>,
    /// The numbers of the entries at the next level that this one rests on.
    pub links: Vec<u64>,
}

impl Entry {
    // Whether it is of this level and winner.
    pub(crate) fn is_of(&self, level: u64, winner: Quant) -> bool
        ensures { result ≡ is_row_of level (quantifier_of winner) (row_of self.now) }
    {
        self.level == level && self.winner == winner
    }
}
