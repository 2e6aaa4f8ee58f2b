//! The next level of each block of a form whose matrix is built.

ghost use Rattle.std.specs.Prelude.{◌≡◌, ◌<◌, ℕ, IfOk, OnOk, length, slice_index_or};
ghost use Rattle.qv_prenex_laws.specs.MatrixLaws.{raised};
ghost use Rattle.qv_prenex_matrix.specs.NextLevels.{next_of};

use qv_store::NoMemory;
use std::alloc::AllocError;

/// The level of the next variable of each block.
#[derive(Drop)]
pub struct Levels {
    /// Those of the blocks that have variables.
    pub next: Vec<u64>,
    /// That of each block behind them.
    pub total: u64,
}

impl Levels {
    // The level of the next variable of a block, which is taken. Levels run out only where no
    // memory would hold so many variables.
    pub(crate) fn take(&mut self, block: usize) -> Result<u64, NoMemory>
        ensures level { IfOk result (λ level. level
            ≡ next_of self.old.next.items self.old.total block) }
        ensures raised { OnOk result ((k : ℕ) → next_of self.new.next.items self.new.total k
            ≡ raised (next_of self.old.next.items self.old.total) block 1 k) }
    {
        reach(&mut self.next, self.total, block)?;
        let level = self.next[block];
        self.next[block] = level.checked_add(1).ok_or(AllocError)?;
        Ok(level)
    }
}

// Makes the list so long that it has this block.
fn reach(next: &mut Vec<u64>, total: u64, block: usize) -> Result<(), NoMemory>
    ensures same { OnOk result ((k : ℕ) → slice_index_or next.new.items k total
        ≡ slice_index_or next.old.items k total) }
    ensures reached { OnOk result (block < length next.new.items) }
{
    'grow: while next.len() <= block {
        next.push(total)?;
    }
    Ok(())
}
