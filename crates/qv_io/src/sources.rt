ghost use Rattle.std.specs.Prelude.{ℕ, ◌≤◌, List, Option, IfOk, OnErr, length};
ghost use Rattle.qv_io.specs.Count.{Rose};
ghost use Rattle.qv_io.specs.Source.{Reads, TellsAsBefore, given};

/// A call of a source or a sink failed. Its count of faults rose.
#[derive(Clone, Copy, Debug, PartialEq, Eq)]
pub struct Failed;

/// Bytes that come in pieces, from a file, from memory or from elsewhere.
pub trait Source {
    /// The bytes that are left, where the source tells them.
    ghost left: { Self → Option (List ℕ) };

    /// How many calls failed so far.
    ghost faults: { Self → ℕ };

    /// What one call of `read` makes of the source: the source before it, how many bytes the
    /// buffer takes, the bytes that it gave, or `None` where it failed, and the source after it.
    ghost read_gives: { Self → ℕ → Option (List ℕ) → Self → Type 0 };

    /// Takes the next bytes into the front of `buf`, and answers how many. After `Failed` the
    /// bytes in `buf` and those that are left may be any, but they are told as before.
    fn read(&mut self, buf: &mut [u8]) -> Result<usize, Failed>
        ensures reads { IfOk result (λ n. Reads (left self.old) (left self.new) n buf.old buf.new) }
        ensures telling { TellsAsBefore (left self.old) (left self.new) }
        ensures failed { OnErr result (Rose (faults self.old) (faults self.new)) }
        ensures count { faults self.old ≤ faults self.new }
        ensures call { read_gives self.old (length buf.old) (given result buf.new) self.new };
}

/// How many bytes a reader asks a source for at a time.
pub const PIECE: usize = 4096;

/// A reader that has taken this many bytes of one source takes no more of it, so that every place
/// in what it took lies below 2^62.
pub const LIMIT: usize = (1 << 62) - PIECE;
