ghost use Rattle.std.specs.Prelude.{◌≡◌, ℕ, ◌≤◌, List, Option, IfOk, OnOk, OnErr};
ghost use Rattle.qv_io.specs.Count.{Rose};
ghost use Rattle.qv_io.specs.Sink.{Appends, AppendsPart, Writes};

use crate::sources::Failed;

/// Takes bytes in pieces, into a file, into memory or elsewhere.
pub trait Sink {
    /// The bytes that the sink holds, where it tells them.
    ghost held: { Self → Option (List ℕ) };

    /// How many calls failed so far.
    ghost faults: { Self → ℕ };

    /// Takes the first bytes of `piece`, and answers how many.
    fn write(&mut self, piece: &[u8]) -> Result<usize, Failed>
        ensures writes { IfOk result (λ n. Writes (held self.old) (held self.new) n piece.now) }
        ensures unchanged { OnErr result (held self.new ≡ held self.old) }
        ensures failed { OnErr result (Rose (faults self.old) (faults self.new)) }
        ensures count { faults self.old ≤ faults self.new };
}

/// Writes a whole piece, in as many calls as the sink wants. Takes no memory.
pub fn put_all<O: Sink>(sink: &mut O, piece: &[u8]) -> Result<(), Failed>
    ensures ok { OnOk result (Appends (O.held sink.old) (O.held sink.new) piece.now) }
    ensures part { OnErr result (AppendsPart (O.held sink.old) (O.held sink.new) piece.now) }
    ensures failed { OnErr result (Rose (O.faults sink.old) (O.faults sink.new)) }
    ensures count { O.faults sink.old ≤ O.faults sink.new }
{
    let mut done = 0;
    while done < piece.len() {
        done += sink.write(&piece[done..])?;
    }
    Ok(())
}
