ghost use Rattle.std.specs.Prelude.{◌≡◌, None, Ok, IfOk, length};
ghost use Rattle.qv_io.specs.Sink.{Writes};

use crate::sinks::Sink;
use crate::sources::Failed;

/// A sink that takes everything and keeps nothing. It tells no bytes and never fails.
#[derive(Clone, Copy, Debug, Default, PartialEq, Eq)]
pub struct NullSink;

impl NullSink {
    pub fn new() -> NullSink {
        NullSink
    }
}

impl Sink for NullSink {
    ghost held = { λ _. None };

    ghost faults = { λ _. 0 };

    fn write(&mut self, piece: &[u8]) -> Result<usize, Failed>
        ensures writes { IfOk result (λ n. Writes None None n piece.now) }
        ensures all { result ≡ Ok (length piece.now) }
    {
        Ok(piece.len())
    }
}
