//! A sink in memory that grows.

ghost use Rattle.std.specs.Prelude.{◌≡◌, ◌≤◌, ◌++◌, [], Some, IfOk, OnErr, OnOk, length};
ghost use Rattle.qv_io.specs.Count.{Rose};
ghost use Rattle.qv_io.specs.Sink.{Writes};

use qv_io::{Failed, Sink};
use std::alloc::Global;
use std::marker::Model;

/// A sink that keeps all that it is given, and tells it. A call takes its whole piece, and fails
/// where memory runs out.
#[derive(Drop)]
pub struct TextSink {
    bytes: Vec<u8>,
    faults: u64,
}

impl Model for TextSink {
    ghost use Rattle.qv_gen.specs.TextSink.{TextSinkState};

    ghost Value = { TextSinkState };

    ghost view = { λ s. record { held = s.bytes.items; faults = s.faults } };
}

impl TextSink {
    /// Nothing was given yet.
    pub fn new(alloc: Global) -> TextSink
        ensures { result ≡ record { held = []; faults = 0 } }
    {
        TextSink {
            bytes: Vec::new(alloc),
            faults: 0,
        }
    }

    /// What it was given.
    pub fn into_bytes(self) -> Vec<u8>
        ensures { result.items ≡ self.held }
    {
        self.bytes
    }
}

impl Sink for TextSink {
    ghost held = { λ s. Some s.held };

    ghost faults = { λ s. s.faults };

    fn write(&mut self, piece: &[u8]) -> Result<usize, Failed>
        ensures writes { IfOk result
            (λ n. Writes (Some self.old.held) (Some self.new.held) n piece.now) }
        ensures unchanged { OnErr result (self.new.held ≡ self.old.held) }
        ensures failed { OnErr result (Rose self.old.faults self.new.faults) }
        ensures count { self.old.faults ≤ self.new.faults }

        // It takes the whole piece, and counts no fault.
        ensures all { IfOk result (λ n. n ≡ length piece.now) }
        ensures well { OnOk result (self.new.faults ≡ self.old.faults) }
    {
        match self.bytes.extend_from_slice(piece) {
            Ok(()) => Ok(piece.len()),
            Err(_) => {
                self.faults = self.faults.saturating_add(1);
                Err(Failed)
            }
        }
    }
}
