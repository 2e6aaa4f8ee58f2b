ghost use Rattle.std.specs.Prelude.{◌≡◌, ◌≤◌, ◌↔◌, length, min, take, drop, Some, IfOk, OnErr};
ghost use Rattle.std.specs.Prelude.{IsErr, is_ok, Contains, if◌then◌else◌};
ghost use Rattle.qv_io.specs.Count.{Rose, next_count};
ghost use Rattle.qv_io.specs.MemSource.{ReadGives};
ghost use Rattle.qv_io.specs.Source.{Reads, given};

use crate::sources::{Failed, Source};
use std::marker::Model;

/// A source over bytes in memory, which tells them. It gives them in pieces, and fails at the
/// calls that it is told to, counted from 1.
#[derive(Debug, Drop)]
pub struct MemSource {
    bytes: Vec<u8>,
    given: usize,
    piece: usize,
    failing: Vec<u64>,
    calls: u64,
    faults: u64,
}

impl Model for MemSource {
    ghost use Rattle.std.specs.Prelude.{◌≤◌, ◌<◌, drop, vec_len};
    ghost use Rattle.qv_io.specs.MemSource.{MemSourceState};

    ghost Value = { MemSourceState };

    ghost view = { λ s. record {
      left = drop s.given s.bytes.items;
      piece = s.piece;
      failing = s.failing.items;
      calls = s.calls;
      faults = s.faults;
    } };

    ghost invariant = { λ s. (s.given ≤ vec_len s.bytes) × (0 < s.piece) };
}

impl MemSource {
    /// Gives at most `piece` bytes a call, and fails at the calls whose numbers are in `failing`.
    pub fn new(bytes: Vec<u8>, piece: usize, failing: Vec<u64>) -> MemSource
        requires { 1 ≤ piece }
        ensures { result ≡ record {
          left = bytes.items;
          piece = piece;
          failing = failing.items;
          calls = 0;
          faults = 0;
        } }
    {
        MemSource {
            bytes,
            given: 0,
            piece,
            failing,
            calls: 0,
            faults: 0,
        }
    }

    /// The bytes that are left.
    pub fn left(&self) -> &[u8]
        ensures { result.now ≡ self.now.left }
    {
        &self.bytes[self.given..]
    }

    /// How many calls of `read` were made.
    pub fn calls(&self) -> u64
        ensures { result ≡ self.now.calls }
    {
        self.calls
    }

    /// How many of them failed.
    pub fn faults(&self) -> u64
        ensures { result ≡ self.now.faults }
    {
        self.faults
    }
}

impl Source for MemSource {
    ghost left = { λ s. Some s.left };

    ghost faults = { λ s. s.faults };

    ghost read_gives = { ReadGives };

    fn read(&mut self, buf: &mut [u8]) -> Result<usize, Failed>
        ensures reads { IfOk result
            (λ n. Reads (Some self.old.left) (Some self.new.left) n buf.old buf.new) }
        ensures failed { OnErr result (Rose self.old.faults self.new.faults) }
        ensures count { self.old.faults ≤ self.new.faults }
        ensures call { ReadGives self.old (length buf.old) (given result buf.new) self.new }

        // A call fails exactly where it is told to, and then takes nothing.
        ensures fails { IsErr result ↔ Contains self.old.failing (next_count self.old.calls) }
        ensures untouched { OnErr result ((self.new.left ≡ self.old.left) × (buf.new ≡ buf.old)) }
        // Otherwise it gives as much as the buffer, the piece and the bytes allow.
        ensures gives { IfOk result
            (λ n. n ≡ min (length buf.old) (min self.old.piece (length self.old.left))) }
        ensures state { self.new ≡ record self.old {
          left = self.new.left;
          calls = next_count self.old.calls;
          faults = if is_ok result then self.old.faults else next_count self.old.faults;
        } }
    {
        self.calls = self.calls.saturating_add(1);
        if self.failing.contains(&self.calls) {
            self.faults = self.faults.saturating_add(1);
            return Err(Failed);
        }
        let left = &self.bytes[self.given..];
        let n = left.len().min(self.piece).min(buf.len());
        buf[..n].copy_from_slice(&left[..n]);
        self.given += n;
        Ok(n)
    }
}
