ghost use Rattle.std.specs.Prelude.{◌≡◌, ◌-◌, ◌<◌, ◌≤◌, ◌↔◌, ◌+◌, ◌++◌, [], length, min, take};
ghost use Rattle.std.specs.Prelude.{Some, IfOk, OnErr, IsErr, IsTrue, is_ok, vec_len, vec_capacity};
ghost use Rattle.std.specs.Prelude.{if◌then◌else◌};
ghost use Rattle.qv_io.specs.Count.{Rose, next_count};
ghost use Rattle.qv_io.specs.MemSink.{HasNoRoomFor, Refuses};
ghost use Rattle.qv_io.specs.Sink.{Writes};

use crate::NoMemory;
use crate::sinks::Sink;
use crate::sources::Failed;
use std::alloc::Global;
use std::marker::Model;

/// A sink that keeps bytes in memory, and tells them. It takes them in pieces, has room for so
/// many, and fails at the calls that it is told to, counted from 1.
#[derive(Debug, Drop)]
pub struct MemSink {
    bytes: Vec<u8>,
    room: usize,
    piece: usize,
    failing: Vec<u64>,
    calls: u64,
    faults: u64,
}

impl Model for MemSink {
    ghost use Rattle.std.specs.Prelude.{◌≤◌, ◌<◌, vec_len, vec_capacity};
    ghost use Rattle.qv_io.specs.MemSink.{MemSinkState};

    ghost Value = { MemSinkState };

    ghost view = { λ s. record {
      held = s.bytes.items;
      room = s.room;
      piece = s.piece;
      failing = s.failing.items;
      calls = s.calls;
      faults = s.faults;
    } };

    ghost invariant = { λ s. (vec_len s.bytes ≤ s.room) × (s.room ≤ vec_capacity s.bytes)
        × (0 < s.piece) };
}

impl MemSink {
    /// Takes at most `piece` bytes a call and `room` in all, and fails at the calls whose numbers
    /// are in `failing`. The memory is taken here, and none later.
    pub fn new(
        alloc: Global,
        room: usize,
        piece: usize,
        failing: Vec<u64>,
    ) -> Result<MemSink, NoMemory>
        requires { 1 ≤ piece }
        ensures { IfOk result
            (λ sink. sink
            ≡ record {
              held = [];
              room = room;
              piece = piece;
              failing = failing.items;
              calls = 0;
              faults = 0;
            }) }
    {
        Ok(MemSink {
            bytes: Vec::with_capacity(alloc, room)?,
            room,
            piece,
            failing,
            calls: 0,
            faults: 0,
        })
    }

    /// The bytes that it holds.
    pub fn bytes(&self) -> &[u8]
        ensures { result.now ≡ self.now.held }
    {
        &self.bytes
    }

    /// How many calls of `write` were made.
    pub fn calls(&self) -> u64
        ensures { result ≡ self.now.calls }
    {
        self.calls
    }

    /// How many of them failed.
    pub fn faults(&self) -> u64
        ensures { result ≡ self.now.faults }
    {
        self.faults
    }

    fn has_no_room_for(&self, piece: &[u8]) -> bool
        ensures { IsTrue result ↔ HasNoRoomFor self.now piece.now }
    {
        self.bytes.len() == self.room && !piece.is_empty()
    }
}

impl Sink for MemSink {
    ghost held = { λ s. Some s.held };

    ghost faults = { λ s. s.faults };

    fn write(&mut self, piece: &[u8]) -> Result<usize, Failed>
        ensures writes { IfOk result
            (λ n. Writes (Some self.old.held) (Some self.new.held) n piece.now) }
        ensures unchanged { OnErr result (self.new.held ≡ self.old.held) }
        ensures failed { OnErr result (Rose self.old.faults self.new.faults) }
        ensures count { self.old.faults ≤ self.new.faults }

        // A call fails exactly where it is told to, or finds no room.
        ensures fails { IsErr result ↔ Refuses self.old piece.now }
        // Otherwise it takes as much as the call, the piece and the room allow.
        ensures takes { IfOk result (λ n. n ≡ min (length piece.now)
            (min self.old.piece (self.old.room - length self.old.held))) }
        ensures state { self.new ≡ record self.old {
          held = self.new.held;
          calls = next_count self.old.calls;
          faults = if is_ok result then self.old.faults else next_count self.old.faults;
        } }
    {
        self.calls = self.calls.saturating_add(1);
        if self.failing.contains(&self.calls) || self.has_no_room_for(piece) {
            self.faults = self.faults.saturating_add(1);
            return Err(Failed);
        }
        let n = piece
            .len()
            .min(self.piece)
            .min(self.room - self.bytes.len());
        append_reserved(&mut self.bytes, &piece[..n]);
        Ok(n)
    }
}

// Appends bytes for which there is room already.
fn append_reserved(bytes: &mut Vec<u8>, more: &[u8])
    requires { vec_len bytes.old + length more.now ≤ vec_capacity bytes.old }
    ensures items { bytes.new.items ≡ bytes.old.items ++ more.now }
    ensures capacity { vec_capacity bytes.new ≡ vec_capacity bytes.old }
{
    for byte in more {
        bytes.push_reserved(*byte);
    }
}
