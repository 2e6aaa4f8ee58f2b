//! The bytes of a piece that are still to be looked at.

ghost use Rattle.std.specs.Prelude.{◌≡◌, ◌≤◌, ◌<◌, [], length, drop, OnOk, OnErr};

use std::alloc::{AllocError, Global};
use std::marker::Model;

/// Bytes that are gone through from the front.
#[derive(Drop)]
pub(crate) struct Buffer {
    bytes: Vec<u8>,
    /// How many of them were passed.
    at: usize,
}

impl Model for Buffer {
    ghost use Rattle.std.specs.Prelude.{ℕ, List, ◌≤◌, drop, vec_len};

    ghost Value = { List ℕ };

    ghost view = { λ b. drop b.at b.bytes.items };

    ghost invariant = { λ b. b.at ≤ vec_len b.bytes };
}

impl Buffer {
    pub(crate) fn new(alloc: Global) -> Buffer
        ensures { result ≡ [] }
    {
        Buffer {
            bytes: Vec::new(alloc),
            at: 0,
        }
    }

    /// The bytes that weren't passed.
    pub(crate) fn as_slice(&self) -> &[u8]
        ensures { result.now ≡ self.now }
    {
        &self.bytes[self.at..]
    }

    /// Passes so many bytes.
    pub(crate) fn advance(&mut self, n: usize)
        requires { n ≤ length self.old }
        ensures { self.new ≡ drop n self.old }
    {
        self.at += n;
    }

    /// Puts these bytes in place of those that it had.
    pub(crate) fn refill(&mut self, bytes: &[u8]) -> Result<(), AllocError>
        ensures ok { OnOk result (self.new ≡ bytes.now) }
        ensures err { OnErr result (self.new ≡ []) }
    {
        self.at = 0;
        self.bytes.clear();
        self.bytes.extend_from_slice(bytes)
    }
}
