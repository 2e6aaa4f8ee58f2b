//! A source over bytes that stay where they are.

ghost use Rattle.std.specs.Prelude.{◌≡◌, ◌≤◌, Ok, Some, IfOk, OnErr, length, min};
ghost use Rattle.qv_io.specs.Count.{Rose};
ghost use Rattle.qv_io.specs.Source.{Reads};

use qv_io::{Failed, Source};

/// A source over bytes in memory, which tells them and never fails.
#[derive(Clone, Copy)]
pub struct Held<'a> {
    /// The bytes that aren't told yet.
    pub left: &'a [u8],
}

impl<'a> Held<'a> {
    /// All bytes are left.
    pub fn new(bytes: &'a [u8]) -> Held<'a>
        ensures { result.left.now ≡ bytes.now }
    {
        Held { left: bytes }
    }
}

impl<'a> Source for Held<'a> {
    ghost left = { λ s. Some s.left.now };

    ghost faults = { λ _. 0 };

    ghost read_gives = { λ _ _ _ _. Unit {0} };

    fn read(&mut self, buf: &mut [u8]) -> Result<usize, Failed>
        ensures reads { IfOk result (λ n. Reads (Some self.old.left.now)
            (Some self.new.left.now) n buf.old buf.new) }
        ensures failed { OnErr result (Rose 0 0) }
        ensures count { 0 ≤ 0 }
        // It never does fail.
        ensures all { result ≡ Ok (min (length self.old.left.now) (length buf.old)) }
    {
        let n = self.left.len().min(buf.len());
        let (front, rest) = self.left.split_at(n);
        buf[..n].copy_from_slice(front);
        self.left = rest;
        Ok(n)
    }
}
