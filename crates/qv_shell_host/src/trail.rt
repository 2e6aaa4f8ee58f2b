//! What was read of a script last, and where lines begin in it.

use crate::claims::Claims;
use std::alloc::Global;
use std::io::{self, Read};
use std::mem;

// How many bytes are kept at least, where so many were read.
const KEPT: usize = 1 << 21;

// How many bytes of a word are shown at most.
const SHOWN: u64 = 64;

// How far bytes go: how many they are, how many lines end in them, and where the last one begins
// that doesn't.
#[derive(Clone, Copy)]
struct Passed {
    bytes: u64,
    lines: u64,
    line_start: u64,
}

impl Passed {
    // Goes on behind these bytes.
    fn pass(&mut self, bytes: &[u8]) {
        for byte in bytes {
            self.bytes = self.bytes.saturating_add(1);
            if *byte == b'\n' {
                self.lines = self.lines.saturating_add(1);
                self.line_start = self.bytes;
            }
        }
    }
}

/// The last bytes of a script that were read, as far as memory sufficed, in two parts, and how far
/// those before them go.
#[derive(Drop)]
pub(crate) struct Trail {
    passed: Passed,
    older: Vec<u8>,
    newer: Vec<u8>,
    claims: Claims,
}

impl Trail {
    // Nothing was read.
    fn new(alloc: Global) -> Trail {
        Trail {
            passed: Passed {
                bytes: 0,
                lines: 0,
                line_start: 0,
            },
            older: Vec::new(alloc),
            newer: Vec::new(alloc),
            claims: Claims::new(alloc),
        }
    }

    // These bytes were read.
    fn note(&mut self, piece: &[u8]) {
        if self.newer.len() >= KEPT {
            self.turn();
        }
        if self.newer.extend_from_slice(piece).is_err() {
            // Without memory nothing is kept.
            self.leave();
            self.passed.pass(piece);
            self.claims.pass(piece);
        }
    }

    // The newer bytes become the older ones, which are left behind.
    fn turn(&mut self) {
        self.passed.pass(&self.older);
        self.claims.pass(&self.older);
        self.older.clear();
        mem::swap(&mut self.older, &mut self.newer);
    }

    // All bytes are left behind.
    fn leave(&mut self) {
        self.turn();
        self.turn();
    }

    /// What all that was read claims: behind this nothing of it is kept.
    pub(crate) fn claims(&mut self) -> &Claims {
        self.leave();
        &self.claims
    }

    /// The line and the column of a place, from 1, where it stands in the bytes that are kept.
    pub(crate) fn line_and_column(&self, place: u64) -> Option<(u64, u64)> {
        let mut passed = self.passed;
        let older = front(&self.older, place.checked_sub(passed.bytes)?);
        passed.pass(older);
        let newer = front(&self.newer, place.checked_sub(passed.bytes)?);
        passed.pass(newer);
        if passed.bytes != place {
            return None;
        }
        let column = place.saturating_sub(passed.line_start);
        Some((passed.lines.saturating_add(1), column.saturating_add(1)))
    }

    /// The word at a place, as far as it is shown; where a parenthesis opens there, the first word
    /// behind it.
    pub(crate) fn word(&self, alloc: Global, place: u64) -> Option<String> {
        let older = self.older.len() as u64;
        let behind = place.checked_sub(self.passed.bytes)?;
        let mut bytes = Vec::new(alloc);
        let first = front(rest(&self.older, behind), SHOWN);
        bytes.extend_from_slice(first).ok()?;
        let more = SHOWN.saturating_sub(first.len() as u64);
        let second = front(rest(&self.newer, behind.saturating_sub(older)), more);
        bytes.extend_from_slice(second).ok()?;
        let word = word_in(&bytes);
        if word.is_empty() || word.iter().any(|byte| is_control(*byte)) {
            return None;
        }
        String::from_str(alloc, str::from_utf8(word).ok()?).ok()
    }
}

// So many bytes, or all.
fn front(bytes: &[u8], count: u64) -> &[u8] {
    &bytes[..count.min(bytes.len() as u64) as usize]
}

// Those behind so many, or none.
fn rest(bytes: &[u8], count: u64) -> &[u8] {
    &bytes[count.min(bytes.len() as u64) as usize..]
}

// The word at the front of bytes, or the first behind the parentheses that open there.
fn word_in(bytes: &[u8]) -> &[u8] {
    let opened = bytes.iter().position(|byte| *byte != b'(');
    let bytes = &bytes[opened.unwrap_or(bytes.len())..];
    match bytes {
        [b'|', quoted @ ..] => match quoted.iter().position(|byte| *byte == b'|') {
            Some(end) => &bytes[..end + 2],
            None => bytes,
        },
        _ => {
            let end = bytes.iter().position(|byte| is_word_end(*byte));
            &bytes[..end.unwrap_or(bytes.len())]
        }
    }
}

// No byte of a word without bars.
fn is_word_end(byte: u8) -> bool {
    byte <= b' ' || byte >= 127 || matches!(byte, b'(' | b')' | b';' | b'"' | b'|')
}

// No byte that a line shows.
fn is_control(byte: u8) -> bool {
    byte < b' ' || byte == 127
}

/// A reader with the trail of what is read of it.
#[derive(Drop)]
pub struct Traced<R> {
    reader: R,
    trail: Trail,
}

/// What was opened, with the trail of what is read of it.
pub fn with_trail<R>(alloc: Global, opened: io::Result<R>) -> io::Result<Traced<R>> {
    match opened {
        Ok(reader) => Ok(Traced {
            reader,
            trail: Trail::new(alloc),
        }),
        Err(why) => Err(why),
    }
}

impl<R> Traced<R> {
    /// What was read of it.
    pub(crate) fn trail(&self) -> &Trail {
        &self.trail
    }

    /// What all that was read claims: behind this the trail is empty.
    pub(crate) fn claims(&mut self) -> &Claims {
        self.trail.claims()
    }
}

impl<R: Read> Read for Traced<R> {
    fn read(&mut self, buf: &mut [u8]) -> io::Result<usize> {
        let n = self.reader.read(buf)?;
        self.trail.note(&buf[..n]);
        Ok(n)
    }
}
