//! What was written last of an output, and the fault that stands there.

use crate::claims::Verdict;
use std::alloc::Global;
use std::io::{self, Write};

// How many bytes are kept: the line of a fault is shorter.
const KEPT: usize = 128;

/// The last bytes that an output took, as far as memory sufficed.
#[derive(Drop)]
pub(crate) struct Tail {
    alloc: Global,
    bytes: Vec<u8>,
    answers: Vec<Verdict>,
    // One of them isn't there.
    is_short: bool,
}

impl Tail {
    // Nothing was written.
    fn new(alloc: Global) -> Tail {
        Tail {
            alloc,
            bytes: Vec::new(alloc),
            answers: Vec::new(alloc),
            is_short: false,
        }
    }

    // These bytes were written.
    fn note(&mut self, piece: &[u8]) {
        if self.bytes.len() >= KEPT {
            self.bytes = last(self.alloc, &self.bytes);
        }
        if self.bytes.extend_from_slice(end_of(piece)).is_err() {
            self.bytes.clear();
        }
        if let Ok(text) = str::from_utf8(piece) {
            self.note_answers(text);
        }
    }

    // The lines that a text begins with are answers.
    fn note_answers(&mut self, text: &str) {
        'lines: for line in text.lines() {
            let Some(answer) = Verdict::of(line) else {
                break;
            };
            self.is_short = self.is_short || self.answers.push(answer).is_err();
        }
    }

    /// The answers to the first checks, of which a piece of the output begins with one or more.
    pub(crate) fn answers(&self) -> &[Verdict] {
        if self.is_short { &[] } else { &self.answers }
    }

    /// How many checks have each answer, as far as memory sufficed.
    pub(crate) fn counts(&self) -> Option<Counts> {
        if self.is_short {
            None
        } else {
            Some(Counts::of(&self.answers))
        }
    }

    /// The place and the kind of the fault that the last line says, perhaps in a comment of DIMACS.
    pub(crate) fn fault(&self) -> Option<(u64, &str)> {
        let text = self.bytes.strip_suffix(b"\")\n")?;
        let start = match text.iter().rposition(|byte| *byte == b'\n') {
            Some(at) => at + 1,
            None => 0,
        };
        let line = str::from_utf8(&text[start..]).ok()?;
        let line = line.strip_prefix("c ").unwrap_or(line);
        let (place, kind) = line.strip_prefix("(error \"at ")?.split_once(": ")?;
        Some((place.parse::<u64>().ok()?, kind))
    }
}

/// How many checks have each answer.
#[derive(Clone, Copy)]
pub(crate) struct Counts {
    pub(crate) sat: u64,
    pub(crate) unsat: u64,
    pub(crate) unknown: u64,
}

impl Counts {
    /// Of these answers.
    fn of(answers: &[Verdict]) -> Counts {
        let mut counts = Counts {
            sat: 0,
            unsat: 0,
            unknown: 0,
        };
        for answer in answers {
            match answer {
                Verdict::Sat => counts.sat = counts.sat.saturating_add(1),
                Verdict::Unsat => counts.unsat = counts.unsat.saturating_add(1),
                Verdict::Unknown => counts.unknown = counts.unknown.saturating_add(1),
            }
        }
        counts
    }
}

// The last bytes of a piece.
fn end_of(piece: &[u8]) -> &[u8] {
    &piece[piece.len().saturating_sub(KEPT)..]
}

// A copy of the last bytes, or none without memory.
fn last(alloc: Global, bytes: &[u8]) -> Vec<u8> {
    match Vec::from_slice(alloc, end_of(bytes)) {
        Ok(last) => last,
        Err(_) => Vec::new(alloc),
    }
}

/// A writer with the tail of what it took.
#[derive(Drop)]
pub struct Tailed<W> {
    writer: W,
    tail: Tail,
}

/// What was opened, with the tail of what it takes.
pub fn with_tail<W>(alloc: Global, opened: io::Result<W>) -> io::Result<Tailed<W>> {
    match opened {
        Ok(writer) => Ok(Tailed {
            writer,
            tail: Tail::new(alloc),
        }),
        Err(why) => Err(why),
    }
}

impl<W> Tailed<W> {
    /// What it took last.
    pub(crate) fn tail(&self) -> &Tail {
        &self.tail
    }
}

impl<W: Write> Write for Tailed<W> {
    fn write(&mut self, piece: &[u8]) -> io::Result<usize> {
        let n = self.writer.write(piece)?;
        self.tail.note(&piece[..n]);
        Ok(n)
    }

    fn flush(&mut self) -> io::Result<()> {
        self.writer.flush()
    }
}
