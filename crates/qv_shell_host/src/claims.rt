//! What a script claims of its answers, by `(set-info :status ..)`.

use std::alloc::Global;

/// What a check comes to.
#[derive(Clone, Copy, PartialEq, Eq)]
pub(crate) enum Verdict {
    Sat,
    Unsat,
    Unknown,
}

impl Verdict {
    /// The verdict of this name.
    pub(crate) fn of(name: &str) -> Option<Verdict> {
        match name {
            "sat" => Some(Verdict::Sat),
            "unsat" => Some(Verdict::Unsat),
            "unknown" => Some(Verdict::Unknown),
            _ => None,
        }
    }

    /// Its name.
    pub(crate) fn name(self) -> &'static str {
        match self {
            Verdict::Sat => "sat",
            Verdict::Unsat => "unsat",
            Verdict::Unknown => "unknown",
        }
    }

    /// Whether the other one can't be true beside it.
    pub(crate) fn contradicts(self, other: Verdict) -> bool {
        self != other && self != Verdict::Unknown && other != Verdict::Unknown
    }
}

// What stands around a byte.
#[derive(Clone, Copy)]
enum Place {
    Plain,
    Comment,
    Text,
    Bars,
}

// What a command is, by its first words.
#[derive(Clone, Copy, PartialEq, Eq)]
enum Kind {
    Unknown,
    Check,
    Info,
    Status,
    Other,
}

// How many bytes of a word are looked at.
const LOOKED_AT: usize = 20;

/// The checks of a script, as far as it was read, of which it claims something.
#[derive(Drop)]
pub(crate) struct Claims {
    place: Place,
    depth: u64,
    kind: Kind,
    word: [u8; LOOKED_AT],
    length: usize,
    claimed: Option<Verdict>,
    checks: u64,
    claims: Vec<(u64, Verdict)>,
}

impl Claims {
    /// Nothing was read.
    pub(crate) fn new(alloc: Global) -> Claims {
        Claims {
            place: Place::Plain,
            depth: 0,
            kind: Kind::Unknown,
            word: [0; LOOKED_AT],
            length: 0,
            claimed: None,
            checks: 0,
            claims: Vec::new(alloc),
        }
    }

    /// These bytes were read.
    pub(crate) fn pass(&mut self, bytes: &[u8]) {
        for byte in bytes {
            self.read(*byte);
        }
    }

    fn read(&mut self, byte: u8) {
        match self.place {
            Place::Plain => self.read_plain(byte),
            Place::Comment if byte == b'\n' => self.place = Place::Plain,
            Place::Text if byte == b'"' => self.place = Place::Plain,
            Place::Bars if byte == b'|' => self.place = Place::Plain,
            _ => {}
        }
    }

    fn read_plain(&mut self, byte: u8) {
        match byte {
            b'(' => self.open(),
            b')' => self.close(),
            b';' => self.end_word(Place::Comment),
            b'"' => self.end_word(Place::Text),
            b'|' => self.end_word(Place::Bars),
            b' ' | b'\n' | b'\t' | b'\r' => self.end_word(Place::Plain),
            _ => {
                if self.length < LOOKED_AT {
                    self.word[self.length] = byte;
                    self.length += 1;
                }
            }
        }
    }

    fn open(&mut self) {
        self.end_word(Place::Plain);
        if self.depth == 0 {
            self.kind = Kind::Unknown;
        }
        self.depth = self.depth.saturating_add(1);
    }

    fn close(&mut self) {
        self.end_word(Place::Plain);
        self.depth = self.depth.saturating_sub(1);
        if self.depth == 0 && self.kind == Kind::Check {
            if let Some(verdict) = self.claimed {
                // A claim for which there is no memory isn't looked at.
                let _ = self.claims.push((self.checks, verdict));
            }
            self.claimed = None;
            self.checks = self.checks.saturating_add(1);
        }
    }

    // A word ends, if there is one, and this is around what follows.
    fn end_word(&mut self, place: Place) {
        self.place = place;
        if self.length > 0 && self.depth == 1 {
            self.take_word();
        }
        self.length = 0;
    }

    // One of a command's words is known.
    fn take_word(&mut self) {
        let bytes = &self.word[..self.length.min(LOOKED_AT)];
        let word = str::from_utf8(bytes).unwrap_or("");
        if self.kind == Kind::Status {
            self.claimed = Verdict::of(word);
        }
        self.kind = kind_behind(self.kind, word);
    }

    /// The first check, counted from 0, whose answer contradicts what is claimed, and both.
    pub(crate) fn contradicted(&self, answers: &[Verdict]) -> Option<(u64, Verdict, Verdict)> {
        for claim in &self.claims {
            let (check, verdict) = *claim;
            let answer = *answers.get(check as usize)?;
            if answer.contradicts(verdict) {
                return Some((check, verdict, answer));
            }
        }
        None
    }
}

// What a command is behind one more word.
fn kind_behind(kind: Kind, word: &str) -> Kind {
    match (kind, word) {
        (Kind::Check, _) | (Kind::Unknown, "check-sat" | "check-sat-assuming") => Kind::Check,
        (Kind::Unknown, "set-info") => Kind::Info,
        (Kind::Info, ":status") => Kind::Status,
        _ => Kind::Other,
    }
}
