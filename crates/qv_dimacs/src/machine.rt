//! A text, byte by byte.

ghost use Rattle.std.specs.Prelude.{◌≡◌, ◌<◌, ◌+◌, ◌^◌, length, OnOk};
ghost use Rattle.qv_dimacs.specs.Machine.{step, word_ends, item, literal, part_ends, line_ends, gap};
ghost use Rattle.qv_dimacs.specs.Machine.{begin, between, in_word, finish, said_at_end, start_state};
ghost use Rattle.qv_dimacs.specs.View.{state_of, Takes, TakesAll, Finishes};

use crate::faults::{DimacsFault, DimacsKind, Halt};
use crate::words::{Seen, is_white};
use qv_cnf::{Lit, Packed};
use std::alloc::Global;

/// Which lines came, and which word of the problem line comes next.
#[derive(Clone, Copy)]
pub(crate) enum Stage {
    /// No line but comments.
    Comments,
    /// In the problem line, `p` comes next.
    Letter,
    /// `cnf` comes next.
    Format,
    /// The number of variables comes next.
    Variables,
    /// The number of clauses comes next.
    Count,
    /// Nothing comes next.
    Whole,
    /// The problem line.
    Clauses,
}

/// Where in a line the text stands.
#[derive(Clone, Copy)]
pub(crate) enum At {
    /// Before the first word.
    Fresh,
    /// In a comment.
    Comment,
    /// Between words, or behind the last.
    Gap,
    /// In a word that begins at this place.
    Word { place: u64, seen: Seen },
}

/// What was read of a text.
#[derive(Drop)]
pub(crate) struct Machine {
    pub(crate) stage: Stage,
    pub(crate) at: At,
    /// How many bytes were read.
    pub(crate) place: u64,
    /// Where the problem line begins, or the clause.
    pub(crate) start: u64,
    /// The literals of a clause that has begun.
    pub(crate) lits: Vec<Lit>,
    pub(crate) clauses: Packed,
}

impl Machine {
    pub(crate) fn new(alloc: Global) -> Machine
        ensures { state_of result ≡ start_state }
    {
        Machine {
            stage: Stage::Comments,
            at: At::Fresh,
            place: 0,
            start: 0,
            lits: Vec::new(alloc),
            clauses: Packed::new(alloc),
        }
    }

    /// Takes the bytes of a piece.
    pub(crate) fn take_all(&mut self, piece: &[u8]) -> Result<(), Halt>
        requires { self.old.place + length piece.now < 2 ^ 63 }
        ensures taken { TakesAll (state_of self.old) piece.now result (state_of self.new) }
        ensures place { OnOk result (self.new.place ≡ self.old.place + length piece.now) }
    {
        for byte in piece {
            self.take(*byte)?;
        }
        Ok(())
    }

    /// The bytes end.
    pub(crate) fn finish(&mut self) -> Result<(), Halt>
        ensures { Finishes (finish (state_of self.old)) result (state_of self.new) }
    {
        if let At::Word { place, seen } = self.at {
            self.word(place, seen)?;
        }
        self.end()
    }

    // Takes a byte.
    #[inline]
    fn take(&mut self, byte: u8) -> Result<(), Halt>
        requires { self.old.place < 2 ^ 63 }
        ensures step { Takes (step (state_of self.old) byte) result (state_of self.new) }
        ensures place { OnOk result (self.new.place ≡ self.old.place + 1) }
    {
        let place = self.place + 1;
        match self.at {
            At::Word { place, seen } => self.in_word(place, seen, byte)?,
            At::Comment => {
                if byte == b'\n' {
                    self.at = At::Fresh;
                }
            }
            At::Fresh => {
                if byte == b'c' {
                    self.at = At::Comment;
                } else {
                    self.between(byte)?;
                }
            }
            At::Gap => self.between(byte)?,
        }
        self.place = place;
        Ok(())
    }

    // A byte behind one of a word.
    #[inline]
    fn in_word(&mut self, place: u64, seen: Seen, byte: u8) -> Result<(), Halt>
        ensures { Takes (in_word (state_of self.old) place seen byte) result (state_of self.new) }
    {
        if is_white(byte) {
            self.word(place, seen)?;
            self.at = At::Gap;
            self.gap(byte)
        } else {
            self.at = At::Word {
                place,
                seen: seen.next(byte),
            };
            Ok(())
        }
    }

    // A byte before a word.
    #[inline]
    fn between(&mut self, byte: u8) -> Result<(), Halt>
        ensures { Takes (between (state_of self.old) byte) result (state_of self.new) }
    {
        if is_white(byte) {
            self.gap(byte)
        } else {
            self.begin(byte);
            Ok(())
        }
    }

    // White space.
    #[inline]
    fn gap(&mut self, byte: u8) -> Result<(), Halt>
        ensures { Takes (gap (state_of self.old) byte) result (state_of self.new) }
    {
        if byte == b'\n' {
            self.line_ends()
        } else {
            Ok(())
        }
    }

    // The first byte of a word.
    #[inline]
    fn begin(&mut self, byte: u8)
        ensures { state_of self.new ≡ begin (state_of self.old) byte }
    {
        if let Stage::Comments = self.stage {
            self.stage = Stage::Letter;
            self.start = self.place;
        }
        self.at = At::Word {
            place: self.place,
            seen: Seen::first(byte),
        };
    }

    // A line that is no comment ends, or one that has no word.
    fn line_ends(&mut self) -> Result<(), Halt>
        ensures { Takes (line_ends (state_of self.old)) result (state_of self.new) }
    {
        match self.stage {
            Stage::Comments | Stage::Clauses => {}
            Stage::Whole => {
                self.stage = Stage::Clauses;
                self.start = 0;
            }
            _ => return Err(self.no_problem_line()),
        }
        self.at = At::Fresh;
        Ok(())
    }

    // A word of the problem line or a clause ends.
    #[inline]
    fn word(&mut self, place: u64, seen: Seen) -> Result<(), Halt>
        ensures { Takes (word_ends (state_of self.old) place seen) result (state_of self.new) }
    {
        match self.stage {
            Stage::Clauses => self.item(place, seen),
            _ => self.part(seen),
        }
    }

    // A word of the problem line.
    fn part(&mut self, seen: Seen) -> Result<(), Halt>
        ensures { Takes (part_ends (state_of self.old) seen) result (state_of self.new) }
    {
        self.stage = match (self.stage, seen) {
            (Stage::Letter, Seen::P) => Stage::Format,
            (Stage::Format, Seen::Cnf) => Stage::Variables,
            (Stage::Variables, _) if seen.is_numeral() => Stage::Count,
            (Stage::Count, _) if seen.is_numeral() => Stage::Whole,
            _ => return Err(self.no_problem_line()),
        };
        Ok(())
    }

    // A word among clauses.
    #[inline]
    fn item(&mut self, place: u64, seen: Seen) -> Result<(), Halt>
        ensures { Takes (item (state_of self.old) place seen) result (state_of self.new) }
    {
        match seen {
            Seen::Zero => {
                self.clauses.push(&self.lits)?;
                self.lits.clear();
                Ok(())
            }
            Seen::Percent if self.lits.is_empty() => Err(Halt::Done),
            _ => self.literal(place, seen),
        }
    }

    // A literal of a clause.
    #[inline]
    fn literal(&mut self, place: u64, seen: Seen) -> Result<(), Halt>
        ensures { Takes (literal (state_of self.old) place seen) result (state_of self.new) }
    {
        let Some(lit) = seen.literal() else {
            return Err(Halt::Fault(DimacsFault::At {
                place,
                kind: DimacsKind::Number,
            }));
        };
        self.lits.push(lit)?;
        if self.lits.len() == 1 {
            self.start = place;
        }
        Ok(())
    }

    // The bytes end behind the last word.
    fn end(&mut self) -> Result<(), Halt>
        ensures { Finishes (said_at_end (state_of self.old)) result (state_of self.new) }
    {
        match self.stage {
            Stage::Comments => Err(unfinished(self.place)),
            Stage::Whole => Ok(()),
            Stage::Clauses if self.lits.is_empty() => Ok(()),
            Stage::Clauses => Err(unfinished(self.start)),
            _ => Err(self.no_problem_line()),
        }
    }

    fn no_problem_line(&self) -> Halt
        ensures { result ≡ Halt.Fault (DimacsFault.At self.now.start DimacsKind.ProblemLine) }
    {
        Halt::Fault(DimacsFault::At {
            place: self.start,
            kind: DimacsKind::ProblemLine,
        })
    }
}

fn unfinished(place: u64) -> Halt
    ensures { result ≡ Halt.Fault (DimacsFault.At place DimacsKind.Unfinished) }
{
    Halt::Fault(DimacsFault::At {
        place,
        kind: DimacsKind::Unfinished,
    })
}
