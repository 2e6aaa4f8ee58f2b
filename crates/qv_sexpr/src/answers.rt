//! What a reader answers.

use crate::items::Expr;
use qv_io::Failed;
use qv_text::LexFault;
use std::alloc::{AllocError, AllocFailed};

/// Why tokens are no command.
#[derive(Clone, Copy, Debug, PartialEq, Eq)]
pub enum ParseKind {
    /// A close parenthesis between commands.
    Close,
    /// An atom between commands.
    Atom,
    /// The bytes end inside a command, which begins at the fault's place.
    Unfinished,
}

/// A fault at a token or a command.
#[derive(Clone, Copy, Debug, PartialEq, Eq)]
pub struct ParseFault {
    pub place: u64,
    pub kind: ParseKind,
}

/// Why no further command is read.
#[derive(Clone, Copy, Debug, PartialEq, Eq)]
pub enum Stop {
    /// The end of the bytes, between commands.
    End,
    /// The source failed.
    ReadFault,
    /// `qv_io::LIMIT` bytes or more were taken, and more are wanted.
    ReadLimit,
    Lex(LexFault),
    Parse(ParseFault),
    /// More than `NESTING_LIMIT` parentheses are open at once. This is the first of them.
    NestingLimit { place: u64 },
    NoMemory,
}

/// What comes next. What isn't a command is as in `Stop`.
#[derive(Debug, PartialEq, Eq, Drop)]
pub enum Next {
    Command(Expr),
    End,
    ReadFault,
    ReadLimit,
    Lex(LexFault),
    Parse(ParseFault),
    NestingLimit { place: u64 },
    NoMemory,
}

impl From<Failed> for Stop {
    ghost use Rattle.std.specs.Prelude.{◌≡◌};
    ghost use Rattle.qv_sexpr.specs.declared.answers.Stop.TheVariants.{ReadFault};

    ghost from_gives = { λ _ stop. stop ≡ ReadFault };

    fn from(_failed: Failed) -> Stop {
        Stop::ReadFault
    }
}

impl From<AllocError> for Stop {
    ghost use Rattle.std.specs.Prelude.{◌≡◌};
    ghost use Rattle.qv_sexpr.specs.declared.answers.Stop.TheVariants.{NoMemory};

    ghost from_gives = { λ _ stop. stop ≡ NoMemory };

    fn from(_error: AllocError) -> Stop {
        Stop::NoMemory
    }
}

impl<T: Drop> From<AllocFailed<T>> for Stop {
    ghost use Rattle.std.specs.Prelude.{◌≡◌};
    ghost use Rattle.qv_sexpr.specs.declared.answers.Stop.TheVariants.{NoMemory};

    ghost from_gives = { λ _ stop. stop ≡ NoMemory };

    fn from(_error: AllocFailed<T>) -> Stop {
        Stop::NoMemory
    }
}
