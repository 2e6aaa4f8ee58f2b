//! Why a text could not be read.

use qv_io::Failed;
use std::alloc::{AllocError, AllocFailed};

/// What is wrong with a text.
#[derive(Clone, Copy, Debug, PartialEq, Eq)]
pub enum DimacsKind {
    /// The first line that is no comment isn't `p cnf V C`.
    ProblemLine,
    /// A word among the clauses is no literal and not `0`.
    Number,
    /// The bytes end inside a clause, or before the problem line.
    Unfinished,
}

/// Why a text could not be read.
#[derive(Clone, Copy, Debug, PartialEq, Eq)]
pub enum DimacsFault {
    /// The text's first fault, and where it stands.
    At { place: u64, kind: DimacsKind },
    /// The source failed.
    ReadFault,
    /// `qv_io::LIMIT` bytes or more were taken, and more are wanted.
    ReadLimit,
    NoMemory,
}

/// Why a text isn't gone on with.
#[derive(Clone, Copy)]
pub(crate) enum Halt {
    /// The text ends here, whatever comes.
    Done,
    Fault(DimacsFault),
}

impl From<Failed> for Halt {
    ghost use Rattle.std.specs.Prelude.{◌≡◌};
    ghost use Rattle.qv_dimacs.specs.declared.faults.Halt.TheVariants.{Fault};
    ghost use Rattle.qv_dimacs.specs.declared.faults.DimacsFault.TheVariants.{ReadFault};

    ghost from_gives = { λ _ halt. halt ≡ Fault ReadFault };

    fn from(_failed: Failed) -> Halt {
        Halt::Fault(DimacsFault::ReadFault)
    }
}

impl From<AllocError> for Halt {
    ghost use Rattle.std.specs.Prelude.{◌≡◌};
    ghost use Rattle.qv_dimacs.specs.declared.faults.Halt.TheVariants.{Fault};
    ghost use Rattle.qv_dimacs.specs.declared.faults.DimacsFault.TheVariants.{NoMemory};

    ghost from_gives = { λ _ halt. halt ≡ Fault NoMemory };

    fn from(_error: AllocError) -> Halt {
        Halt::Fault(DimacsFault::NoMemory)
    }
}

impl<T: Drop> From<AllocFailed<T>> for Halt {
    ghost use Rattle.std.specs.Prelude.{◌≡◌};
    ghost use Rattle.qv_dimacs.specs.declared.faults.Halt.TheVariants.{Fault};
    ghost use Rattle.qv_dimacs.specs.declared.faults.DimacsFault.TheVariants.{NoMemory};

    ghost from_gives = { λ _ halt. halt ≡ Fault NoMemory };

    fn from(_error: AllocFailed<T>) -> Halt {
        Halt::Fault(DimacsFault::NoMemory)
    }
}
