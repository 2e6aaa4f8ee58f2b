//! Why a file could not be read.

use qv_io::Failed;
use std::alloc::{AllocError, AllocFailed};

/// What is wrong with a text.
#[derive(Clone, Copy)]
pub enum QdimacsKind {
    /// The first line that is no comment isn't `p cnf V C`.
    ProblemLine,
    /// A word of a part is no variable, or one among the clauses no literal, and it isn't `0`.
    Number,
    /// The bytes end inside a part or a clause, or before the problem line.
    Unfinished,
    /// A variable is quantified a second time.
    Repeated,
    /// A part begins behind a clause.
    Quantifier,
}

/// Why a file could not be read.
#[derive(Clone, Copy)]
pub enum QdimacsFault {
    /// The text's first fault, and where it stands.
    At { place: u64, kind: QdimacsKind },
    /// The source failed.
    ReadFault,
    /// `qv_io::LIMIT` bytes or more were taken, and more are wanted.
    ReadLimit,
    NoMemory,
}

impl From<Failed> for QdimacsFault {
    ghost use Rattle.std.specs.Prelude.{◌≡◌};
    ghost use Rattle.qv_qdimacs.specs.declared.faults.QdimacsFault.TheVariants.{ReadFault};

    ghost from_gives = { λ _ fault. fault ≡ ReadFault };

    fn from(_failed: Failed) -> QdimacsFault {
        QdimacsFault::ReadFault
    }
}

impl From<AllocError> for QdimacsFault {
    ghost use Rattle.std.specs.Prelude.{◌≡◌};
    ghost use Rattle.qv_qdimacs.specs.declared.faults.QdimacsFault.TheVariants.{NoMemory};

    ghost from_gives = { λ _ fault. fault ≡ NoMemory };

    fn from(_error: AllocError) -> QdimacsFault {
        QdimacsFault::NoMemory
    }
}

impl<T: Drop> From<AllocFailed<T>> for QdimacsFault {
    ghost use Rattle.std.specs.Prelude.{◌≡◌};
    ghost use Rattle.qv_qdimacs.specs.declared.faults.QdimacsFault.TheVariants.{NoMemory};

    ghost from_gives = { λ _ fault. fault ≡ NoMemory };

    fn from(_error: AllocFailed<T>) -> QdimacsFault {
        QdimacsFault::NoMemory
    }
}
