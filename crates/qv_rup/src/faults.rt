//! Why a checker refuses.

use std::alloc::AllocError;

/// Why an original clause is refused.
#[derive(Clone, Copy, Debug, PartialEq, Eq)]
pub enum OriginalFault {
    /// Its id isn't greater than every id before.
    Order,
    NoMemory,
}

/// Why a step is refused. Hints are counted from 1.
#[derive(Clone, Copy, Debug, PartialEq, Eq)]
pub enum StepFault {
    /// The id of the added clause isn't greater than every id before.
    Order,
    /// The negative hint names no live clause that holds the negation of the first literal, or the
    /// group before it is open.
    Rat { hint: u64 },
    /// The hint names no live clause, or one that isn't unit.
    Hint { hint: u64 },
    /// No hint's clause was false, and the last group is open or some clause has none that needs one.
    Open,
    NoMemory,
}

impl From<AllocError> for OriginalFault {
    ghost use Rattle.qv_rup.specs.declared.faults.OriginalFault.{OriginalFault};
    ghost use Rattle.std.specs.Prelude.{◌≡◌};

    ghost from_gives = { λ _ fault. fault ≡ OriginalFault.NoMemory };

    fn from(_: AllocError) -> Self {
        OriginalFault::NoMemory
    }
}

impl From<AllocError> for StepFault {
    ghost use Rattle.qv_rup.specs.declared.faults.StepFault.{StepFault};
    ghost use Rattle.std.specs.Prelude.{◌≡◌};

    ghost from_gives = { λ _ fault. fault ≡ StepFault.NoMemory };

    fn from(_: AllocError) -> Self {
        StepFault::NoMemory
    }
}
