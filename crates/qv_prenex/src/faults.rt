//! Why no problem is made.

use std::alloc::{AllocError, AllocFailed};

/// Why no problem is made.
#[derive(Clone, Copy, Debug, PartialEq, Eq)]
pub enum PrenexFault {
    /// The problem has more than 4,096 variables.
    PrefixLimit,
    NoMemory,
}

impl From<AllocError> for PrenexFault {
    ghost use Rattle.qv_prenex.specs.declared.faults.PrenexFault.{PrenexFault};
    ghost use Rattle.std.specs.Prelude.{◌≡◌};

    ghost from_gives = { λ _ fault. fault ≡ PrenexFault.NoMemory };

    fn from(_: AllocError) -> Self {
        PrenexFault::NoMemory
    }
}

impl<T: Drop> From<AllocFailed<T>> for PrenexFault {
    ghost use Rattle.qv_prenex.specs.declared.faults.PrenexFault.{PrenexFault};
    ghost use Rattle.std.specs.Prelude.{◌≡◌};

    ghost from_gives = { λ _ fault. fault ≡ PrenexFault.NoMemory };

    fn from(_: AllocFailed<T>) -> Self {
        PrenexFault::NoMemory
    }
}
