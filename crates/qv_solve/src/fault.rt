//! Why nothing is answered.

use qv_prenex::PrenexFault;
use std::alloc::{AllocError, AllocFailed};

/// Why nothing is answered.
#[derive(Clone, Copy, Debug, PartialEq, Eq)]
pub enum SolveFault {
    /// The problem has more than 4,096 variables.
    PrefixLimit,
    NoMemory,
}

impl From<AllocError> for SolveFault {
    ghost use Rattle.qv_solve.specs.declared.fault.SolveFault.{SolveFault};
    ghost use Rattle.std.specs.Prelude.{◌≡◌};

    ghost from_gives = { λ _ fault. fault ≡ SolveFault.NoMemory };

    fn from(_: AllocError) -> Self {
        SolveFault::NoMemory
    }
}

impl<T: Drop> From<AllocFailed<T>> for SolveFault {
    ghost use Rattle.qv_solve.specs.declared.fault.SolveFault.{SolveFault};
    ghost use Rattle.std.specs.Prelude.{◌≡◌};

    ghost from_gives = { λ _ fault. fault ≡ SolveFault.NoMemory };

    fn from(_: AllocFailed<T>) -> Self {
        SolveFault::NoMemory
    }
}

impl From<PrenexFault> for SolveFault {
    ghost use Rattle.qv_solve.specs.Faults.{fault_of};
    ghost use Rattle.std.specs.Prelude.{◌≡◌};

    ghost from_gives = { λ prenex fault. fault ≡ fault_of prenex };

    fn from(fault: PrenexFault) -> Self {
        match fault {
            PrenexFault::PrefixLimit => SolveFault::PrefixLimit,
            PrenexFault::NoMemory => SolveFault::NoMemory,
        }
    }
}
