//! Why a formula isn't added.

use qv_circuits::CircuitFault;
use std::alloc::{AllocError, AllocFailed};

/// Why a formula isn't added.
#[derive(Clone, Copy, Debug, PartialEq, Eq)]
pub enum BlastFault {
    /// The clause list wants a variable that is over the limit.
    TooManyVariables,
    NoMemory,
}

impl From<AllocError> for BlastFault {
    ghost use Rattle.qv_blast.specs.declared.faults.BlastFault.{BlastFault};
    ghost use Rattle.std.specs.Prelude.{◌≡◌};

    ghost from_gives = { λ _ fault. fault ≡ BlastFault.NoMemory };

    fn from(_: AllocError) -> Self {
        BlastFault::NoMemory
    }
}

impl<T: Drop> From<AllocFailed<T>> for BlastFault {
    ghost use Rattle.qv_blast.specs.declared.faults.BlastFault.{BlastFault};
    ghost use Rattle.std.specs.Prelude.{◌≡◌};

    ghost from_gives = { λ _ fault. fault ≡ BlastFault.NoMemory };

    fn from(_: AllocFailed<T>) -> Self {
        BlastFault::NoMemory
    }
}

impl From<CircuitFault> for BlastFault {
    ghost use Rattle.qv_blast.specs.declared.faults.BlastFault.{BlastFault};
    ghost use Rattle.qv_blast.specs.Faults.{fault_of};
    ghost use Rattle.std.specs.Prelude.{◌≡◌};

    ghost from_gives = { λ circuit fault. fault ≡ fault_of circuit };

    fn from(fault: CircuitFault) -> Self {
        match fault {
            CircuitFault::TooManyVariables => BlastFault::TooManyVariables,
            CircuitFault::NoMemory => BlastFault::NoMemory,
        }
    }
}
