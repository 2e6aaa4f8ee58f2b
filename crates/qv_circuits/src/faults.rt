//! Why a circuit isn't written.

use std::alloc::{AllocError, AllocFailed};

/// Why a circuit isn't written.
#[derive(Clone, Copy)]
pub enum CircuitFault {
    /// It wants a variable that is over the limit.
    TooManyVariables,
    NoMemory,
}

impl From<AllocError> for CircuitFault {
    ghost use Rattle.qv_circuits.specs.declared.faults.CircuitFault.{CircuitFault};
    ghost use Rattle.std.specs.Prelude.{◌≡◌};

    ghost from_gives = { λ _ fault. fault ≡ CircuitFault.NoMemory };

    fn from(_: AllocError) -> Self {
        CircuitFault::NoMemory
    }
}

impl<T: Drop> From<AllocFailed<T>> for CircuitFault {
    ghost use Rattle.qv_circuits.specs.declared.faults.CircuitFault.{CircuitFault};
    ghost use Rattle.std.specs.Prelude.{◌≡◌};

    ghost from_gives = { λ _ fault. fault ≡ CircuitFault.NoMemory };

    fn from(_: AllocFailed<T>) -> Self {
        CircuitFault::NoMemory
    }
}
