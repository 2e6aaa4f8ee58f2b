//! Why work on a problem gives up.

use crate::records::SpentKind;
use std::alloc::{AllocError, AllocFailed};

/// Why play gives up: the meter was spent, in what is named, or memory ran out.
#[derive(Clone, Copy, Debug, PartialEq, Eq)]
pub enum PlayFault {
    Spent(SpentKind),
    NoMemory,
}

impl From<AllocError> for PlayFault {
    ghost use Rattle.qv_meter.specs.declared.faults.PlayFault.{PlayFault};
    ghost use Rattle.std.specs.Prelude.{◌≡◌};

    ghost from_gives = { λ _ fault. fault ≡ PlayFault.NoMemory };

    fn from(_: AllocError) -> Self {
        PlayFault::NoMemory
    }
}

impl<T: Drop> From<AllocFailed<T>> for PlayFault {
    ghost use Rattle.qv_meter.specs.declared.faults.PlayFault.{PlayFault};
    ghost use Rattle.std.specs.Prelude.{◌≡◌};

    ghost from_gives = { λ _ fault. fault ≡ PlayFault.NoMemory };

    fn from(_: AllocFailed<T>) -> Self {
        PlayFault::NoMemory
    }
}
