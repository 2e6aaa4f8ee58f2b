//! Why a section isn't written.

ghost use Rattle.std.specs.Prelude.{◌≡◌};
ghost use Rattle.qv_trim.specs.declared.fault.TrimFault.TheVariants.{NoMemory, Write};

use qv_io::Failed;
use std::alloc::AllocError;

/// Why a section isn't written.
#[derive(Clone, Copy, Debug, PartialEq, Eq)]
pub enum TrimFault {
    Write,
    NoMemory,
}

impl From<AllocError> for TrimFault {
    ghost from_gives = { λ _ fault. fault ≡ NoMemory };

    fn from(_error: AllocError) -> TrimFault {
        TrimFault::NoMemory
    }
}

impl From<Failed> for TrimFault {
    ghost from_gives = { λ _ fault. fault ≡ Write };

    fn from(_failed: Failed) -> TrimFault {
        TrimFault::Write
    }
}
