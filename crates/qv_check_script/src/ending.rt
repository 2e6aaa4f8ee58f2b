//! How a check ends.
ghost use Rattle.std.specs.Prelude.{◌≡◌};

use qv_io::Failed;
use std::alloc::AllocError;

/// How a certificate that was gone through ended.
#[derive(Clone, Copy, Debug, PartialEq, Eq)]
pub enum Ending {
    Accepted,
    /// The script has a fault.
    Faulty,
    /// A line of the certificate is refused.
    Refused,
}

/// Why a check stopped before its end.
#[derive(Clone, Copy, Debug, PartialEq, Eq)]
pub enum Halt {
    Read,
    /// As many bytes of a text were taken as the limit allows.
    ReadLimit,
    Write,
    NoMemory,
}

impl From<AllocError> for Halt {
    ghost use Rattle.qv_check_script.specs.declared.ending.Halt.TheVariants.{NoMemory};

    ghost from_gives = { λ _ halt. halt ≡ NoMemory };

    fn from(_error: AllocError) -> Halt {
        Halt::NoMemory
    }
}

impl From<Failed> for Halt {
    ghost use Rattle.qv_check_script.specs.declared.ending.Halt.TheVariants.{Write};

    ghost from_gives = { λ _ halt. halt ≡ Write };

    fn from(_failed: Failed) -> Halt {
        Halt::Write
    }
}
