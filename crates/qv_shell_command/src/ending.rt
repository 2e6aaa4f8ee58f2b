//! How a run ends.
ghost use Rattle.std.specs.Prelude.{◌≡◌};

use qv_io::Failed;
use std::alloc::AllocError;

/// How a script that was followed to its end ended.
#[derive(Clone, Copy)]
pub enum Ending {
    Done,
    Refused,
    /// The checker refused a section: it refuses none.
    Unaccepted,
}

/// Why a run stopped before its end.
#[derive(Clone, Copy)]
pub enum Halt {
    Read,
    Write,
    NoMemory,
}

impl From<AllocError> for Halt {
    ghost use Rattle.qv_shell_command.specs.declared.ending.Halt.TheVariants.{NoMemory};

    ghost from_gives = { λ _ halt. halt ≡ NoMemory };

    fn from(_error: AllocError) -> Halt {
        Halt::NoMemory
    }
}

impl From<Failed> for Halt {
    ghost use Rattle.qv_shell_command.specs.declared.ending.Halt.TheVariants.{Write};

    ghost from_gives = { λ _ halt. halt ≡ Write };

    fn from(_failed: Failed) -> Halt {
        Halt::Write
    }
}
