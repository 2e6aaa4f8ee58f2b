//! What a reader of certificates answers.

use crate::fault::CertLineFault;
use crate::kind::RefusalKind;
use crate::line::Line;
use qv_io::Failed;
use std::alloc::AllocError;

/// Why no further line is read.
#[derive(Clone, Copy)]
pub enum Stop {
    /// The end of the bytes, behind whole lines.
    End,
    /// A line has a fault, or the bytes end inside it.
    Fault(RefusalKind),
    /// The source failed.
    ReadFault,
    /// `qv_io::LIMIT` bytes or more were taken, and more are wanted.
    ReadLimit,
    NoMemory,
}

/// What comes next. A line's number is counted from 1.
#[derive(Debug, Drop)]
pub enum CertNext {
    Line { number: u64, line: Line },
    /// The end of the bytes, behind whole lines. The number is one more than that of the last
    /// line.
    End { number: u64 },
    /// The line of this number has a fault of its own, the bytes end inside it, or it is line 1
    /// and no header.
    Fault { number: u64, kind: RefusalKind },
    /// The source failed.
    ReadFault,
    /// `qv_io::LIMIT` bytes or more were taken, and more are wanted.
    ReadLimit,
    NoMemory,
}

impl From<Failed> for Stop {
    ghost use Rattle.std.specs.Prelude.{◌≡◌};
    ghost use Rattle.qv_cert.specs.declared.answers.Stop.TheVariants.{ReadFault};

    ghost from_gives = { λ _ stop. stop ≡ ReadFault };

    fn from(_failed: Failed) -> Stop {
        Stop::ReadFault
    }
}

impl From<AllocError> for Stop {
    ghost use Rattle.std.specs.Prelude.{◌≡◌};
    ghost use Rattle.qv_cert.specs.declared.answers.Stop.TheVariants.{NoMemory};

    ghost from_gives = { λ _ stop. stop ≡ NoMemory };

    fn from(_error: AllocError) -> Stop {
        Stop::NoMemory
    }
}

impl From<CertLineFault> for Stop {
    ghost use Rattle.std.specs.Prelude.{◌≡◌};
    ghost use Rattle.qv_cert.specs.Stops.{stop_for};

    ghost from_gives = { λ fault stop. stop ≡ stop_for fault };

    fn from(fault: CertLineFault) -> Stop {
        match fault {
            CertLineFault::Header => Stop::Fault(RefusalKind::Header),
            CertLineFault::Form => Stop::Fault(RefusalKind::Form),
            CertLineFault::Operator => Stop::Fault(RefusalKind::Operator),
            CertLineFault::Rule => Stop::Fault(RefusalKind::Rule),
            CertLineFault::Literal => Stop::Fault(RefusalKind::Literal),
            CertLineFault::NoMemory => Stop::NoMemory,
        }
    }
}
