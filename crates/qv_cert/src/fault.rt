//! Why a line of a certificate could not be read.

ghost use Rattle.std.specs.Prelude.{◌≡◌};
ghost use Rattle.qv_cert.specs.declared.fault.CertLineFault.TheVariants.{NoMemory};
ghost use Rattle.qv_cert.specs.Reading.{cert_fault};

use qv_lrat_text::LineFault;
use std::alloc::{AllocError, AllocFailed};

/// Memory ran out.
pub type NoMemory = AllocError;

/// Why a line could not be read, in the order in which the faults are tried.
#[derive(Clone, Copy, Debug)]
pub enum CertLineFault {
    /// The first word is `qbv-cert`, and the line is no header.
    Header,
    /// The line is in the grammar of no place.
    Form,
    /// No operator has that name, or it has another number of indices.
    Operator,
    /// No pass has that name.
    Rule,
    /// The width is over 128, or the value isn't of the sort.
    Literal,
    /// Memory ran out.
    NoMemory,
}

impl From<AllocError> for CertLineFault {
    ghost from_gives = { λ _ fault. fault ≡ NoMemory };

    fn from(_error: AllocError) -> CertLineFault {
        CertLineFault::NoMemory
    }
}

impl<T: Drop> From<AllocFailed<T>> for CertLineFault {
    ghost from_gives = { λ _ fault. fault ≡ NoMemory };

    fn from(_error: AllocFailed<T>) -> CertLineFault {
        CertLineFault::NoMemory
    }
}

impl From<LineFault> for CertLineFault {
    ghost from_gives = { λ line fault. fault ≡ cert_fault line };

    fn from(fault: LineFault) -> CertLineFault {
        match fault {
            LineFault::Form => CertLineFault::Form,
            LineFault::NoMemory => CertLineFault::NoMemory,
        }
    }
}
