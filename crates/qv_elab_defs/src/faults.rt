//! Why an expression is no term and no sort.

use std::alloc::AllocError;

/// The kinds of faults.
#[derive(Clone, Copy, Debug, PartialEq, Eq)]
pub enum ElabKind {
    /// A number of 2^128 or more where one is wanted, or a literal's value that is too large for
    /// its width.
    Literal,
    /// Another shape than that of a term or a sort.
    Form,
    NotSupported,
    NotSupportedYet,
    UnknownName,
    Arity,
    Sorts,
    Index,
    Width,
    /// A name that stands twice in one list.
    RepeatedName,
    /// A tree that is too deep.
    DepthLimit,
}

/// Why there is no term or sort: the first fault, at its place, or want of memory.
#[derive(Clone, Copy, Debug, PartialEq, Eq)]
pub enum ElabFault {
    At { place: u64, kind: ElabKind },
    NoMemory,
}

impl From<AllocError> for ElabFault {
    ghost use Rattle.qv_elab_defs.specs.declared.faults.ElabFault.{ElabFault};
    ghost use Rattle.std.specs.Prelude.{◌≡◌};

    ghost from_gives = { λ _ fault. fault ≡ ElabFault.NoMemory };

    fn from(_: AllocError) -> Self {
        ElabFault::NoMemory
    }
}
