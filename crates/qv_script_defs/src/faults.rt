//! Why a command is refused, and why a check has no answer.

ghost use Rattle.std.specs.Prelude.{◌≡◌};
ghost use Rattle.qv_script_defs.specs.Faults.{kind_of};
ghost use Rattle.qv_script_defs.specs.Faults.{fault_of};

use qv_elab_defs::{ElabFault, ElabKind};
use std::alloc::AllocError;

/// The kinds of faults.
#[derive(Clone, Copy, Debug, PartialEq, Eq)]
pub enum ScriptKind {
    /// No name of a command.
    Command,
    Literal,
    Form,
    NotSupported,
    NotSupportedYet,
    UnknownName,
    Arity,
    Sorts,
    Index,
    Width,
    RepeatedName,
    DepthLimit,
    NameInUse,
    Logic,
    /// Fewer levels are open.
    PopBelow,
    LevelLimit,
    /// The last answer isn't sat.
    NoModel,
    /// The last answer isn't unknown.
    NoReason,
    /// A quantifier in a term whose value is asked for.
    Quantifier,
    /// The last answer isn't unsat.
    NoCore,
}

/// What was spent where a check has no answer.
#[derive(Clone, Copy, Debug, PartialEq, Eq)]
pub enum SpentWord {
    Conflicts,
    Instances,
    Variables,
}

/// Why a command is refused: the first fault, at its place, or want of memory.
#[derive(Clone, Copy, Debug, PartialEq, Eq)]
pub enum ScriptFault {
    At { place: u64, kind: ScriptKind },
    NoMemory,
}

impl From<AllocError> for ScriptFault {
    ghost use Rattle.qv_script_defs.specs.declared.faults.ScriptFault.{ScriptFault};

    ghost from_gives = { λ _ fault. fault ≡ ScriptFault.NoMemory };

    fn from(_: AllocError) -> Self {
        ScriptFault::NoMemory
    }
}

// The kind of a fault of a term or a sort.
fn kind_of(kind: ElabKind) -> ScriptKind
    ensures { result ≡ kind_of kind }
{
    match kind {
        ElabKind::Literal => ScriptKind::Literal,
        ElabKind::Form => ScriptKind::Form,
        ElabKind::NotSupported => ScriptKind::NotSupported,
        ElabKind::NotSupportedYet => ScriptKind::NotSupportedYet,
        ElabKind::UnknownName => ScriptKind::UnknownName,
        ElabKind::Arity => ScriptKind::Arity,
        ElabKind::Sorts => ScriptKind::Sorts,
        ElabKind::Index => ScriptKind::Index,
        ElabKind::Width => ScriptKind::Width,
        ElabKind::RepeatedName => ScriptKind::RepeatedName,
        ElabKind::DepthLimit => ScriptKind::DepthLimit,
    }
}

impl From<ElabFault> for ScriptFault {
    ghost use Rattle.qv_script_defs.specs.declared.faults.ScriptFault.{ScriptFault};

    ghost from_gives = { λ given fault. fault ≡ fault_of given };

    fn from(fault: ElabFault) -> Self {
        match fault {
            ElabFault::At { place, kind } => ScriptFault::At {
                place,
                kind: kind_of(kind),
            },
            ElabFault::NoMemory => ScriptFault::NoMemory,
        }
    }
}

/// The fault of a command at this place.
pub fn fault_at(place: u64, kind: ScriptKind) -> ScriptFault
    ensures { result ≡ ScriptFault.At place kind }
{
    ScriptFault::At { place, kind }
}
