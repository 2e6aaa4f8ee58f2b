//! What a core answers.

use qv_cnf::{Lit, Spent};
use std::alloc::AllocError;

/// What a core found of its clauses under assumptions.
#[derive(Debug, Drop)]
pub enum Outcome {
    /// Values of the variables from 1 on that make every clause and every assumption true.
    Found(Vec<bool>),
    /// Some of the assumptions, with which the clauses have no model.
    Unsat { core: Vec<Lit> },
}

/// Why a core gives up. The clauses and steps so far stay, and it may be asked again.
#[derive(Clone, Copy, Debug, PartialEq, Eq)]
pub enum SatFault {
    /// The budget was spent.
    Spent,
    NoMemory,
}

impl From<AllocError> for SatFault {
    ghost use Rattle.qv_sat.specs.declared.outcomes.SatFault.{SatFault};
    ghost use Rattle.std.specs.Prelude.{◌≡◌};

    ghost from_gives = { λ _ fault. fault ≡ SatFault.NoMemory };

    fn from(_: AllocError) -> Self {
        SatFault::NoMemory
    }
}

impl From<Spent> for SatFault {
    ghost use Rattle.qv_sat.specs.declared.outcomes.SatFault.{SatFault};
    ghost use Rattle.std.specs.Prelude.{◌≡◌};

    ghost from_gives = { λ _ fault. fault ≡ SatFault.Spent };

    fn from(_: Spent) -> Self {
        SatFault::Spent
    }
}
