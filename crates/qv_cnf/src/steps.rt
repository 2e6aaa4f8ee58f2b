//! The steps of a refutation.

use super::Lit;

/// A step of a refutation, as a line of an LRAT proof has it.
#[derive(Debug, PartialEq, Eq, Drop)]
pub enum Step {
    /// Adds a clause. Each hint is the id of a clause, or its negation on a line that is not RUP.
    Add {
        id: u64,
        lits: Vec<Lit>,
        hints: Vec<i64>,
    },
    /// Takes clauses away.
    Delete {
        id: u64,
        ids: Vec<u64>,
    },
}

/// The budget has no conflict left.
#[derive(Clone, Copy, Debug, PartialEq, Eq)]
pub struct Spent;
