//! What a clause says where some literals are true.

use super::Lit;

/// What a clause says where the literals of a set are true, and their negations false.
#[derive(Clone, Copy, Debug, PartialEq, Eq)]
pub enum Reading {
    /// It is false: each of its literals is.
    Falsified,
    /// It is unit: this literal alone, however often it stands there, isn't false, and isn't true.
    Forced(Lit),
    /// Nothing that propagation can use: one of its literals is true, or two that differ aren't
    /// false.
    Useless,
}
