//! Candidates, by how they are found: targets down the sides of equations and comparisons.

use qv_store::Id;

/// What a comparison's side is to be: one less than the other side, one more, the same, the least
/// value or the greatest.
#[derive(Clone, Copy)]
pub enum Target {
    Less,
    More,
    Same,
    Least,
    Greatest,
}

/// A candidate, by how it is found: a truth value, or what a target gives down a side.
#[derive(Clone, Copy)]
pub enum Offer {
    Truth(bool),
    Down { side: Id, other: Id, target: Target },
}

/// The side of an equation or a comparison down which candidates are found, if there is one.
#[derive(Clone, Copy)]
pub enum Side {
    First,
    Second,
    Neither,
}
