//! Expansion trees that are drawn from the entries of a level game that the universal player has
//! won.
#![tactic(auto)]

mod blocks;
mod expanding;
mod growing;
mod tasks;
mod tree;

pub use expanding::expansion;
pub use tree::{Tree, TreeLine};
