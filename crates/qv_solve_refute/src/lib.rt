//! The refutation of a final list.
#![tactic(auto)]

mod feeding;
mod greatest;
mod laying;
mod refuting;
mod trying;

pub use refuting::{Refutation, Refuted, refute};
