//! A core of asserted formulas that have no model.
#![tactic(auto)]

mod cores;
pub mod laws;
mod lists;
mod trials;

pub use cores::{CoreFound, core_one};
