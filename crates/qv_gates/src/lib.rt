//! Closure on gates: equal gates of a clause list become one, by steps that follow from the list.
#![tactic(auto)]

mod accepting;
mod closing;
pub mod laws;

pub use closing::{Advice, Closure};
