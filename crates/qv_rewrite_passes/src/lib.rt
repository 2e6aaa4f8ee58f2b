//! The passes of certificates by name, and their law: each formula keeps its value.
#![tactic(auto)]

pub mod laws;
mod outcome;
mod pass;

pub use outcome::Outcome;
pub use pass::{Pass, name_of_pass, pass_named};
