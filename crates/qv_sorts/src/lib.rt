//! The names of the operators, both ways, and their ranks with the fault of each application that
//! has none.
#![tactic(auto)]

pub mod laws;
mod naming;
mod operators;
mod ranking;

pub use naming::name_of;
pub use operators::{NameFault, op_named};
pub use ranking::{RankFault, rank};
