//! Clause lists of formulas in a store: circuits of operators behind the clauses of a list, and new
//! variables for the bits of a sort.
#![tactic(auto)]

mod blaster;
mod building;
mod faults;
pub mod laws;
mod lists;
mod sizes;

pub use blaster::{Added, Blaster};
pub use building::{build, fresh};
pub use faults::BlastFault;
pub use qv_circuits::CircuitFault;
pub use sizes::{Size, size_of};
