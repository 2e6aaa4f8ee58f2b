//! The clause lists that the sections of a certificate refute, beside its script.
#![tactic(auto)]

mod checking;
mod commands;
mod dimacs;
mod following;
pub mod laws;
mod listing;
mod sections;

pub use listing::clauses;
