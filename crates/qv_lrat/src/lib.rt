//! LRAT proofs of SAT solvers, checked beside CNF texts.
#![tactic(auto)]

mod checking;
mod clauses;
mod judging;
pub mod laws;
mod taking;

pub use checking::check_proof;
