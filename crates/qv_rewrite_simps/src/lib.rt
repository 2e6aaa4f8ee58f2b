//! Terms of a store behind the pass of small rules.
#![tactic(auto)]

mod args;
mod putting;
mod simping;
mod tables;
mod testing;

pub use qv_store::NoMemory;
pub use simping::simp;
