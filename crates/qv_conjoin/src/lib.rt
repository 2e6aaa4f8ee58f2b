//! The conjunction of formulas of a store, as a term that is put into it.
#![tactic(auto)]

mod joining;

pub use joining::conjoin;
pub use qv_store::NoMemory;
