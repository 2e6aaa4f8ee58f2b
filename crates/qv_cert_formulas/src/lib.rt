//! What the parts of a section stand for: its first list of formulas, and a checker of their
//! clauses.
#![tactic(auto)]

mod refuting;
mod starting;

pub use qv_store::NoMemory;
pub use refuting::{checker_of, give_clauses, take_step};
pub use starting::first_list;
