//! What the clauses of a region say that a truth value implies, and the term that defines it so.
#![tactic(auto)]

mod clauses;
mod conjuncts;
mod defining;
mod implying;
mod placing;
mod sides;

pub use defining::definition;
pub use placing::put_one;
pub use qv_choose_paths::{Place, Sight};
pub use qv_store::NoMemory;
