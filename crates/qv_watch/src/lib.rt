//! The trail of a clause-learning solver: the literals that are true, each with its level and the
//! clause that it came from, and unit propagation over the attached clauses.
#![tactic(auto)]

mod choosing;
mod clauses;
mod propagation;
mod scanning;
mod trails;
mod values;
mod watches;

pub use propagation::Propagated;
pub use trails::Trail;

/// No memory is left.
pub type NoMemory = std::alloc::AllocError;
