//! What the lines of a section list, over a store: what was listed so far, and one more line; the
//! first fault of a line that lists, and the formulas that what was listed stands for.
#![tactic(auto)]

mod faults;
mod formulas;
mod listed;
mod listing;
mod places;

pub use faults::fault_of;
pub use formulas::{goal_of, leaves_of};
pub use listed::{Branch, Listed, Term};
pub use listing::list;
pub use qv_store::NoMemory;
