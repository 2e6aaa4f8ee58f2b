//! Checks refutations in the LRAT format.
#![tactic(auto)]

mod checker;
mod faults;
mod groups;
mod hints;
mod index;
mod marks;
mod shelf;

pub use checker::Checker;
pub use faults::{OriginalFault, StepFault};
