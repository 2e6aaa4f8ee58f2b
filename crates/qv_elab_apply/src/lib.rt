//! Applications of operators to terms in a store, with their abbreviations, and their faults.
#![tactic(auto)]

mod applying;
mod chains;
mod outlines;
mod pairs;

pub use applying::apply_operator;
pub use pairs::apply_distinct;
