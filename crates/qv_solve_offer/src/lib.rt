//! What is offered to checks and looked at there: which formulas a refutation doesn't need, and words
//! that may make formulas true.
#![tactic(auto)]

mod base;
mod constants;
mod offering;
mod shared;
mod standing;
mod tally;

pub use offering::unneeded;
pub use shared::Shared;
