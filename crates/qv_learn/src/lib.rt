//! What is learnt from a conflict.
#![tactic(auto)]

mod analysis;
mod learner;
mod marks;
mod point;
mod search;

pub use analysis::{Learnt, analyse};
pub use learner::Learner;
