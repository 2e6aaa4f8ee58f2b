//! Expressions that are open around the part that is read: how each is entered, and how it goes on
//! behind its part.
#![tactic(auto)]

mod elaborator;
mod leaving;
mod opening;

pub use elaborator::{Elaborator, Next, Open};
