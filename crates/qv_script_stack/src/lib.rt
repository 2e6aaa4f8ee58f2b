//! The assertion stack: what a script holds in a store for a state of the definitions, and how it
//! changes.
#![tactic(auto)]

mod adding;
mod held;
pub mod laws;
mod stack;
mod telling;

pub use held::{Chosen, Declared, Last, Mark, Named};
pub use stack::Stack;
