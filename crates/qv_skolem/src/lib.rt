//! Skolem terms that are drawn from the entries of a level game that the existential player has
//! won.
#![tactic(auto)]

mod blocks;
mod chains;
mod drawing;
mod putting;
mod skolem;

pub use blocks::run_length;
pub use drawing::skolems;
pub use skolem::Skolem;
