//! Inverse terms: what to put for one argument of an operator so that the result is a target.
#![tactic(auto)]

mod building;
mod chains;
mod parts;
mod products;
mod rows;

pub use qv_terms::NoMemory;
pub use rows::invert;
