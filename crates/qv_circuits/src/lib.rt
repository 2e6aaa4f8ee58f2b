//! The circuits of operators, written as clauses.
#![tactic(auto)]

mod bitwise;
mod encoder;
mod faults;
mod operators;
mod overflows;
mod predicates;
mod products;
mod quotients;
mod shifts;
mod sums;
mod words;

pub use encoder::Encoder;
pub use faults::CircuitFault;
pub use shifts::stage_count;
