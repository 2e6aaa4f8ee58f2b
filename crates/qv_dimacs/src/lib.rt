//! CNF files in the DIMACS format: their text, read from a source piece by piece.
#![tactic(auto)]

mod faults;
mod laws;
mod machine;
mod reading;
mod words;

pub use faults::{DimacsFault, DimacsKind};
pub use reading::{Dimacs, read_dimacs};
