//! How a section ends: its formulas behind the passes that pay, and its lines with a refutation.
#![tactic(auto)]

mod closing;
pub mod laws;
mod lines;

pub use closing::{Closing, close};
pub use qv_store::NoMemory;
