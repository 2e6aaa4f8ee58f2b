//! The lines that list what is drawn from the entries of a level game, and values of the constants.
#![tactic(auto)]

mod terms;
mod trees;
mod values;

pub use qv_store::NoMemory;
pub use terms::{TermsDrawn, draw_terms};
pub use trees::draw_lines;
pub use values::{ConstValue, constants};
