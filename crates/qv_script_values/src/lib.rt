//! Values, sorts and symbols as they are printed.
#![tactic(auto)]

mod symbols;
mod values;

pub use symbols::{push_definition, push_symbol};
pub use values::{push_sort, push_value};
