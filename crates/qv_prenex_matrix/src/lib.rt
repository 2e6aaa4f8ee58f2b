//! The rules by which formulas are put into prenex form, and the matrix of a formula's form, with
//! its variables at their places.
#![tactic(auto)]

mod levels;
mod matrix;
mod openings;
mod parts;
mod rules;

pub use levels::Levels;
pub use matrix::matrix_of;
pub use openings::starts_empty;
pub use parts::{push_parts, waiting};
pub use qv_prenex_splits::{Names, SplitStore};
pub use qv_store::NoMemory;
pub use rules::{Part, Rule, is_bound, rule_of};
