//! How a place stands in the terms of a region, and the ways down to it by rows of inverse terms.
#![tactic(auto)]

mod descending;
mod looking;
mod rows;
mod seeing;
mod ways;

pub use descending::{put_down, word_down};
pub use qv_store::NoMemory;
pub use rows::{put_row, row_word};
pub use seeing::{Sight, Trial};
pub use ways::{Look, Place, Step, Way};
