//! Candidates for a place of a block in a region: which there are, and what each one is as a term of
//! a store and as a word at a point.
#![tactic(auto)]

mod offering;
mod offers;
mod putting;
mod targets;

pub use offering::offers_of;
pub use offers::{Offer, Side, Target};
pub use putting::{candidates, put_literal, put_offer};
pub use qv_choose_paths::{Look, Place, Sight, Step, Trial, Way, row_word, word_down};
pub use qv_store::NoMemory;
pub use targets::target_row;
