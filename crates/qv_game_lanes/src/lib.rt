//! Lanes of the level game: a query list's clauses, and a core that is asked about them.
#![tactic(auto)]

mod asking;
mod bits;
mod lane;
pub mod laws;
mod places;

pub use asking::Answer;
pub use bits::as_known;
pub use lane::Lane;
