//! The search for equal gates of a clause list. Nothing is promised of its steps: who takes one
//! gives it to a checker first.
#![tactic(auto)]

mod keeping;
mod nodes;
mod pairs;
mod search;

pub use search::Search;
