//! Laws of moves of the level game: what the core's answers make of a list that is played.
#![tactic(auto)]

pub mod laws;
