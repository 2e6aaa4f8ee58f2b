//! Laws for the code that plays the level game: what makes an entry, what the clauses of query
//! lists and an answer about them say, and what a model and a core say of a point's places.
#![tactic(auto)]

pub mod laws;
