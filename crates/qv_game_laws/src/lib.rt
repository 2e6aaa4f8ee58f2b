//! The laws of the level game: what the definitions of `qv_words` say of linked lists and what is
//! drawn from them.
#![tactic(auto)]

pub mod laws;
