//! The laws of circuits and clause lists: what the definitions of `qv_words` say of them.
#![tactic(auto)]

pub mod circuits;
pub mod clauses;
pub mod passes;
