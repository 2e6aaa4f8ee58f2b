//! The laws of prenex problems: what the definitions of `qv_words` say of them.
#![tactic(auto)]

pub mod laws;
