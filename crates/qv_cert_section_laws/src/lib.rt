//! The laws of the sections of certificates: what the definitions of `qv_words` say of them.
#![tactic(auto)]

pub mod laws;
