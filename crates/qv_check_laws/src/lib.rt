//! The verdict on a whole certificate, and that accepted answers are true.
#![tactic(auto)]

pub mod laws;
