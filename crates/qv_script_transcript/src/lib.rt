//! What a script prints, and what its certificate is: definitions, and what is known of them.
#![tactic(auto)]

pub mod laws;
