//! Laws of written sections: each proof's first part has lines that list it.
#![tactic(auto)]

pub mod laws;
