//! Sections of certificates are trimmed: what their refutations don't need is left out.
#![tactic(auto)]

mod entries;
mod fault;
mod front;
pub mod laws;
mod marking;
mod texts;
mod trimming;
mod writing;

pub use fault::TrimFault;
pub use trimming::trim_section;
