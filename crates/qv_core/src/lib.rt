//! The search for a core: which item of a list is left out next, and which are kept.
#![tactic(auto)]

mod searching;

pub use searching::CoreSearch;
