//! Terms for the places of a block, chosen so that a region stays true at a point, by those of its
//! conjuncts in which each place stands.
#![tactic(auto)]

mod choosing;
pub mod laws;
mod listing;
mod parting;
mod splitting;
mod trying;

pub use choosing::choose;
pub use qv_choose_candidates::candidates;
pub use qv_store::NoMemory;
