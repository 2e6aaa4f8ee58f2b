//! Entries of the level game: regions from whose points a player wins.
#![tactic(auto)]

mod entries;
mod entry;
mod holding;
mod shallow;
mod table;

pub use entries::Entries;
pub use entry::Entry;
