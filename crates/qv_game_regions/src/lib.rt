//! Single moves of the level game: the regions of its entries, made in a store.
#![tactic(auto)]

mod fixing;
pub mod laws;
mod putting;
mod reducing;
mod run;
mod taking;

pub use fixing::fix;
pub use run::Run;
pub use taking::{Taken, take};
