//! Prenex problems of asserted terms.
#![tactic(auto)]

mod blocks;
mod conjunction;
mod constants;
mod counting;
mod faults;
mod places;
mod posing;
mod prefix;

pub use faults::PrenexFault;
pub use posing::prenex;
pub use qv_store::NoMemory;
