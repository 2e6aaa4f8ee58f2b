//! The meter of the level game: records of what was charged for, problem by problem.
#![tactic(auto)]

mod charging;
mod faults;
mod lanes;
pub mod laws;
mod meters;
mod records;
mod units;

pub use faults::PlayFault;
pub use lanes::Lane;
pub use meters::Meter;
pub use records::{Kept, Limits, Record, SpentKind};
pub use units::InstanceUnit;
