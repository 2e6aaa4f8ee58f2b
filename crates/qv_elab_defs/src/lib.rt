//! Terms and sorts from expressions, as definitions, and their laws.
#![tactic(auto)]

mod faults;
pub mod laws;
mod limit;

pub use faults::{ElabFault, ElabKind};
pub use limit::{DEPTH_LIMIT, above};
