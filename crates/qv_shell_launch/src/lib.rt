//! The run of the program over files and standard streams: what ended it is said on standard error.
#![tactic(auto)]

mod launching;
mod running;

pub use launching::{Given, launch_alone, launch_check, launch_solve, launch_trim};
pub use running::Run;
