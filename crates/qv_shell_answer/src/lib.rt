//! What a check of a script comes to: its answer, the text of its section, and its record; and a
//! core of what was checked.
#![tactic(auto)]

mod checking;
mod cores;
pub mod laws;
mod refusals;
mod sections;
mod values;

pub use checking::{Checked, answer};
pub use cores::{Among, core};
pub use qv_solve::SolveFault;
pub use sections::section_of;
