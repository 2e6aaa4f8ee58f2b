//! The check of the section of one check-sat, judged while it is read: from its `check` line to its
//! end.
#![tactic(auto)]

mod checking;
mod leaving;
mod nodes;
mod opening;
mod section;

pub use checking::check_one;
pub use leaving::read_to_lrat;
pub use opening::{close, open};
pub use qv_check_lines::Verdict;
