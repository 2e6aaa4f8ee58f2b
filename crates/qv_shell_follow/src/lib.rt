//! A script is followed: what it prints and the certificate of its checks are written, and each
//! check is answered.
#![tactic(auto)]

mod following;
mod watching;

pub use following::{Followed, solve};
pub use qv_script::{Counts, Last};
pub use qv_shell_command::{Ending, Halt, Tally};
pub use watching::{Nobody, Watch};
