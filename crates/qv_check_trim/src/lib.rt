//! A certificate is checked beside its script, and what is accepted of it is written trimmed.
#![tactic(auto)]

mod checking;
mod held;
pub mod laws;
mod sections;
mod taking;
mod trimming;

pub use checking::{Checked, check_held};
pub use held::Held;
pub use sections::answer_size;
pub use taking::take_all;
pub use trimming::trim;
