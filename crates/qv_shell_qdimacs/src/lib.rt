//! Quantified Boolean formulas in the QDIMACS format: a file is solved, and a certificate is checked
//! beside one.
#![tactic(auto)]

mod answering;
mod checking;
mod ending;
mod judging;
pub mod laws;
mod replies;
mod solving;
mod texts;
mod values;

pub use checking::check_file;
pub use ending::FileEnding;
pub use qv_check_script::{Ending, Halt};
pub use solving::solve_file;
