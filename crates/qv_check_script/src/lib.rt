//! The check of a whole certificate beside its script.
#![tactic(auto)]

mod answers;
mod commands;
mod course;
mod end;
mod ending;
mod following;
mod header;
pub mod laws;
mod sections;
mod texts;
mod turns;
mod verifying;

pub use answers::last_of;
pub use course::Course;
pub use end::finish;
pub use ending::{Ending, Halt};
pub use header::read_header;
pub use texts::{answer_line, refused_line};
pub use turns::Turn;
pub use verifying::verify;
