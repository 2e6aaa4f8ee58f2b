//! The rows of a driver: lines of words, each answered by a line.
#![tactic(auto)]

mod answer;
mod lines;
mod words;

pub use answer::Answer;
pub use lines::{Cases, answer_all};
pub use words::{Words, find};
