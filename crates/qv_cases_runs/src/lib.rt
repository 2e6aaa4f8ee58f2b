//! What drivers of runs share: sources, sinks and texts as cases write them, and words of commands.
#![tactic(auto)]

mod case;
mod flaky;
mod given;
mod sections;
mod texts;
mod words;

pub use case::{Budgets, CERT_ROOM, Case, add_bytes, read};
pub use flaky::{FlakyReader, FlakyWriter};
pub use given::{Given, whole_source};
pub use sections::section_count;
pub use texts::{bytes_of, say_quoted};
pub use words::{add_word, check_words, solve_words};
