//! Scripts of any length with known answers, from a number; what the program writes of them: a
//! script itself, and how many checks of one have which answer; and a sink in memory that grows.
#![tactic(auto)]

mod counts;
mod generating;
mod scripts;
mod status;
mod text_sink;

pub use counts::{Counts, counts_text};
pub use generating::{generate, write_text};
pub use scripts::{GREATEST_NUMBER, NoMemory, block, next_state, script};
pub use status::Status;
pub use text_sink::TextSink;
