//! What the program is given by its host: the words, the files that they name, and
//! the line on standard error.
#![tactic(auto)]

mod arguments;
mod claims;
mod files;
mod identity;
mod pace;
mod report;
mod tail;
mod trail;

pub use arguments::words;
pub use files::{
    Text, if_open, is_input, lent, make_anew, make_cert, not_twice, open_text, output_identity,
};
pub use identity::Identity;
pub use pace::Pace;
pub use report::{
    Charged, Report, Subject, Told, fault_of, no_memory, unread_script, unread_text,
    unwritten_output, unwritten_text,
};
pub use tail::{Tailed, with_tail};
pub use trail::{Traced, with_trail};
