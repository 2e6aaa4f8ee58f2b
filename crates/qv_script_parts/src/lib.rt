//! The parts of commands, by the items of their expressions: names, keywords, counts, texts of
//! terms, and which term is asserted under which name; commands, logics and options by their
//! names, and what is printed of them.
#![tactic(auto)]

mod annotated;
mod command;
mod labels;
mod limits;
mod logics;
mod parts;
mod settings;
mod spacing;
mod texts;

pub use annotated::asserted_at;
pub use command::{Command, command_named};
pub use labels::{labels_below, labels_in, labels_listed};
pub use limits::limit_in;
pub use logics::is_logic;
pub use parts::{
    count_of, is_empty_list, is_numeral_at, keyword_at, parts_of, string_at, symbol_at, truth_at,
};
pub use settings::{default_line, setting_named};
pub use spacing::spaced;
pub use texts::{
    Info, info_line, info_named, levels_line, line, spent_text, statistics_line, unsupported,
};
