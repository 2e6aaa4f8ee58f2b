//! The lines that refuse a script, the texts of models, of the values of terms and of cores, and
//! values for all constants.
#![tactic(auto)]

mod cores;
mod ends;
mod filling;
mod kinds;
mod models;

pub use cores::{assumed_text, core_text};
pub use ends::{lex_line, nesting_line, parse_line};
pub use filling::all_values;
pub use kinds::{kind_text, refusal};
pub use models::{model_text, values_text};
