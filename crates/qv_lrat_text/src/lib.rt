//! Lines of LRAT proofs, as text.
#![tactic(auto)]

pub mod decimal;
mod fault;
pub mod laws;
mod line_reader;
mod number;
mod printing;
mod reading;
pub mod words;

pub use fault::{LineFault, NoMemory};
pub use line_reader::LineReader;
pub use printing::print_line;
pub use reading::read_line;
