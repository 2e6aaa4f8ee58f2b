//! The lines of certificates that list Skolem terms, or an expansion list.
#![tactic(auto)]

mod listing;
mod nodes;
mod terms;
mod trees;
mod writer;
mod writing;

pub use qv_store::NoMemory;
pub use terms::term_lines;
pub use trees::expansion_lines;
pub use writing::Writing;
