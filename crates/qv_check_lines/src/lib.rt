//! The last parts of a section, while it is read: the passes that rewrite its formulas, and the
//! refutation of their clauses, with what the parts before share: lines, and verdicts.
#![tactic(auto)]

mod lines;
mod refutation;
mod rewriting;
mod steps;
mod verdict;

pub use lines::{Numbered, Place, next_line};
pub use refutation::{check_refutation, check_rewriting};
pub use rewriting::{read_passes, take_line};
pub use verdict::Verdict;
