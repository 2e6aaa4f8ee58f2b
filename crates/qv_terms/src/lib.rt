//! Terms as boxed trees: their sorts, their values and replacement in them.
#![tactic(auto)]

mod evaluate;
mod replace;
mod sorts;
mod term;

pub use evaluate::{Values, eval};
pub use replace::{NoMemory, copy, subst};
pub use sorts::{SortFault, sort_of};
pub use term::Term;
