//! Literals, clauses, clause lists with ids, the steps of refutations, and budgets of conflicts.
#![tactic(auto)]

mod blocks;
mod budgets;
mod clauses;
pub mod laws;
mod literals;
mod numbering;
mod packed;
mod readings;
mod steps;

pub use budgets::{Budget, Counter};
pub use clauses::ClauseList;
pub use literals::{Clause, Lit};
pub use packed::Packed;
pub use readings::Reading;
pub use steps::{Spent, Step};
