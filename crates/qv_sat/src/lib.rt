//! A clause-learning SAT core. Each clause that it learns is charged to a budget.
#![tactic(auto)]

mod analysing;
mod aside;
mod choosing;
mod cores;
mod database;
mod deciding;
mod failing;
pub mod laws;
mod levels;
mod outcomes;
mod places;
mod questions;
mod reduce;
mod restarts;
mod solver;
mod work;

pub use cores::Core;
pub use outcomes::{Outcome, SatFault};
pub use work::{Policy, Work};
