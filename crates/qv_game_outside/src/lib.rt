//! What lies outside all regions of a block's owner at a level, where it leaves the owner no values.
//!
//! Where a few terms are all that the owner can do, its regions at a level are the whole condition
//! under which it wins there, and the other player wins wherever they are false. One question shows
//! that without a point: whether the clauses of lying outside them all, with those of the level's
//! query list behind them, have no model (`outside`). The same of the query list alone shows that the
//! owner has nothing anywhere (`never`). Each question has a budget of its own, which is charged to no
//! record.
#![tactic(auto)]

mod refuting;
mod regions;
mod tally;

pub use regions::{never, outside};
