//! The whole program as one function over sources and sinks: it solves a script or a quantified Boolean
//! formula, checks a certificate beside it, trims one, lists its clauses, checks the proof of a SAT
//! solver, writes the generator's scripts, or does all of it in memory.
#![tactic(auto)]

mod bench;
mod checking;
mod clauses;
mod formulas;
mod opening;
mod pages;
mod planning;
mod program;
mod proving;
mod solving;
mod trimming;

pub use opening::Plan;
pub use planning::plan;
pub use program::run;
pub use qv_gen::Status;
pub use qv_shell_follow::{Counts, Last, Nobody, Watch};
