//! What is answered about asserted formulas, with a section of a certificate for the answer.
#![tactic(auto)]

mod answering;
mod fault;
mod offered;
mod solved;
mod solving;

pub use fault::SolveFault;
pub use qv_solve_draw::ConstValue;
pub use solved::Solved;
pub use solving::solve_one;
