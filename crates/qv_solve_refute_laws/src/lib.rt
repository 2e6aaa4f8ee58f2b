//! Laws of final lists: they have no model, and what refutes them may be charged and written.
#![tactic(auto)]

pub mod laws;
