//! The clause lists of formulas, in the literals that solvers and checkers read.
#![tactic(auto)]

pub mod laws;
