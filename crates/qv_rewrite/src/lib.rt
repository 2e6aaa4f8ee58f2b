//! Terms of a store, rewritten to terms of the same value by rules that have names.
#![tactic(auto)]

mod args;
mod further_rules;
mod nodes;
mod passing;
mod rebuilding;
mod rewriting;
mod rules;
mod simplifying;
mod steps;
mod sweeping;

pub use passing::pass;
pub use qv_store::NoMemory;
pub use qv_words::{name_of_rule, rule_named};
pub use simplifying::simplify;
