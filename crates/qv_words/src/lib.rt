//! Sorts, words and operators of the theory of fixed-size bit-vectors, and what terms over them
//! mean.
#![tactic(auto)]

pub mod bit_laws;
mod bits;
pub mod definition_laws;
mod division;
pub mod inverse_laws;
pub mod laws;
mod op;
mod overflow;
mod parts;
mod rank;
mod rule;
mod shifts;
mod signs;
mod sort;
mod sums;
mod word;

pub use op::{Answer, Op, apply};
pub use rank::result_sort;
pub use rule::{RULES, Rule, name_of_rule, rule_named};
pub use sort::Sort;
pub use word::Word;
