//! Terms of a store as rows write them, each argument before its operator, as `v0:8 8:3 bvadd`; and
//! whether such terms may be asserted together, as drivers ask before they pose them.
#![tactic(auto)]

mod closed;
mod fitting;
mod leaf_sorts;
mod parsing;
mod posable;
mod putting;
mod reading;
mod saying;

pub use fitting::{has, have_words, is_plain, value};
pub use parsing::{operator, sort, sorts, word, words};
pub use posable::may_be_posed;
pub use reading::{some_terms, term, terms};
pub use saying::{
    say_binder, say_leaf, say_node, say_operator, say_sort, say_term, say_terms, say_word,
};
