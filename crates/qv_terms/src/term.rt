//! Terms as trees that own their parts.

use qv_words::{Op, Sort, Word};

/// A term, as a tree that owns its parts.
#[derive(Debug, Drop)]
pub enum Term {
    Const {
        index: u64,
        sort: Sort,
    },
    Var {
        level: u64,
        sort: Sort,
    },
    Lit {
        word: Word,
    },
    App {
        op: Op,
        kids: Vec<Term>,
    },
    All {
        level: u64,
        sort: Sort,
        body: Box<Term>,
    },
    Ex {
        level: u64,
        sort: Sort,
        body: Box<Term>,
    },
}
