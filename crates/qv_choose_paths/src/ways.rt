//! How a place stands in a term: the ways down to it.

use qv_store::Id;
use qv_terms::Term;

/// A place of a block, of which the block's first place and the first one behind it are given.
#[derive(Clone, Copy)]
pub struct Place {
    pub first: u64,
    pub end: u64,
    pub level: u64,
}

/// How the place stands in a term: it isn't there; it is, but what is found for it there has a place
/// of the block in it, or nothing is; or each target leads to a term, which has such a place only
/// where the target has one.
#[derive(Clone, Copy)]
pub enum Way {
    Absent,
    Hidden,
    Open,
}

/// What a term shows of a place: whether some place of its block stands in the term, and how the
/// place does.
#[derive(Clone, Copy)]
pub struct Look {
    pub inside: bool,
    pub way: Way,
}

/// A step down to an argument: the row of the operator for it, the other argument, if there is one,
/// and the argument.
#[derive(Drop)]
pub struct Step {
    pub row: Term,
    pub other: Option<Id>,
    pub next: Id,
}
