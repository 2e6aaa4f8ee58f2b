//! Expansion trees.

use qv_store::Id;

/// A line below its parent, which is an earlier line's number, counted from 1, or 0 for the root.
/// The universal there is a term, or the existential there is the variable whose level is the
/// line's number.
#[derive(Clone, Copy, Debug, PartialEq, Eq)]
pub struct TreeLine {
    pub parent: u64,
    pub instance: Option<Id>,
}

/// The lines of an expansion tree, in order.
#[derive(Debug, Drop)]
pub struct Tree {
    pub lines: Vec<TreeLine>,
}
