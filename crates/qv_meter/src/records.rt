//! Records of what was charged for.

use qv_store::{Problem, Store};

/// How much may be charged: each count from 1 on, below 2^60, and variables up to 2^30.
#[derive(Clone, Copy, Debug, PartialEq, Eq)]
pub struct Limits {
    pub conflicts: u64,
    pub instances: u64,
    pub variables: u32,
}

/// What a record may be spent in.
#[derive(Clone, Copy, Debug, PartialEq, Eq)]
pub enum SpentKind {
    Conflicts,
    Instances,
    Variables,
}

/// A problem that is kept in a store of its own, with a tally of conflicts for each lane.
#[derive(Drop)]
pub struct Kept {
    pub store: Store,
    pub problem: Problem,
    pub tallies: Vec<u64>,
}

/// What was charged for one problem.
#[derive(Drop)]
pub struct Record {
    pub problem: Option<Kept>,
    pub limits: Limits,
    pub conflicts: u64,
    pub instances: u64,
    pub over: bool,
}
