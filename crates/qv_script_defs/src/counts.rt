//! What a check was charged for.

/// The counts of a check's record, and the greatest variable of the clauses that its section
/// refutes, 0 where it refutes none.
#[derive(Clone, Copy, Debug, PartialEq, Eq)]
pub struct Counts {
    pub conflicts: u64,
    pub instances: u64,
    pub variables: u32,
}
