//! Runs of adjacent bits.

/// Adjacent bits of a place, from the low one up to the high one.
#[derive(Clone, Copy, Debug, PartialEq, Eq)]
pub struct Run {
    pub place: u64,
    pub high: u8,
    pub low: u8,
}
