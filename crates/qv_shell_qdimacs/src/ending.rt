//! How a run over a file ends.

/// How the run over a file ended that was read whole.
#[derive(Clone, Copy)]
pub enum FileEnding {
    Answered,
    /// The text has a fault, or its file too many places.
    Faulty,
}
