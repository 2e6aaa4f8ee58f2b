//! Verdicts on sections.

use qv_cert::RefusalKind;
use qv_words::Answer;

/// How a section ends.
#[derive(Clone, Copy, Debug, PartialEq, Eq)]
pub enum Verdict {
    Accepted(Answer),
    /// The kind is the first that fits at the line.
    Refused { line: u64, kind: RefusalKind },
    /// The problem has more than 4,096 variables.
    PrefixLimit,
    /// The source failed.
    ReadFault,
    /// `qv_io::LIMIT` bytes or more were taken, and more are wanted.
    ReadLimit,
    NoMemory,
}
