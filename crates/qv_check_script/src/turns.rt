//! What one more command, or what ends a script, leads to.

use crate::ending::Ending;

/// A text that is written, and behind it further commands or the end.
#[derive(Debug, Drop)]
pub enum Turn {
    Goes(Vec<u8>),
    Ended(Vec<u8>, Ending),
}
