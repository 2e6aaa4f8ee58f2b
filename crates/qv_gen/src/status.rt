//! How a run ends.

/// How a run ends: 0 done, 1 the script was refused, 2 the words were refused, 3 a source failed or
/// its byte limit was met, 4 a sink failed, 5 want of memory, 6 the certificate was refused.
pub type Status = u8;
