//! Lines that were written.

use qv_cert::Line;
use qv_cert_nodes::Listed;

/// Lines of a section, and what they list.
#[derive(Debug, Drop)]
pub struct Writing {
    pub lines: Vec<Line>,
    pub listed: Listed,
}
