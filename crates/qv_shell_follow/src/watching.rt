//! Who is told of checks.

use qv_script::{Counts, Last};
use qv_shell_command::Course;

/// Who is told of checks while a script is followed. Nothing that a run comes to depends on it.
pub trait Watch {
    /// So many checks were answered, the newest with this answer and these counts. It is told behind
    /// each command, until that answer is forgotten.
    fn answered(&mut self, checks: u64, last: &Last, counts: Counts);
}

/// Nobody is told.
#[derive(Clone, Copy)]
pub struct Nobody;

impl Watch for Nobody {
    fn answered(&mut self, _checks: u64, _last: &Last, _counts: Counts) {}
}

// Tells of the newest check, where its answer is kept.
pub(crate) fn tell<W: Watch>(watch: &mut W, course: &Course) {
    if let (Some(last), Some(counts)) = (course.script.last(), course.script.counts()) {
        watch.answered(course.tally.checks, last, counts);
    }
}
