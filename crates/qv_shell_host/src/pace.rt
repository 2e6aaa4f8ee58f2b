//! Lines on standard error behind answers, one a second at most.

use crate::report::{Report, Told};
use std::rt::Clock;
use std::time::Instant;

// How many seconds apart two lines are at least.
const APART: u64 = 1;

/// When a run began, and when its newest check was said last.
#[derive(Drop)]
pub struct Pace<'a, R> {
    clock: &'a R,
    report: Report,
    began: Instant,
    said: Option<Instant>,
}

impl<'a, R: Clock> Pace<'a, R> {
    /// Begins now, where the clock says when that is.
    pub fn begin(clock: &'a R, report: Report) -> Option<Pace<'a, R>> {
        match Instant::now(clock) {
            Ok(began) => Some(Pace {
                clock,
                report,
                began,
                said: None,
            }),
            Err(_) => None,
        }
    }

    /// Says what is told of a check, where the last line is far enough away.
    pub fn say(&mut self, told: Told) {
        let Ok(now) = Instant::now(self.clock) else {
            return;
        };
        let is_due = match self.said {
            Some(said) => now.duration_since(said).as_secs() >= APART,
            None => true,
        };
        if is_due {
            let seconds = now.duration_since(self.began).as_secs();
            self.report.progress(told, seconds);
            self.said = Some(now);
        }
    }
}
