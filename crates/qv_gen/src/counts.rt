//! How many checks have which answer, as it is printed.

ghost use Rattle.std.specs.Prelude.{◌≡◌, ◌++◌, IfOk};
ghost use Rattle.qv_gen.specs.Counts.{counts_text};

use std::alloc::{AllocError, Global};

/// How many checks there were, and how many of them have each answer.
#[derive(Clone, Copy)]
pub struct Counts {
    pub checks: u64,
    pub sat: u64,
    pub unsat: u64,
    pub unknown: u64,
}

/// A line for each count, with its name before it, and a text behind them.
pub fn counts_text(alloc: Global, counts: Counts, behind: &[u8]) -> Result<Vec<u8>, AllocError>
    ensures { IfOk result (λ text. text.items ≡ counts_text counts ++ behind.now) }
{
    let Counts {
        checks,
        sat,
        unsat,
        unknown,
    } = counts;
    let lines = format!(in alloc;
        "checks {checks}\nsat {sat}\nunsat {unsat}\nunknown {unknown}\n"
    )?;
    let mut text = lines.into_bytes();
    text.extend_from_slice(behind)?;
    Ok(text)
}
