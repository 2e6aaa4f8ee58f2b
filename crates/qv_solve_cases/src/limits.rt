//! The limits of a record.

ghost use Rattle.std.specs.Prelude.{IsTrue};
ghost use Rattle.qv_meter.specs.Records.{AreLimits};
ghost use Rattle.qv_meter.specs.Views.{limits_of};

use qv_cases_rows::Words;
use qv_meter::Limits;

/// The limits that the next words name.
pub fn read_limits(words: &mut Words<'_>) -> Limits {
    Limits {
        conflicts: words.number::<u64>(),
        instances: words.number::<u64>(),
        variables: words.number::<u32>(),
    }
}

/// Whether a record may have these limits.
pub fn are_limits(limits: Limits) -> bool
    ensures { IsTrue result → AreLimits (limits_of limits) }
{
    let Limits {
        conflicts,
        instances,
        variables,
    } = limits;
    if conflicts < 1 || conflicts >= 1 << 60 {
        return false;
    }
    if instances < 1 || instances >= 1 << 60 {
        return false;
    }
    variables >= 1 && variables <= 1 << 30
}
