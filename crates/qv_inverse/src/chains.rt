//! The row of amounts of shifts.

ghost use Rattle.std.specs.Prelude.{◌≡◌, ◌≤◌, ◌<◌, IfOk};
ghost use Rattle.qv_words.specs.Inverse.{amount_row, number, other_term, target_term};
ghost use Rattle.qv_words.specs.Prenex.{binary, ite};
ghost use Rattle.qv_terms.specs.View.{tree};

use crate::building::{Leaves, amount, app2, choice};
use qv_terms::{NoMemory, Term};
use qv_words::Op;
use std::alloc::Global;

// The first amount by which the shift makes the target of the other argument, and the width where
// none does: a chain of choices.
pub(crate) fn amount_row(
    alloc: Global,
    shift: Op,
    width: u8,
    leaves: Leaves,
) -> Result<Term, NoMemory>
    requires low { 1 ≤ width }
    requires high { width ≤ 128 }
    ensures { IfOk result (λ row. tree row
        ≡ amount_row shift width (other_term leaves.other) (target_term leaves.target)) }
{
    let mut chain = amount(width, width);
    for passed in 0..width {
        let by = width - 1 - passed;
        chain = amount_choice(alloc, shift, width, leaves, by, chain)?;
    }
    Ok(chain)
}

// An amount where it makes the target, and the rest of a chain where it doesn't.
fn amount_choice(
    alloc: Global,
    shift: Op,
    width: u8,
    leaves: Leaves,
    by: u8,
    rest: Term,
) -> Result<Term, NoMemory>
    requires high { width ≤ 128 }
    requires below { by < width }
    ensures { IfOk result (λ row. tree row
        ≡ ite (binary Op.Equal (binary shift (other_term leaves.other) (number width by))
        (target_term leaves.target)) (number width by) (tree rest)) }
{
    let shifted = app2(alloc, shift, leaves.other(), amount(width, by))?;
    let is_target = app2(alloc, Op::Equal, shifted, leaves.target())?;
    choice(alloc, is_target, amount(width, by), rest)
}
