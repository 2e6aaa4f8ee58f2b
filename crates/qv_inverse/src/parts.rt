//! The row of extracts.

ghost use Rattle.std.specs.Prelude.{◌≡◌, ◌≤◌, ◌<◌, ◌-◌, IfOk};
ghost use Rattle.qv_words.specs.Inverse.{zeros_before, zeros_behind};
ghost use Rattle.qv_terms.specs.View.{tree};

use crate::building::{app2, number};
use qv_terms::{NoMemory, Term};
use qv_words::Op;
use std::alloc::Global;

// The term with zeros around it, in the place of the bits from the high one down to the low one
// among so many.
pub(crate) fn extraction_row(
    alloc: Global,
    width: u8,
    high: u128,
    low: u128,
    t: Term,
) -> Result<Term, NoMemory>
    requires fits { width ≤ 128 }
    requires inside { high < width }
    requires order { low ≤ high }
    ensures { IfOk result (λ row. tree row
        ≡ zeros_before (width - 1 - high) (zeros_behind low (tree t))) }
{
    let behind = with_zeros_behind(alloc, low as u8, t)?;
    with_zeros_before(alloc, width - 1 - high as u8, behind)
}

// The term with so many zeros before it.
fn with_zeros_before(alloc: Global, count: u8, t: Term) -> Result<Term, NoMemory>
    requires { count ≤ 128 }
    ensures { IfOk result (λ row. tree row ≡ zeros_before count (tree t)) }
{
    if count == 0 {
        return Ok(t);
    }
    app2(alloc, Op::Concat, number(count, 0), t)
}

// The term with so many zeros behind it.
fn with_zeros_behind(alloc: Global, count: u8, t: Term) -> Result<Term, NoMemory>
    requires { count ≤ 128 }
    ensures { IfOk result (λ row. tree row ≡ zeros_behind count (tree t)) }
{
    if count == 0 {
        return Ok(t);
    }
    app2(alloc, Op::Concat, t, number(count, 0))
}
