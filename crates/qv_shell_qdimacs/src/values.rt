//! Values of the outer variables, by those of the constants.

ghost use Rattle.std.specs.Prelude.{◌≡◌, ◌<◌, All, IfOk, length, replicate, false};
ghost use Rattle.qv_shell_qdimacs.specs.Values.{filled};

use qv_solve::ConstValue;
use std::alloc::{AllocError, Global};

/// So many values: those that are given, by their indices, and else false.
pub(crate) fn all_values(
    alloc: Global,
    count: usize,
    given: &[ConstValue],
) -> Result<Vec<bool>, AllocError>
    requires { All (λ v. v.index < count) given.now }
    ensures { IfOk result (λ values. values.items ≡ filled (replicate count false) given.now) }
{
    let mut values = vec![in alloc; false; count]?;
    set_all(&mut values, given);
    Ok(values)
}

// Sets the values that are given.
fn set_all(values: &mut [bool], given: &[ConstValue])
    requires { All (λ v. v.index < length values.old) given.now }
    ensures { values.new ≡ filled values.old given.now }
{
    'places: for value in given {
        values[value.index as usize] = value.word.value() == 1;
    }
}
