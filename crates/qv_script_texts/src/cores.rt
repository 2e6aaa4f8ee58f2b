//! Cores.

ghost use Rattle.std.specs.Prelude.{◌≡◌, IfOk};
ghost use Rattle.qv_script_defs.specs.Moves.{symbols_of};
ghost use Rattle.qv_script_stack.specs.Held.{named_of, terms_of};
ghost use Rattle.qv_script_texts.specs.Printing.{core_text};

use qv_script::{Named, Script};
use qv_script_values::push_symbol;
use qv_store::NoMemory;
use std::alloc::Global;

/// The names of the assertions at these places.
pub fn core_text(alloc: Global, kept: &[u64], named: &[Named]) -> Result<Vec<u8>, NoMemory>
    ensures { IfOk result (λ text.
        text.items ≡ core_text kept.now (symbols_of (named_of named.now))) }
{
    let mut text = Vec::from_slice(alloc, b"(")?;
    let mut gap = b"".as_slice();
    'named: for own in named {
        if kept.contains(&own.assertion) {
            text.extend_from_slice(gap)?;
            push_symbol(&own.name, &mut text)?;
            gap = b" ";
        }
    }
    text.extend_from_slice(b")\n")?;
    Ok(text)
}

/// What the last check assumed at these places, as it is written.
pub fn assumed_text(alloc: Global, kept: &[u64], script: &Script) -> Result<Vec<u8>, NoMemory>
    ensures { IfOk result (λ text. text.items ≡ core_text kept.now (terms_of script.now)) }
{
    let first = script.assertions().len();
    let terms = script.terms();
    let mut text = Vec::from_slice(alloc, b"(")?;
    let mut gap = b"".as_slice();
    'assumed: for i in 0..terms.len() {
        let place = (first + i) as u64;
        if kept.contains(&place) {
            text.extend_from_slice(gap)?;
            text.extend_from_slice(&terms[i])?;
            gap = b" ";
        }
    }
    text.extend_from_slice(b")\n")?;
    Ok(text)
}
