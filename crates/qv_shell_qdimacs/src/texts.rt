//! What is printed of a file.

ghost use Rattle.std.specs.Prelude.{◌≡◌, ◌++◌, ◌∷◌, OnOk, length};
ghost use Rattle.qv_qdimacs.specs.Outer.{given};
ghost use Rattle.qv_shell_qdimacs.specs.Texts.{fault_word, literal_text, values_line};

use itoa::Buffer;
use qv_qdimacs::QdimacsKind;
use std::alloc::AllocError;

/// What too many places are called.
pub(crate) const LIMIT_WORD: &str = "prefix limit";

/// The name of a fault.
pub(crate) fn fault_word(kind: QdimacsKind) -> &'static str
    ensures { result.now ≡ fault_word kind }
{
    match kind {
        QdimacsKind::ProblemLine => "problem line",
        QdimacsKind::Number => "number",
        QdimacsKind::Unfinished => "unfinished",
        QdimacsKind::Repeated => "repeated",
        QdimacsKind::Quantifier => "quantifier",
    }
}

/// Adds the line of the outer variables with a value each.
pub(crate) fn push_values(
    outer: &[u32],
    values: &[bool],
    text: &mut Vec<u8>,
) -> Result<(), AllocError>
    requires { length values.now ≡ length outer.now }
    ensures { OnOk result (text.new.items
        ≡ text.old.items ++ values_line (given outer.now values.now)) }
{
    text.push(b'v')?;
    'literals: for at in 0..outer.len() {
        push_literal(outer[at], values[at], text)?;
    }
    text.extend_from_slice(b" 0\n")
}

// Adds a space and the literal that a variable's value makes true.
fn push_literal(variable: u32, value: bool, text: &mut Vec<u8>) -> Result<(), AllocError>
    ensures { OnOk result (text.new.items
        ≡ text.old.items ++ 32 ∷ literal_text variable value) }
{
    text.push(b' ')?;
    if !value {
        text.push(b'-')?;
    }
    text.extend_from_slice(Buffer::new().format(variable).as_bytes())
}
