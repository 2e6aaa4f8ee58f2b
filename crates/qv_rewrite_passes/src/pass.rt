//! The passes by which certificates rewrite formulas, and their names.

ghost use Rattle.std.specs.Prelude.{◌≡◌};
ghost use Rattle.qv_rewrite_passes.specs.Names.{name_of_pass, pass_named};

use qv_words::{Rule, name_of_rule, rule_named};

/// What a `w` line of a certificate does to the list of formulas.
#[derive(Clone, Copy, Debug, PartialEq, Eq)]
pub enum Pass {
    /// Each application is rewritten once, where the rule fits.
    By(Rule),
    /// Each word becomes the term of a sum of products modulo a power of two.
    Sum,
    /// Each term becomes that of a chain of exclusive or.
    Xor,
    /// Each application is rewritten by small rules.
    Simp,
}

/// The name of a pass.
pub fn name_of_pass(pass: Pass) -> &'static [u8]
    ensures { result.now ≡ name_of_pass pass }
{
    match pass {
        Pass::By(rule) => name_of_rule(rule),
        Pass::Sum => b"sum",
        Pass::Xor => b"xor",
        Pass::Simp => b"simp",
    }
}

/// The pass of a name, where one has it.
pub fn pass_named(name: &[u8]) -> Option<Pass>
    ensures { result ≡ pass_named name.now }
{
    if name == b"sum".as_slice() {
        Some(Pass::Sum)
    } else if name == b"xor".as_slice() {
        Some(Pass::Xor)
    } else if name == b"simp".as_slice() {
        Some(Pass::Simp)
    } else {
        rule_named(name).map(Pass::By)
    }
}
