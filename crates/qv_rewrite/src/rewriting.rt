//! By which rules the applications of terms are rewritten.

use qv_words::Rule;

// By the rule of a pass, or by all rules of passes and the further ones behind them.
#[derive(Clone, Copy)]
pub(crate) enum Rewriting {
    Pass(Rule),
    Simplify,
}
