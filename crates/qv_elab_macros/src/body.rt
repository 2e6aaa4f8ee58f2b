//! Bodies of definitions, as they are kept.

use qv_store::Id;

/// What a definition's own reading gave: the term of its body, in which the i-th parameter is the
/// variable of level i, and how deep each parameter stands at most below an expression of the body.
#[derive(Debug, Drop)]
pub struct Body {
    pub id: Id,
    pub depths: Vec<u64>,
}
