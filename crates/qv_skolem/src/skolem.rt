//! Skolem terms.

use qv_store::Id;

/// The term of an existential place, over the universal places before it.
#[derive(Clone, Copy, Debug, PartialEq, Eq)]
pub struct Skolem {
    pub place: u64,
    pub term: Id,
}
