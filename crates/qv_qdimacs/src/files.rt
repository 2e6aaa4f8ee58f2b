//! Files: a prefix and clauses.

use qv_cnf::Packed;
use qv_store::Quant;

/// A quantifier and its variable.
#[derive(Clone, Copy)]
pub struct Quantified {
    pub quant: Quant,
    pub variable: u32,
}

/// A quantified formula: its prefix from the outside, and its clauses in order.
#[derive(Drop)]
pub struct Qdimacs {
    pub prefix: Vec<Quantified>,
    pub clauses: Packed,
}
