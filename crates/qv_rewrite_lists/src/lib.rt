//! Lists of formulas behind passes, and which passes pay.
#![tactic(auto)]

mod measuring;
mod rewriting;
mod taking;

pub use qv_store::NoMemory;
pub use rewriting::{Rewritten, rewrite};
pub use taking::take;
