//! Quantified Boolean formulas in prenex clause form: what they mean, and as terms of a store.
#![tactic(auto)]

mod clauses;
mod faults;
mod files;
mod joining;
pub mod laws;
mod lexing;
mod outer;
mod parsing;
mod parts;
mod places;
mod putting;
mod reading;
mod translating;

pub use faults::{QdimacsFault, QdimacsKind};
pub use files::{Qdimacs, Quantified};
pub use reading::read_qdimacs;
pub use translating::{Translated, translate};
