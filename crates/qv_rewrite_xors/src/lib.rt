//! Terms of a store as chains of exclusive or, and as the terms of these chains.
#![tactic(auto)]

mod building;
mod chained;
mod xoring;

pub use qv_store::NoMemory;
pub use xoring::xor;
