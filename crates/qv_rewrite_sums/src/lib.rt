//! Terms of a store as sums of products modulo a power of two, and as the terms of these sums.
#![tactic(auto)]

mod adding;
mod building;
mod combining;
mod numbers;
mod ordering;
mod parts;
mod product;
mod summing;
mod zero;

pub use building::put_two;
pub use numbers::ones;
pub use ordering::terms_in_order;
pub use qv_store::NoMemory;
pub use summing::sum;
