//! Variables in the order of their activity.
#![tactic(auto)]

mod orders;
mod tournament;

pub use orders::Order;
