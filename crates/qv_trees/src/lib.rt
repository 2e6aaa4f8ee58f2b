//! From terms of a store to boxed trees and back, which goes down the tree, as boxed trees do; and
//! terms copied into a store of their own, so that what is done there costs by them alone.
#![tactic(auto)]

mod copying;
mod growing;
mod planting;
mod renumbering;

pub use copying::{Copied, copy_terms};
pub use growing::grow;
pub use planting::plant;
