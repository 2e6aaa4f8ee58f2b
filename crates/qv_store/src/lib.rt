//! Terms as numbered nodes that are shared, and problems over them.
#![tactic(auto)]

mod evaluating;
mod facts;
mod id;
mod node;
mod problem;
mod replacing;
mod store;
mod walk;

pub use id::Id;
pub use node::Node;
pub use problem::{Place, Problem, Quant};
pub use store::{NoMemory, Store};
pub use walk::Walk;
