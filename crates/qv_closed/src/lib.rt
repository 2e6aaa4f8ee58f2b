//! Closure on gates of a whole clause list, and a core that has what it adds.
#![tactic(auto)]

mod closing;
mod copies;
mod feeding;
mod ids;
mod laying;

pub use closing::{Closed, close};
pub use copies::push_copies;
pub use ids::have_ids;
pub use laying::{Laid, laid_core};
