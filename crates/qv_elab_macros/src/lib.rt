//! Uses of definitions: the term of a definition's own reading with arguments put in, and how deep
//! its parameters stand.
#![tactic(auto)]

mod body;
mod standing;
mod using;

pub use body::Body;
pub use standing::{Watched, reading_of};
pub use using::use_definition;
