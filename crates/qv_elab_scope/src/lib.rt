//! What a scope keeps in a store for its names, sorts by their expressions, what stands at the head
//! of an application, the terms that names and heads with their arguments stand for, and quantifiers,
//! whose variables are bound as names, and closed over behind their bodies.
#![tactic(auto)]

mod closing;
mod headed;
mod heads;
pub mod laws;
mod leaves;
mod resolving;
mod scope;
mod sorts;
mod variables;
mod watching;

pub use closing::close_over;
pub use headed::apply_watched;
pub use heads::Head;
pub use leaves::{leaf, put_written};
pub use resolving::head_of;
pub use scope::{Kept, Scope, ScopeFault};
pub use sorts::scoped_sort;
pub use variables::bind_variables;
