//! The expressions of an SMT-LIB script, read from a source one command at a time.
#![tactic(auto)]

mod answers;
mod building;
mod input;
mod items;
mod laws;
mod reader;

pub use answers::{Next, ParseFault, ParseKind, Stop};
pub use building::NESTING_LIMIT;
pub use items::{Expr, Item, ItemKind};
pub use laws::{constants_are_the_numbers, given_is_counted};
pub use reader::Reader;

/// There is no memory for what a call needs.
pub type NoMemory = std::alloc::AllocError;
