//! Stores of terms that keep how their terms were split, and terms with places for their leaves.
#![tactic(auto)]

mod memo;
mod naming;
mod rebuilding;
mod sides;
mod split_store;
mod splitting;

pub use memo::Memo;
pub use naming::Names;
pub use qv_store::NoMemory;
pub use rebuilding::rename;
pub use sides::sides_of;
pub use split_store::{Sides, SplitStore};
