//! The commands that read terms, over what a script holds in a store: assertions, definitions,
//! assumptions, and terms whose values are asked for. Each is called with the items at which its
//! arguments begin.
#![tactic(auto)]

mod asking;
mod assuming;
mod defining;
mod labels;
mod terms;

pub use asking::get_value;
pub use assuming::check_sat_assuming;
pub use defining::{define_const, define_fun};
pub use labels::label_all;
pub use terms::assert;
