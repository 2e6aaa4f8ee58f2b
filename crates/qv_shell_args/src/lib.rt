//! The words of a command line, read into a call.
#![tactic(auto)]

mod calls;
mod commands;
mod complaints;
pub mod laws;
mod numbers;
mod reading;

pub use calls::{Budgets, Call, CallFault, Page, Settings};
pub use complaints::complaint;
pub use reading::call_of;
