//! Commands and what they do, as definitions, and their laws; their faults and effects.
#![tactic(auto)]

mod counts;
mod effects;
mod faults;
pub mod laws;
mod settings;

pub use counts::Counts;
pub use effects::{Effect, ValueTerm};
pub use faults::{ScriptFault, ScriptKind, SpentWord, fault_at};
pub use settings::Setting;
