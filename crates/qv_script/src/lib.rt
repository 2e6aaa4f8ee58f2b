//! Scripts: what they hold in a store, and their commands, each by its name with its arguments.
#![tactic(auto)]

mod script;
mod step;

pub use qv_script_defs::{Counts, Effect, ScriptFault, ScriptKind, SpentWord, ValueTerm};
pub use qv_script_stack::{Declared, Last, Named};
pub use script::Script;
