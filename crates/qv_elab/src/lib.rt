//! Terms of expressions in a store: what an expression is, or its first fault.
#![tactic(auto)]

mod bodies;
mod elaborating;
mod entering;
mod parameters;

pub use bodies::{Parameter, elaborate_body};
pub use elaborating::elaborate;
pub use parameters::{are_parameters, read_parameters};
pub use qv_elab_defs::{ElabFault, ElabKind};
pub use qv_elab_items::{Names, are_attributes, behind, keyword_in, name_in, number_in, text_of};
pub use qv_elab_macros::Body;
pub use qv_elab_scope::{Kept, Scope, ScopeFault, scoped_sort};
