//! The arguments of an application, and what a table makes of one of them.

use qv_rewrite_passes::Outcome;
use qv_store::Id;

// The arguments of an application. No operator takes more than three.
#[derive(Clone, Copy)]
pub(crate) enum Args {
    One(Id),
    Two(Id, Id),
    Three(Id, Id, Id),
}

// An argument, and what is made of it.
#[derive(Clone, Copy)]
pub(crate) struct Picked {
    pub(crate) id: Id,
    pub(crate) outcome: Outcome,
}
