//! What a term is to a sweep, and what a sweep makes of it.

use crate::args::Args;
use qv_store::Id;
use qv_words::Op;

// What a term is to a sweep: no application, an application with an argument of which nothing was
// made yet, or one to arguments that were made.
#[derive(Clone, Copy)]
pub(crate) enum Found {
    Leaf,
    Missing(Id),
    Ready(Op, Args),
}

// What is made of a term, or what has to be made first.
#[derive(Clone, Copy)]
pub(crate) enum Step {
    Made(Id),
    First(Id),
}
