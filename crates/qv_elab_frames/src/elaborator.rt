//! Where elaboration is, and the expressions that are open around the part that is read.

ghost use Rattle.std.specs.Prelude.{◌≡◌};
ghost use Rattle.qv_elab_frames.specs.Loop.{state_of, nothing_open, begun};

use qv_elab_items::NamedIds;
use qv_elab_macros::Watched;
use qv_elab_scope::Head;
use qv_store::Id;
use std::alloc::Global;

/// An expression that is open around the part that is read. Items are named by their numbers.
#[derive(Clone, Copy)]
pub enum Open {
    /// An application, with the item that is its head. The arguments so far are those from `first`
    /// on.
    Application {
        place: u64,
        head: Head,
        head_at: u64,
        first: usize,
    },
    /// A `let` at the term of the name that stands at an item. Its names so far are those from
    /// `start` on.
    Let {
        at: u64,
        start: usize,
    },
    /// A quantifier, with the place of its body. So many names were bound around it.
    Quantifier {
        place: u64,
        inner: u64,
        is_universal: bool,
        bound: usize,
    },
    /// What stands for the same as its part, and is closed at an item. So many names were bound
    /// around it.
    Passing {
        close: u64,
        bound: usize,
    },
}

/// What comes next: an expression that begins at an item, or what is open around one that ended
/// before an item and stands for a term.
#[derive(Clone, Copy)]
pub enum Next {
    Read { at: u64 },
    Made { id: Id, at: u64 },
}

/// Where elaboration is.
#[derive(Drop)]
pub struct Elaborator {
    pub alloc: Global,
    /// The innermost is the last.
    pub open: Vec<Open>,
    /// The arguments so far of all open applications.
    pub done: Vec<Id>,
    /// The names that are bound where the part stands.
    pub bound: NamedIds,
    /// The names of the open `let`s whose bodies aren't reached.
    pub pending: NamedIds,
    /// How many binders are open where the part stands.
    pub binders: u64,
    /// What was looked at for its depth: the terms of applications and quantifiers, and the
    /// arguments of uses at the depths of their parameters.
    pub watched: Vec<Watched>,
}

impl Elaborator {
    /// Nothing is open.
    pub fn new(alloc: Global) -> Elaborator
        ensures { state_of result ≡ nothing_open }
    {
        Elaborator::below(alloc, NamedIds::new(alloc), 0)
    }

    /// Nothing is open, below so many binders with these names.
    pub fn below(alloc: Global, bound: NamedIds, binders: u64) -> Elaborator
        ensures { state_of result ≡ begun bound binders }
    {
        Elaborator {
            alloc,
            open: Vec::new(alloc),
            done: Vec::new(alloc),
            bound,
            pending: NamedIds::new(alloc),
            binders,
            watched: Vec::new(alloc),
        }
    }
}
