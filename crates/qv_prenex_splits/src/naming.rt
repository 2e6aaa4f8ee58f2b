//! Places for constants and for variables that are bound outside.

ghost use Rattle.std.specs.Prelude.{◌≡◌, ◌<◌, [], Some, IfOk, length};
ghost use Rattle.qv_words.specs.Sort.{IsLawful};
ghost use Rattle.qv_words.specs.Tree.{Variable};
ghost use Rattle.qv_store.specs.Nodes.{tree_at};
ghost use Rattle.qv_store.specs.Stores.{AreShared, Grows};
ghost use Rattle.qv_prenex_splits.specs.Rebuilt.{IsPutAt};
ghost use Rattle.qv_prenex_splits.specs.Naming.{IsLeafOf};

use crate::split_store::SplitStore;
use indexmap::IndexSet;
use qv_store::{Id, NoMemory, Node};
use qv_words::Sort;
use std::alloc::Global;
use std::collections::HashMap;

/// What stands for constants and variables.
#[derive(Drop)]
pub struct Names {
    /// The indices of the constants, in the order of their places.
    pub constants: IndexSet<u64>,
    /// The variables for those that are bound outside, by their levels.
    pub outer: HashMap<u64, Id>,
}

// A leaf for which something may be put.
#[derive(Clone, Copy)]
enum Leaf {
    Constant(u64, Sort),
    Variable(u64),
    Other,
}

impl Names {
    ghost use Rattle.qv_prenex_splits.specs.Naming.{place_of, leaf_top, outer_of, AreTermsOf};

    /// No names.
    pub fn new(alloc: Global) -> Names
        ensures constants { result.constants.keys ≡ [] }
        ensures outer { result.outer.entries ≡ [] }
    {
        Names {
            constants: IndexSet::new(alloc),
            outer: HashMap::new(alloc),
        }
    }

    // What is put for a term as a whole: a place for a constant, and its variable for one that is
    // bound outside.
    pub(crate) fn top(&self, store: &mut SplitStore, id: Id) -> Result<Option<Id>, NoMemory>
        requires id { id < length store.old }
        requires outer { AreTermsOf store.old self.now.outer }
        ensures put { IfOk result (IsPutAt store.new
            (leaf_top (place_of self.now.constants.keys) (outer_of store.old self.now.outer)
            (tree_at store.old id))) }
        ensures grows { Grows store.old store.new }
        ensures shared { AreShared store.new }
    {
        match leaf_of(store, id) {
            Leaf::Constant(index, sort) => put_variable(store, self.place(index), sort),
            Leaf::Variable(level) => Ok(self.outer.get(&level).copied()),
            Leaf::Other => Ok(None),
        }
    }

    // The place of a constant.
    fn place(&self, index: u64) -> u64
        ensures { result ≡ place_of self.now.constants.keys index }
    {
        self.constants
            .get_index_of(&index)
            .unwrap_or(self.constants.len()) as u64
    }
}

// What a term is.
fn leaf_of(store: &SplitStore, id: Id) -> Leaf
    requires { id < length store.now }
    ensures leaf { IsLeafOf (tree_at store.now id) result }
    ensures shared { AreShared store.now }
{
    match store.node(id) {
        Node::Const { index, sort } => Leaf::Constant(*index, *sort),
        Node::Var { level, .. } => Leaf::Variable(*level),
        _ => Leaf::Other,
    }
}

// The variable of a place.
fn put_variable(store: &mut SplitStore, place: u64, sort: Sort) -> Result<Option<Id>, NoMemory>
    requires { IsLawful sort }
    ensures put { IfOk result (IsPutAt store.new (Some (Variable place sort))) }
    ensures grows { Grows store.old store.new }
    ensures shared { AreShared store.new }
{
    Ok(Some(store.put(Node::Var { level: place, sort })?))
}
