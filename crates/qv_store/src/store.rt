//! Stores of terms, in which equal terms have one id.

ghost use Rattle.std.specs.Prelude.{◌≡◌, ◌<◌, ◌^◌, ◌↔◌, Some, [], All, IsTrue, IfOk, OnOk, OnErr};
ghost use Rattle.std.specs.Prelude.{length};
ghost use Rattle.std.specs.Bool.{OnFalse};
ghost use Rattle.qv_words.specs.Tree.{tree_sort, IsQuantifierFree};
ghost use Rattle.qv_words.specs.Sorted.{IsSorted};
ghost use Rattle.qv_words.specs.Prenex.{is_quantified};
ghost use Rattle.qv_store.specs.Depth.{depth_of};

use crate::facts::Facts;
use crate::id::Id;
use crate::node::Node;
use indexmap::IndexSet;
use qv_words::Sort;
use std::alloc::{AllocError, Global};
use std::hash::{BuildHasherDefault, DefaultHasher};
use std::marker::Model;

/// Memory ran out.
pub type NoMemory = AllocError;

// An id has 32 bits, as has a place in the set of nodes.
const MOST_NODES: usize = 4_294_967_295;

// Literals come from scripts. Under the default hash many that meet in one place can be written
// down; under this one they have to be searched for, which is possible, as its key is fixed.
type Nodes = IndexSet<Node, BuildHasherDefault<DefaultHasher>>;

/// Terms, numbered in the order in which they came: each stands behind its children, and equal ones
/// have one number.
#[derive(Drop)]
pub struct Store {
    pub(crate) nodes: Nodes,
    // Of each node, at its number.
    facts: Vec<Facts>,
}

impl Model for Store {
    ghost use Rattle.std.specs.Prelude.{List};
    ghost use Rattle.std.specs.Coded.{coded_list};
    ghost use Rattle.qv_words.specs.Tree.{Tree};
    ghost use Rattle.qv_words.specs.TreeCode.{coded_tree};

    ghost Value = { List Tree };

    ghost coded = { coded_list coded_tree };

    ghost use Rattle.qv_store.specs.Kept.{trees_of, IsKept};

    ghost view = { λ a. trees_of a.nodes.keys };

    ghost invariant = { λ a. IsKept a.nodes.keys a.facts.items };
}

impl Store {
    ghost use Rattle.qv_store.specs.Nodes.{tree_at, node_tree, HasChildrenBelow};
    ghost use Rattle.qv_store.specs.Stores.{StandsAt, AreShared, Grows, with_tree};

    /// A store without terms.
    pub fn new(alloc: Global) -> Store
        ensures { result ≡ [] }
    {
        Store {
            nodes: IndexSet::with_hasher(alloc, BuildHasherDefault::new()),
            facts: Vec::new(alloc),
        }
    }

    /// The id of the node's term, which is put behind the others unless it is there.
    pub fn put(&mut self, node: Node) -> Result<Id, NoMemory>
        requires children { HasChildrenBelow (length self.old) node }
        requires sorted { IsSorted (node_tree self.old node) }
        ensures id { IfOk result (λ id. StandsAt self.new id (node_tree self.old node)) }
        ensures ok { OnOk result (self.new ≡ with_tree self.old (node_tree self.old node)) }
        ensures err { OnErr result (self.new ≡ self.old) }
        ensures grows { Grows self.old self.new }
        ensures shared { AreShared self.new }
    {
        if self.nodes.len() == MOST_NODES {
            return Err(AllocError);
        }
        let facts = Facts::of(&node, &self.facts);
        self.facts.reserve(1)?;
        let (number, added) = self.nodes.insert_full(node)?;
        if added {
            self.facts.push_reserved(facts);
        }
        Ok(Id::of(number as u32))
    }

    /// How many terms it has.
    pub fn len(&self) -> u64
        ensures len { result ≡ length self.now }
        ensures few { result < 2 ^ 32 }
        ensures shared { AreShared self.now }
    {
        self.nodes.len() as u64
    }

    /// Whether it has no terms.
    pub fn is_empty(&self) -> bool
        ensures { IsTrue result ↔ (self.now ≡ []) }
    {
        self.nodes.is_empty()
    }

    /// The id of a number.
    pub fn id_at(&self, number: u64) -> Id
        requires { number < length self.now }
        ensures { result ≡ number }
    {
        let _nodes = &self.nodes;
        Id::of(number as u32)
    }

    /// The top of a term. Its children have smaller numbers.
    pub fn node(&self, id: Id) -> &Node
        requires { id < length self.now }
        ensures tree { node_tree self.now result.now ≡ tree_at self.now id }
        ensures children { HasChildrenBelow id result.now }
        ensures shared { AreShared self.now }
    {
        &self.nodes[id.place()]
    }

    /// The sort of a term.
    pub fn sort(&self, id: Id) -> Sort
        requires { id < length self.now }
        ensures sort { tree_sort (tree_at self.now id) ≡ Some result }
        ensures shared { AreShared self.now }
    {
        self.facts[id.place()].sort
    }

    /// The depth of a term: 1 of a leaf, and otherwise one more than that of its deepest child.
    pub fn depth(&self, id: Id) -> u64
        requires { id < length self.now }
        ensures depth { result ≡ depth_of (tree_at self.now id) }
        ensures few { result < 2 ^ 32 }
    {
        u64::from(self.facts[id.place()].depth)
    }

    /// Whether a quantifier stands in a term.
    pub fn quantified(&self, id: Id) -> bool
        requires { id < length self.now }
        ensures quantified { result ≡ is_quantified (tree_at self.now id) }
        ensures free { OnFalse result (IsQuantifierFree (tree_at self.now id)) }
        ensures shared { AreShared self.now }
    {
        self.facts[id.place()].quantified
    }

    // Where its memory comes from.
    pub(crate) fn allocator(&self) -> Global {
        *self.nodes.allocator()
    }

    /// A store of its own with the same terms under the same ids.
    pub fn copy(&self) -> Result<Store, NoMemory>
        ensures { IfOk result (λ copied. copied ≡ self.now) }
    {
        let alloc = *self.nodes.allocator();
        let mut copied = Store::new(alloc);
        'terms: for number in 0..self.len() {
            let node = self.node(self.id_at(number));
            copied.put(node.copy(alloc)?)?;
        }
        Ok(copied)
    }
}
