//! Stores of terms that keep how their terms were split.

ghost use Rattle.std.specs.Prelude.{◌≡◌, ◌<◌, ◌^◌, ℕ, List, Some, IfOk, IfSome, length};
ghost use Rattle.std.specs.Bool.{OnFalse};
ghost use Rattle.qv_words.specs.Tree.{Tree, tree_sort, IsQuantifierFree};
ghost use Rattle.qv_words.specs.Sorted.{IsSorted};
ghost use Rattle.qv_words.specs.Prenex.{is_quantified};
ghost use Rattle.qv_prenex_splits.specs.Sides.{AreMadeFor};

use crate::memo::Memo;
use crate::splitting::BitIte;
use qv_store::{Id, NoMemory, Node, Store};
use qv_words::Sort;
use std::alloc::Global;
use std::collections::HashMap;
use std::marker::Model;

/// A term without its first `ite` that is split: the condition, and the term with either side of the
/// `ite` in place of it.
#[derive(Clone, Copy)]
pub struct Sides {
    pub condition: Id,
    pub yes: Id,
    pub no: Id,
}

// What was made of terms with either side of an `ite` in place of it.
#[derive(Drop)]
pub(crate) struct SideMemos {
    pub(crate) yes: Memo,
    pub(crate) no: Memo,
}

/// A store, with the sides of those of its terms that were split, so that each is split once, and
/// with what was found and made of the terms below them, so that terms share that.
#[derive(Drop)]
pub struct SplitStore {
    store: Store,
    sides: HashMap<Id, Sides>,
    // The first `ite` of a term that is split.
    firsts: HashMap<Id, BitIte>,
    // What was made of terms, by the `ite`.
    memos: HashMap<Id, SideMemos>,
}

impl Model for SplitStore {
    ghost use Rattle.std.specs.Prelude.{List};
    ghost use Rattle.std.specs.Coded.{coded_list};
    ghost use Rattle.qv_words.specs.Tree.{Tree};
    ghost use Rattle.qv_words.specs.TreeCode.{coded_tree};

    ghost Value = { List Tree };

    ghost coded = { coded_list coded_tree };

    ghost use Rattle.qv_prenex_splits.specs.Sides.{IsSplitStore};

    ghost view = { λ s. s.store };

    ghost invariant = { λ s. IsSplitStore s.store s.sides s.firsts s.memos };
}

impl SplitStore {
    ghost use Rattle.qv_store.specs.Nodes.{tree_at, node_tree, HasChildrenBelow};
    ghost use Rattle.qv_store.specs.Stores.{StandsAt, AreShared, Grows};
    ghost use Rattle.qv_prenex_splits.specs.Sides.{IsSplitInto, IsFirstIte};

    /// The store, of which no term was split yet.
    pub fn new(alloc: Global, store: Store) -> SplitStore
        ensures { result ≡ store }
    {
        SplitStore {
            store,
            sides: HashMap::new(alloc),
            firsts: HashMap::new(alloc),
            memos: HashMap::new(alloc),
        }
    }

    /// The store alone.
    pub fn into_store(self) -> Store
        ensures { result ≡ self }
    {
        self.store
    }

    /// The id of the node's term, which is put behind the others unless it is there.
    pub fn put(&mut self, node: Node) -> Result<Id, NoMemory>
        requires children { HasChildrenBelow (length self.old) node }
        requires sorted { IsSorted (node_tree self.old node) }
        ensures id { IfOk result (λ id. StandsAt self.new id (node_tree self.old node)) }
        ensures grows { Grows self.old self.new }
        ensures shared { AreShared self.new }
    {
        self.store.put(node)
    }

    /// How many terms it has.
    pub fn len(&self) -> u64
        ensures len { result ≡ length self.now }
        ensures few { result < 2 ^ 32 }
        ensures shared { AreShared self.now }
    {
        self.store.len()
    }

    /// The top of a term. Its children have smaller numbers.
    pub fn node(&self, id: Id) -> &Node
        requires { id < length self.now }
        ensures tree { node_tree self.now result.now ≡ tree_at self.now id }
        ensures children { HasChildrenBelow id result.now }
        ensures shared { AreShared self.now }
    {
        self.store.node(id)
    }

    /// The sort of a term.
    pub fn sort(&self, id: Id) -> Sort
        requires { id < length self.now }
        ensures sort { tree_sort (tree_at self.now id) ≡ Some result }
        ensures shared { AreShared self.now }
    {
        self.store.sort(id)
    }

    /// Whether a quantifier stands in a term.
    pub fn quantified(&self, id: Id) -> bool
        requires { id < length self.now }
        ensures quantified { result ≡ is_quantified (tree_at self.now id) }
        ensures free { OnFalse result (IsQuantifierFree (tree_at self.now id)) }
        ensures shared { AreShared self.now }
    {
        self.store.quantified(id)
    }

    // The sides of a term, if it was split.
    pub(crate) fn sides(&self, id: Id) -> Option<Sides>
        ensures { IfSome result (IsSplitInto self.now id) }
    {
        match self.sides.get(&id) {
            Some(sides) => Some(*sides),
            None => None,
        }
    }

    // Keeps the sides of a term.
    pub(crate) fn keep(&mut self, id: Id, sides: &Sides) -> Result<(), NoMemory>
        requires { IsSplitInto self.old id sides.now }
        ensures { self.new ≡ self.old }
    {
        self.sides.insert(id, *sides)?;
        Ok(())
    }

    // The first `ite` of a term that is split, where it was found.
    pub(crate) fn first(&self, id: Id) -> Option<BitIte>
        ensures { IfSome result (IsFirstIte self.now id) }
    {
        match self.firsts.get(&id) {
            Some(ite) => Some(*ite),
            None => None,
        }
    }

    // Keeps the first `ite` of a term that is split.
    pub(crate) fn keep_first(&mut self, id: Id, ite: &BitIte) -> Result<(), NoMemory>
        requires { IsFirstIte self.old id ite.now }
        ensures { self.new ≡ self.old }
    {
        self.firsts.insert(id, *ite)?;
        Ok(())
    }

    // What was made of terms with the sides of an `ite` in place of it. It is taken out.
    pub(crate) fn take_memos(&mut self, alloc: Global, whole: Id) -> SideMemos
        requires { whole < length self.old }
        ensures made { AreMadeFor self.new whole result }
        ensures store { self.new ≡ self.old }
    {
        let kept = self.memos.remove(&whole);
        kept_or_new(alloc, kept)
    }

    // Keeps what was made of terms with the sides of an `ite` in place of it.
    pub(crate) fn keep_memos(&mut self, whole: Id, memos: SideMemos) -> Result<(), NoMemory>
        requires { AreMadeFor self.old whole memos }
        ensures { self.new ≡ self.old }
    {
        self.memos.insert(whole, memos)?;
        Ok(())
    }
}

// What was kept, or what has nothing made yet.
fn kept_or_new(alloc: Global, kept: Option<SideMemos>) -> SideMemos
    ensures { (trees : List Tree) (whole : ℕ) → whole < length trees →
        IfSome kept (AreMadeFor trees whole) → AreMadeFor trees whole result }
{
    match kept {
        Some(memos) => memos,
        None => {
            let yes = Memo::new(alloc);
            let no = Memo::new(alloc);
            SideMemos { yes, no }
        }
    }
}
