//! Walks through the terms below others, each term once, children first.

ghost use Rattle.std.specs.Prelude.{◌≡◌, ◌<◌, ◌≤◌, ℕ, ◌↔◌, ◌∷◌, ◌++◌, [], IsTrue, OnOk, OnErr};
ghost use Rattle.std.specs.Prelude.{Contains, Some, length, map, reverse, slice_get, take};
ghost use Rattle.qv_words.specs.Tree.{IsQuantifierFree};
ghost use Rattle.qv_words.specs.Clauses.{with_nodes};
ghost use Rattle.qv_store.specs.Nodes.{tree_at, children};
ghost use Rattle.qv_store.specs.Walks.{with_subtrees, named, IsWalk, IsBehind, IsEarlier, IsFound};
ghost use Rattle.qv_store.specs.declared.walk.Visit.TheVariants.{Enter, Leave};
ghost use Rattle.qv_store.specs.Visits.{IsVisiting, IsStep};

use crate::id::Id;
use crate::store::{NoMemory, Store};
use indexmap::IndexSet;
use std::alloc::Global;
use std::marker::Model;

/// Terms of a store, each once, behind its children.
#[derive(Drop)]
pub struct Walk {
    met: IndexSet<Id>,
}

impl Model for Walk {
    ghost use Rattle.std.specs.Prelude.{List, ℕ};

    ghost Value = { List ℕ };

    ghost view = { λ a. a.met.keys };
}

impl Walk {
    /// A walk through no terms.
    pub fn new(alloc: Global) -> Walk
        ensures { result ≡ [] }
    {
        Walk {
            met: IndexSet::new(alloc),
        }
    }

    /// Adds the terms below this one that aren't there, in post-order of first appearance, in time
    /// proportional to their number. It enters quantifiers too.
    pub fn visit(&mut self, store: &Store, id: Id) -> Result<(), NoMemory>
        requires id { id < length store.now }
        requires walk { IsWalk store.now self.old }
        ensures order { OnOk result (named store.now self.new
            ≡ with_subtrees (named store.now self.old) (tree_at store.now id)) }
        ensures nodes { IsQuantifierFree (tree_at store.now id) → OnOk result
            (named store.now self.new
            ≡ with_nodes (named store.now self.old) (tree_at store.now id)) }
        ensures has { OnOk result (Contains self.new id) }
        ensures behind { IsBehind self.old self.new }
        ensures err { OnErr result (self.new ≡ self.old) }
        ensures walk { IsWalk store.now self.new }
    {
        let before = self.met.len();
        let visited = visit_all(&mut self.met, store, id);
        if visited.is_err() {
            self.met.truncate(before);
        }
        visited
    }

    /// The terms, in order.
    pub fn ids(&self) -> &[Id]
        ensures { result.now ≡ self.now }
    {
        self.met.as_slice()
    }

    /// How many terms it has.
    pub fn len(&self) -> usize
        ensures { result ≡ length self.now }
    {
        self.met.len()
    }

    /// Whether it has no terms.
    pub fn is_empty(&self) -> bool
        ensures { IsTrue result ↔ (self.now ≡ []) }
    {
        self.met.len() == 0
    }

    /// Whether it has this term.
    pub fn contains(&self, id: Id) -> bool
        ensures { IsTrue result ↔ Contains self.now id }
    {
        self.met.contains(&id)
    }

    /// Where this term stands.
    pub fn position(&self, id: Id) -> usize
        requires { Contains self.now id }
        ensures at { slice_get self.now result ≡ Some id }
        ensures first { (place : ℕ) → slice_get self.now place ≡ Some id → result ≤ place }
    {
        self.met.get_index_of(&id).unwrap_or(0)
    }

    /// What a pass that goes through the walk has found for this term, where `results` are those of
    /// the first terms, in order.
    pub fn result_of<'a, R>(&self, results: &'a [R], id: Id) -> &'a R
        requires { IsEarlier self.now (length results.now) id }
        ensures { IsFound self.now results.now id result.now }
    {
        &results[self.position(id)]
    }

    /// Keeps the first n terms, as an earlier walk had them.
    pub fn truncate(&mut self, n: usize)
        ensures { self.new ≡ take n self.old }
    {
        self.met.truncate(n);
    }
}

// A term that waits: to be entered, or to be left when its children are met.
#[derive(Clone, Copy, Debug)]
enum Visit {
    Enter(Id),
    Leave(Id),
}

// Meets the terms below this one that aren't met.
fn visit_all(met: &mut IndexSet<Id>, store: &Store, id: Id) -> Result<(), NoMemory>
    requires id { id < length store.now }
    requires walk { IsWalk store.now met.old.keys }
    ensures order { OnOk result (named store.now met.new.keys
        ≡ with_subtrees (named store.now met.old.keys) (tree_at store.now id)) }
    ensures has { OnOk result (Contains met.new.keys id) }
    ensures behind { IsBehind met.old.keys met.new.keys }
    ensures walk { IsWalk store.now met.new.keys }
{
    let _nodes = &store.nodes;
    let mut todo = Vec::new(store.allocator());
    todo.push(Visit::Enter(id))?;
    'todo: while let Some(next) = todo.pop() {
        visit_next(met, &mut todo, store, next)?;
    }
    Ok(())
}

// One step of a walk.
fn visit_next(
    met: &mut IndexSet<Id>,
    todo: &mut Vec<Visit>,
    store: &Store,
    next: Visit,
) -> Result<(), NoMemory>
    requires { IsVisiting store.now met.old.keys (next ∷ reverse todo.old.items) }
    ensures step { OnOk result (IsStep store.now
        met.old.keys (next ∷ reverse todo.old.items)
        met.new.keys (reverse todo.new.items)) }
    ensures behind { IsBehind met.old.keys met.new.keys }
    ensures walk { IsWalk store.now met.new.keys }
{
    match next {
        Visit::Enter(id) => {
            if !met.contains(&id) {
                enter(todo, id, store.node(id).children())?;
            }
        }
        Visit::Leave(id) => {
            met.insert(id)?;
        }
    }
    Ok(())
}

// A term is entered: its children first, and then it is left.
fn enter(todo: &mut Vec<Visit>, id: Id, kids: &[Id]) -> Result<(), NoMemory>
    ensures { OnOk result (reverse todo.new.items
        ≡ map Enter kids.now ++ Leave id ∷ reverse todo.old.items) }
{
    todo.push(Visit::Leave(id))?;
    let mut left = kids.len();
    'kids: while left > 0 {
        left -= 1;
        todo.push(Visit::Enter(kids[left]))?;
    }
    Ok(())
}
