//! Terms of a store, in a store of their own.

ghost use Rattle.std.specs.Prelude.{◌≡◌, ◌<◌, [], All, Contains, IfOk, OnOk, length};
ghost use Rattle.qv_store.specs.Walks.{named, IsWalk};
ghost use Rattle.qv_trees.specs.Subtrees.{subtrees_behind, subtrees_of};

use crate::renumbering::{places_of, renumber};
use qv_store::{Id, NoMemory, Store, Walk};
use std::alloc::Global;

/// Terms in a store of their own.
#[derive(Drop)]
pub struct Copied {
    pub store: Store,
    pub ids: Vec<Id>,
}

/// These terms in a store of their own, with the terms below them and no others, in time and memory
/// proportional to the number of these.
pub fn copy_terms(alloc: Global, store: &Store, ids: &[Id]) -> Result<Copied, NoMemory>
    requires { All (λ id. id < length store.now) ids.now }
    ensures terms { IfOk result (λ copied.
        copied.store ≡ subtrees_of (named store.now ids.now)) }
    ensures ids { IfOk result (λ copied.
        named copied.store copied.ids.items ≡ named store.now ids.now) }
    ensures below { IfOk result (λ copied.
        All (λ id. id < length copied.store) copied.ids.items) }
{
    let mut walk = Walk::new(alloc);
    visit_all(&mut walk, store, ids)?;
    copy_walk(alloc, store, &walk, ids)
}

// The terms of a walk in a store of their own, in order, and these of them.
fn copy_walk(alloc: Global, store: &Store, walk: &Walk, ids: &[Id]) -> Result<Copied, NoMemory>
    requires walk { IsWalk store.now walk.now }
    requires has { All (Contains walk.now) ids.now }
    ensures terms { IfOk result (λ copied. copied.store ≡ named store.now walk.now) }
    ensures ids { IfOk result (λ copied.
        named copied.store copied.ids.items ≡ named store.now ids.now) }
    ensures below { IfOk result (λ copied.
        All (λ id. id < length copied.store) copied.ids.items) }
{
    let mut copied = Store::new(alloc);
    copy_all(alloc, store, walk, &mut copied)?;
    let ids = places_of(alloc, &copied, walk, ids)?;
    Ok(Copied { store: copied, ids })
}

// Adds the terms below these that aren't there.
fn visit_all(walk: &mut Walk, store: &Store, ids: &[Id]) -> Result<(), NoMemory>
    requires ids { All (λ id. id < length store.now) ids.now }
    requires walk { IsWalk store.now walk.old }
    ensures order { OnOk result (named store.now walk.new
        ≡ subtrees_behind (named store.now walk.old) (named store.now ids.now)) }
    ensures has { OnOk result (All (Contains walk.new) ids.now) }
    ensures walk { IsWalk store.now walk.new }
{
    'terms: for id in ids {
        walk.visit(store, *id)?;
    }
    Ok(())
}

// Puts the terms of a walk into an empty store, in order.
fn copy_all(alloc: Global, store: &Store, walk: &Walk, copied: &mut Store) -> Result<(), NoMemory>
    requires walk { IsWalk store.now walk.now }
    requires empty { copied.old ≡ [] }
    ensures { OnOk result (copied.new ≡ named store.now walk.now) }
{
    'terms: for id in walk.ids() {
        let node = renumber(alloc, store.node(*id), walk, copied)?;
        copied.put(node)?;
    }
    Ok(())
}
