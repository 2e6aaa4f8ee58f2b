//! Whether a term has no free variables.

ghost use Rattle.std.specs.Prelude.{◌≡◌, ◌⊎◌, ◌<◌, ◌≤◌, ℕ, false, All, IfSome, IsTrue, length};
ghost use Rattle.std.specs.Prelude.{slice_index_or};
ghost use Rattle.qv_store.specs.Nodes.{tree_at};
ghost use Rattle.qv_cases_terms.specs.Free.{IsFreeOf, AreFreeOf};

use qv_store::{Id, Node, Store};
use std::alloc::Global;

/// Whether no variable of a level below this one is free in one of these terms. `None` for want of
/// memory.
pub fn are_closed(alloc: Global, store: &Store, ids: &[Id], levels: u64) -> Option<bool>
    requires { All (λ id. id < length store.now) ids.now }
    ensures { IfSome result (λ closed. IsTrue closed → (level : ℕ) → level < levels
        → All (λ id. IsFreeOf level (tree_at store.now id)) ids.now) }
{
    'each: for level in 0..levels {
        let free = free_of(alloc, store, level)?;
        if !none_of(&free, ids) {
            return Some(false);
        }
    }
    Some(true)
}

// Whether none of these terms is marked.
fn none_of(free: &[bool], ids: &[Id]) -> bool
    requires { All (λ id. id < length free.now) ids.now }
    ensures { IsTrue result → All (λ id. slice_index_or free.now id false ≡ false) ids.now }
{
    'each: for id in ids {
        if free[id.number() as usize] {
            return false;
        }
    }
    true
}

// Marks the terms in which a variable of this level may be free.
fn free_of(alloc: Global, store: &Store, level: u64) -> Option<Vec<bool>>
    ensures free { IfSome result (λ free. AreFreeOf level store.now free.items) }
    ensures all { IfSome result (λ free. length free.items ≡ length store.now) }
{
    let mut free = Vec::new(alloc);
    'terms: for number in 0..store.len() {
        let marked = is_free(store, store.id_at(number), level, &free);
        free.push(marked).ok()?;
    }
    Some(free)
}

// Whether a variable of this level may be free in the next term.
fn is_free(store: &Store, id: Id, level: u64, free: &[bool]) -> bool
    requires id { id < length store.now }
    requires next { id ≤ length free.now }
    requires free { AreFreeOf level store.now free.now }
    ensures { result ≡ false → IsFreeOf level (tree_at store.now id) }
{
    match store.node(id) {
        Node::Var { level: other, .. } => *other == level,
        Node::App { kids, .. } => !none_of(free, kids.as_slice()),
        Node::All {
            level: other,
            body,
            ..
        } => is_free_below(*other, *body, level, free),
        Node::Ex {
            level: other,
            body,
            ..
        } => is_free_below(*other, *body, level, free),
        Node::Const { .. } | Node::Lit { .. } => false,
    }
}

// The same below a quantifier.
fn is_free_below(other: u64, body: Id, level: u64, free: &[bool]) -> bool
    requires { body < length free.now }
    ensures { result ≡ false → (other ≡ level)
        ⊎ (slice_index_or free.now body false ≡ false) }
{
    if other == level {
        false
    } else {
        free[body.number() as usize]
    }
}
