//! How a formula is split into its conjuncts.

ghost use Rattle.std.specs.Prelude.{◌≡◌, ◌<◌, ◌+◌, ◌∷◌, [], All, IfOk, IfSome, OnOk, length, reverse};
ghost use Rattle.qv_words.specs.Tree.{Tree};
ghost use Rattle.qv_store.specs.Nodes.{tree_at};
ghost use Rattle.qv_store.specs.Walks.{named};
ghost use Rattle.qv_choose.specs.Conjuncts.{AreConjuncts};
ghost use Rattle.qv_choose.specs.Splitting.{IsAnd, IsSplit};

use qv_store::{Id, NoMemory, Node, Store, Walk};
use qv_words::Op;
use std::alloc::Global;

// Conjuncts of a formula, in order, in time proportional to its distinct terms: what stands below
// the `and`s at its top. Where the conjuncts share so many terms that they have over four times as
// many in all, the formula counts as one conjunct.
pub(crate) fn conjuncts(alloc: Global, store: &Store, region: Id) -> Result<Vec<Id>, NoMemory>
    requires region { region < length store.now }
    ensures conjuncts { IfOk result (λ ids. AreConjuncts (tree_at store.now region)
        (named store.now ids.items)) }
    ensures below { IfOk result (λ ids. All (λ id. id < length store.now) ids.items) }
{
    let most = distinct_terms(alloc, store, region)?;
    let parts = split(alloc, store, region, most)?;
    if are_few(alloc, store, &parts, most)? {
        Ok(parts)
    } else {
        only(alloc, region)
    }
}

fn only(alloc: Global, id: Id) -> Result<Vec<Id>, NoMemory>
    ensures { IfOk result (λ ids. ids.items ≡ id ∷ []) }
{
    let mut ids = Vec::new(alloc);
    ids.push(id)?;
    Ok(ids)
}

// How many distinct terms a term has.
fn distinct_terms(alloc: Global, store: &Store, id: Id) -> Result<usize, NoMemory>
    requires { id < length store.now }
{
    let mut walk = Walk::new(alloc);
    walk.visit(store, id)?;
    Ok(walk.len())
}

// Whether these terms have at most four times so many in all.
fn are_few(alloc: Global, store: &Store, parts: &[Id], most: usize) -> Result<bool, NoMemory>
    requires { All (λ id. id < length store.now) parts.now }
{
    let mut left = most.saturating_mul(4);
    'parts: for part in parts {
        let many = distinct_terms(alloc, store, *part)?;
        if left < many {
            return Ok(false);
        }
        left -= many;
    }
    Ok(true)
}

// The conjuncts by at most so many `and`s.
fn split(alloc: Global, store: &Store, region: Id, most: usize) -> Result<Vec<Id>, NoMemory>
    requires region { region < length store.now }
    ensures conjuncts { IfOk result (λ ids. AreConjuncts (tree_at store.now region)
        (named store.now ids.items)) }
    ensures below { IfOk result (λ ids. All (λ id. id < length store.now) ids.items) }
{
    let mut parts = Vec::new(alloc);
    let mut waiting = Vec::new(alloc);
    waiting.push(region)?;
    let mut left = most;
    'waiting: while let Some(next) = waiting.pop() {
        split_next(store, &mut waiting, &mut parts, &mut left, next)?;
    }
    Ok(parts)
}

// The next formula makes way for its sides, or is a conjunct.
fn split_next(
    store: &Store,
    waiting: &mut Vec<Id>,
    parts: &mut Vec<Id>,
    left: &mut usize,
    next: Id,
) -> Result<(), NoMemory>
    requires { next < length store.now }
    ensures split { OnOk result ((whole : Tree) →
        IsSplit store.now whole (next ∷ reverse waiting.old.items) parts.old.items →
        IsSplit store.now whole (reverse waiting.new.items) parts.new.items) }
    ensures fewer { OnOk result (left.new + left.new + length waiting.new.items
        < left.old + left.old + length waiting.old.items + 1) }
{
    if *left > 0 {
        if let Some((first, second)) = sides_of(store, next) {
            *left -= 1;
            return wait(waiting, first, second);
        }
    }
    parts.push(next)?;
    Ok(())
}

// Both wait, the first one before the second.
fn wait(waiting: &mut Vec<Id>, first: Id, second: Id) -> Result<(), NoMemory>
    ensures waiting { OnOk result (reverse waiting.new.items
        ≡ first ∷ second ∷ reverse waiting.old.items) }
    ensures many { OnOk result (length waiting.new.items ≡ length waiting.old.items + 2) }
{
    waiting.push(second)?;
    waiting.push(first)?;
    Ok(())
}

// The sides of an `and`.
fn sides_of(store: &Store, id: Id) -> Option<(Id, Id)>
    requires { id < length store.now }
    ensures { IfSome result (λ sides. IsAnd store.now id sides.0 sides.1) }
{
    match store.node(id) {
        Node::App { op, kids } => sides_among(*op, kids.as_slice()),
        _ => None,
    }
}

fn sides_among(op: Op, kids: &[Id]) -> Option<(Id, Id)>
    ensures { IfSome result (λ sides. (op ≡ Op.And) × (kids.now ≡ sides.0 ∷ sides.1 ∷ [])) }
{
    match op {
        Op::And => two_of(kids),
        _ => None,
    }
}

// The elements of a list of two.
fn two_of(ids: &[Id]) -> Option<(Id, Id)>
    ensures { IfSome result (λ two. ids.now ≡ two.0 ∷ two.1 ∷ []) }
{
    match ids {
        [first, second] => Some((*first, *second)),
        _ => None,
    }
}
