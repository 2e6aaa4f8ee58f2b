//! How deep parameters stand below the terms of a definition's body.

ghost use Rattle.std.specs.Prelude.{◌≡◌, ◌<◌, ◌≤◌, ◌+◌, ◌∷◌, [], ℕ, List, Some, All, IfOk, OnOk};
ghost use Rattle.std.specs.Prelude.{max, length, slice_get, slice_index};
ghost use Rattle.qv_sexpr.specs.Script.{Tree as Expr};
ghost use Rattle.qv_words.specs.declared.sort.Sort.{Sort};
ghost use Rattle.qv_words.specs.Tree.{Tree};
ghost use Rattle.qv_store.specs.Nodes.{tree_at};
ghost use Rattle.qv_store.specs.Walks.{named, IsWalk, IsEarlier};
ghost use Rattle.qv_elab_defs.specs.Written.{HasTokens};
ghost use Rattle.qv_elab_defs.specs.Scopes.{Scope as Names, Named};
ghost use Rattle.qv_elab_defs.specs.TreeLaws.{AreParameters, IsScope};
ghost use Rattle.qv_elab_macros.specs.Readings.{IsReading};
ghost use Rattle.qv_elab_macros.specs.Checked.{IsRead};
ghost use Rattle.qv_elab_macros.specs.DepthUnder.{depth_under};
ghost use Rattle.qv_elab_macros.specs.PassDown.{peak, peak_at, raised, raised_at, noted_at, IsPassed};

use crate::body::Body;
use qv_elab_defs::above;
use qv_store::{Id, NoMemory, Node, Store, Walk};
use std::alloc::Global;

/// A term that stands so deep below an expression of a body.
#[derive(Clone, Copy, Debug)]
pub struct Watched {
    pub id: Id,
    pub depth: u64,
}

// Makes the list so long; what is added has no depth.
fn fill(depths: &mut Vec<Option<u64>>, len: usize) -> Result<(), NoMemory>
    requires { length depths.old.items ≤ len }
    ensures len { OnOk result (length depths.new.items ≡ len) }
    ensures same { (l : ℕ) (ts : List Tree) →
        peak l ts depths.new.items ≡ peak l ts depths.old.items }
{
    'places: while depths.len() < len {
        depths.push(None)?;
    }
    Ok(())
}

// The greater depth.
fn raised(before: Option<u64>, depth: u64) -> Option<u64>
    ensures { result ≡ raised before depth }
{
    match before {
        Some(before) => Some(before.max(depth)),
        None => Some(depth),
    }
}

// A term stands also so deep.
fn raise(below: &mut [Option<u64>], place: usize, depth: u64)
    requires { place < length below.old }
    ensures { below.new ≡ raised_at below.old place depth }
{
    below[place] = raised(below[place], depth);
}

// Terms of a walk stand also so deep.
fn raise_all(walk: &Walk, ids: &[Id], depth: u64, below: &mut [Option<u64>])
    requires { All (IsEarlier walk.now (length below.old)) ids.now }
    ensures len { length below.new ≡ length below.old }
    ensures raised { (trees : List Tree) (l : ℕ) → peak l (named trees walk.now) below.new
        ≡ max (peak l (named trees walk.now) below.old) (peak_at l (named trees ids.now) depth) }
{
    'each: for id in ids {
        raise(below, walk.position(*id), depth);
    }
}

// A parameter stands also so deep.
fn note(depths: &mut [u64], level: u64, depth: u64)
    ensures { depths.new ≡ noted_at depths.old level depth }
{
    let place = level as usize;
    if place < depths.len() {
        depths[place] = depths[place].max(depth);
    }
}

// A term stands so deep: if it is a parameter, this is noted, and otherwise its children stand one
// deeper.
fn pass_down(
    store: &Store,
    walk: &Walk,
    id: Id,
    depth: u64,
    below: &mut [Option<u64>],
    depths: &mut [u64],
)
    requires walk { IsWalk store.now walk.now }
    requires next { slice_get walk.now (length below.old) ≡ Some id }
    ensures passed { IsPassed (named store.now walk.now) below.old depths.old
        (tree_at store.now id) depth below.new depths.new }
{
    match store.node(id) {
        Node::Var { level, .. } => note(depths, *level, depth),
        node => raise_all(walk, node.children(), above(depth), below),
    }
}

// The depths of the terms, by their places in a walk through those below them.
fn start(
    alloc: Global,
    store: &Store,
    walk: &mut Walk,
    checks: &[Watched],
) -> Result<Vec<Option<u64>>, NoMemory>
    requires ids { All (λ check. check.id < length store.now) checks.now }
    requires empty { walk.old ≡ [] }
    ensures walk { IsWalk store.now walk.new }
    ensures len { IfOk result (λ below. length below.items ≡ length walk.new) }
    ensures peaks { IfOk result (λ below. (l : ℕ) →
        peak l (named store.now walk.new) below.items ≡ depth_under store.now l checks.now) }
{
    let mut below = Vec::new(alloc);
    'checks: for check in checks {
        walk.visit(store, check.id)?;
        fill(&mut below, walk.len())?;
        raise(&mut below, walk.position(check.id), check.depth);
    }
    Ok(below)
}

// Notes the depths of parameters below terms of a walk that stand so deep.
fn descend(store: &Store, walk: &Walk, mut below: Vec<Option<u64>>, depths: &mut [u64])
    requires walk { IsWalk store.now walk.now }
    requires within { length below.items ≤ length walk.now }
    ensures count { length depths.new ≡ length depths.old }
    ensures depths { (l : ℕ) → l < length depths.old → slice_index depths.new l
        ≡ max (slice_index depths.old l) (peak l (named store.now walk.now) below.items) }
{
    let ids = walk.ids();
    'terms: while let Some(found) = below.pop() {
        if let Some(depth) = found {
            pass_down(store, walk, ids[below.len()], depth, &mut below, depths);
        }
    }
}

/// For each of so many parameters the greatest depth at which it stands, where the checked terms
/// stand so deep; 0 where it doesn't stand below one. It takes time proportional to the distinct
/// terms below these, and none where there are no parameters.
pub(crate) fn depths_under(
    alloc: Global,
    store: &Store,
    parameters: usize,
    checks: &[Watched],
) -> Result<Vec<u64>, NoMemory>
    requires { All (λ check. check.id < length store.now) checks.now }
    ensures count { IfOk result (λ depths. length depths.items ≡ parameters) }
    ensures depths { IfOk result (λ depths. (l : ℕ) → l < parameters →
        slice_index depths.items l ≡ depth_under store.now l checks.now) }
{
    if parameters == 0 {
        return Ok(Vec::new(alloc));
    }
    let mut walk = Walk::new(alloc);
    let below = start(alloc, store, &mut walk, checks)?;
    let mut depths = vec![in alloc; 0; parameters]?;
    descend(store, &walk, below, &mut depths);
    Ok(depths)
}

/// What a definition's own reading gave, by the term that it stands for and the terms that were
/// checked for their depth meanwhile.
pub fn reading_of(
    alloc: Global,
    store: &Store,
    id: Id,
    parameters: usize,
    checks: &[Watched],
) -> Result<Body, NoMemory>
    requires { All (λ check. check.id < length store.now) checks.now }
    ensures { (scope : Names) (names : Named Sort) (s : Sort) (e : Expr) →
        IsScope scope → AreParameters names → HasTokens e → length names ≡ parameters →
        IsRead store.now scope names s e id checks.now →
        IfOk result (IsReading store.now scope names s e) }
{
    let depths = depths_under(alloc, store, parameters, checks)?;
    Ok(Body { id, depths })
}
