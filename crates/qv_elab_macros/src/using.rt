//! Uses of definitions: the term of a definition's own reading, with arguments put in for its
//! parameters.

ghost use Rattle.std.specs.Prelude.{◌≡◌, ◌<◌, ◌≤◌, ℕ, All, IfOk, MatchOption, Ok, Err, true};
ghost use Rattle.std.specs.Prelude.{length, map};
ghost use Rattle.std.specs.List.{AllZip};
ghost use Rattle.qv_sexpr.specs.Script.{Tree as Expr};
ghost use Rattle.qv_words.specs.Sorted.{IsSorted, free_levels};
ghost use Rattle.qv_store.specs.Nodes.{tree_at, children};
ghost use Rattle.qv_store.specs.Walks.{named, IsEarlier, IsFound};
ghost use Rattle.qv_store.specs.Stores.{StandsAt, Grows};
ghost use Rattle.qv_elab_defs.specs.Scopes.{Scope as Names, Named};
ghost use Rattle.qv_elab_defs.specs.Applying.{fitting, sort_of, are_sorts_eq, depth_of};
ghost use Rattle.qv_elab_defs.specs.Applying.{depth_limit};
ghost use Rattle.qv_elab_defs.specs.Putting.{moved_level};
ghost use Rattle.qv_elab_macros.specs.PutIn.{with_args, arg_for, IsMoved, IsNextIn, some_too_deep};
ghost use Rattle.qv_elab_macros.specs.Readings.{IsUsed, used_at};
ghost use Rattle.qv_elab_defs.specs.Answers.{Answers};
ghost use Rattle.qv_elab_defs.specs.Beginnings.{Begins};

use crate::body::Body;
use qv_elab_defs::{DEPTH_LIMIT, ElabFault, ElabKind};
use qv_store::{Id, NoMemory, Node, Store, Walk};
use qv_words::Sort;
use smallvec::SmallVec;
use std::alloc::{AllocError, Global};

// Whether terms have these sorts, of which there are as many.
fn have_sorts(store: &Store, sorts: &[Sort], args: &[Id]) -> bool
    requires args { All (λ id. id < length store.now) args.now }
    requires as_many { length args.now ≡ length sorts.now }
    ensures { result ≡ are_sorts_eq sorts.now (map sort_of (named store.now args.now)) }
{
    'each: for (place, arg) in args.iter().enumerate() {
        if store.sort(*arg) != sorts[place] {
            return false;
        }
    }
    true
}

// Why terms are no arguments for parameters of these sorts.
fn unfitting(store: &Store, sorts: &[Sort], args: &[Id]) -> Option<ElabKind>
    requires { All (λ id. id < length store.now) args.now }
    ensures { MatchOption result
        (fitting sorts.now (named store.now args.now) ≡ Ok (named store.now args.now))
        (λ kind. fitting sorts.now (named store.now args.now) ≡ Err kind) }
{
    if args.len() != sorts.len() {
        return Some(ElabKind::Arity);
    }
    if !have_sorts(store, sorts, args) {
        return Some(ElabKind::Sorts);
    }
    None
}

// Whether some argument is too deep at the depth of its parameter.
fn is_too_deep(store: &Store, depths: &[u64], args: &[Id]) -> bool
    requires { All (λ id. id < length store.now) args.now }
    ensures { result ≡ some_too_deep (named store.now args.now) depths.now }
{
    'each: for (place, arg) in args.iter().enumerate() {
        let Some(depth) = depths.get(place) else {
            return false;
        };
        if store.depth(*arg).saturating_add(*depth) > DEPTH_LIMIT {
            return true;
        }
    }
    false
}

// The argument that a node stands for.
fn arg_for(args: &[Id], node: &Node) -> Option<Id>
    ensures { result ≡ arg_for args.now node.now }
{
    let Node::Var { level, .. } = node else {
        return None;
    };
    match args.get(*level as usize) {
        Some(arg) => Some(*arg),
        None => None,
    }
}

// A level of a body of so many parameters, where so many binders are open at the use.
fn moved_level(parameters: u64, binders: u64, level: u64) -> Result<u64, NoMemory>
    ensures { IfOk result (λ moved. moved ≡ moved_level parameters binders level) }
{
    level
        .saturating_sub(parameters)
        .checked_add(binders)
        .ok_or(AllocError)
}

// The node with what was made of its children, and its level moved.
fn move_node(
    alloc: Global,
    node: &Node,
    parameters: u64,
    binders: u64,
    walk: &Walk,
    made: &[Id],
) -> Result<Node, NoMemory>
    requires { All (IsEarlier walk.now (length made.now)) (children node.now) }
    ensures { IfOk result (IsMoved parameters binders walk.now made.now node.now) }
{
    match node {
        Node::Const { .. } | Node::Lit { .. } => node.copy(alloc),
        Node::Var { level, sort } => Ok(Node::Var {
            level: moved_level(parameters, binders, *level)?,
            sort: *sort,
        }),
        Node::App { op, kids } => Ok(Node::App {
            op: *op,
            kids: made_of(alloc, kids.as_slice(), walk, made)?,
        }),
        Node::All { level, sort, body } => Ok(Node::All {
            level: moved_level(parameters, binders, *level)?,
            sort: *sort,
            body: *walk.result_of(made, *body),
        }),
        Node::Ex { level, sort, body } => Ok(Node::Ex {
            level: moved_level(parameters, binders, *level)?,
            sort: *sort,
            body: *walk.result_of(made, *body),
        }),
    }
}

// What was made of these terms.
fn made_of(
    alloc: Global,
    kids: &[Id],
    walk: &Walk,
    made: &[Id],
) -> Result<SmallVec<Id, 3>, NoMemory>
    requires { All (IsEarlier walk.now (length made.now)) kids.now }
    ensures { IfOk result (λ new. AllZip (IsFound walk.now made.now) kids.now new.items) }
{
    let mut new = SmallVec::new(alloc);
    'kids: for kid in kids {
        new.push(*walk.result_of(made, *kid))?;
    }
    Ok(new)
}

// The next term of a walk with the arguments put in, over what was made of the terms before it.
fn put_next(
    alloc: Global,
    store: &mut Store,
    id: Id,
    walk: &Walk,
    made: &[Id],
    binders: u64,
    args: &[Id],
) -> Result<Id, NoMemory>
    requires id { id < length store.old }
    requires next { IsNextIn store.old binders args.now walk.now made.now id }
    ensures id { IfOk result (λ put. StandsAt store.new put
        (with_args store.old binders args.now (tree_at store.old id))) }
    ensures grows { Grows store.old store.new }
{
    let node = store.node(id);
    if let Some(arg) = arg_for(args, node) {
        return Ok(arg);
    }
    let moved = move_node(alloc, node, args.len() as u64, binders, walk, made)?;
    store.put(moved)
}

// Whether nothing changes where these arguments are put into a term: no parameters, and no binder
// is open at the use, or none stands in the term.
fn stays(store: &Store, id: Id, binders: u64, args: &[Id]) -> bool
    requires id { id < length store.now }
    requires levels { All (λ leaf. leaf.0 < length args.now)
        (free_levels (tree_at store.now id)) }
    ensures { result ≡ true → with_args store.now binders args.now (tree_at store.now id)
        ≡ tree_at store.now id }
{
    args.is_empty() && (binders == 0 || !store.quantified(id))
}

// The term of a definition's own reading, with arguments put in for its parameters and its other
// levels moved, in time proportional to the distinct terms below it; a look-up where it stays.
fn put_body(
    alloc: Global,
    store: &mut Store,
    id: Id,
    binders: u64,
    args: &[Id],
) -> Result<Id, NoMemory>
    requires id { id < length store.old }
    requires args { All (λ arg. arg < length store.old) args.now }
    requires levels { All (λ leaf. leaf.0 < length args.now)
        (free_levels (tree_at store.old id)) }
    requires sorted { IsSorted (with_args store.old binders args.now (tree_at store.old id)) }
    ensures id { IfOk result (λ put. StandsAt store.new put
        (with_args store.old binders args.now (tree_at store.old id))) }
    ensures grows { Grows store.old store.new }
{
    if stays(store, id, binders, args) {
        return Ok(id);
    }
    let mut walk = Walk::new(alloc);
    walk.visit(store, id)?;
    let mut made = Vec::new(alloc);
    'terms: for term in walk.ids() {
        let put = put_next(alloc, store, *term, &walk, &made, binders, args)?;
        made.push(put)?;
    }
    Ok(*walk.result_of(&made, id))
}

/// What a use of a definition at a place gives of these arguments, where so many binders are open:
/// the faults of its arguments come first, then that of depth, before anything is put into the
/// store. It takes time proportional to the distinct terms of the definition's body, and a look-up
/// where that has no parameters and no quantifiers.
pub fn use_definition(
    alloc: Global,
    store: &mut Store,
    place: u64,
    binders: u64,
    sorts: &[Sort],
    body: &Body,
    args: &[Id],
) -> Result<Id, ElabFault>
    requires args { All (λ id. id < length store.old) args.now }
    requires levels { All (λ t. All (λ leaf. leaf.0 < binders) (free_levels t))
        (named store.old args.now) }
    requires shallow { All (λ t. depth_of t ≤ depth_limit) (named store.old args.now) }
    requires definition { (scope : Names) × (parameters : Named Sort) × (s : Sort) × (e : Expr)
        × IsUsed store.old scope parameters s e sorts.now body.now }
    ensures answer { (scope : Names) (parameters : Named Sort) (s : Sort) (e : Expr) →
        IsUsed store.old scope parameters s e sorts.now body.now →
        Answers store.new (used_at place binders scope parameters e sorts.now
        (named store.old args.now)) result }
    ensures begins { (scope : Names) (parameters : Named Sort) (s : Sort) (e : Expr) →
        IsUsed store.old scope parameters s e sorts.now body.now →
        Begins (used_at place binders scope parameters e sorts.now
        (named store.old args.now)) result }
    ensures grows { Grows store.old store.new }
{
    let _terms = store.len();
    if let Some(kind) = unfitting(store, sorts, args) {
        return Err(ElabFault::At { place, kind });
    }
    if is_too_deep(store, &body.depths, args) {
        let kind = ElabKind::DepthLimit;
        return Err(ElabFault::At { place, kind });
    }
    let id = put_body(alloc, store, body.id, binders, args)?;
    Ok(id)
}
