//! Terms by their places in a walk, which are their numbers in the store that is made of it.

ghost use Rattle.std.specs.Prelude.{All, IfOk, length};
ghost use Rattle.std.specs.List.{AllZip};
ghost use Rattle.qv_store.specs.Nodes.{children};
ghost use Rattle.qv_store.specs.Walks.{IsEarlier};
ghost use Rattle.qv_trees.specs.Places.{IsPlaceOf, IsRenumbered};

use qv_store::{Id, NoMemory, Node, Store, Walk};
use smallvec::SmallVec;
use std::alloc::Global;

// A node over the terms of a walk that are copied already.
pub(crate) fn renumber(
    alloc: Global,
    node: &Node,
    walk: &Walk,
    copied: &Store,
) -> Result<Node, NoMemory>
    requires { All (IsEarlier walk.now (length copied.now)) (children node.now) }
    ensures { IfOk result (IsRenumbered walk.now (length copied.now) node.now) }
{
    match node {
        Node::App { op, kids } => Ok(Node::App {
            op: *op,
            kids: renumber_all(alloc, kids.as_slice(), walk, copied)?,
        }),
        Node::All { level, sort, body } => Ok(Node::All {
            level: *level,
            sort: *sort,
            body: place_of(copied, walk, *body),
        }),
        Node::Ex { level, sort, body } => Ok(Node::Ex {
            level: *level,
            sort: *sort,
            body: place_of(copied, walk, *body),
        }),
        Node::Const { .. } | Node::Var { .. } | Node::Lit { .. } => node.copy(alloc),
    }
}

// The places of a node's children.
fn renumber_all(
    alloc: Global,
    kids: &[Id],
    walk: &Walk,
    copied: &Store,
) -> Result<SmallVec<Id, 3>, NoMemory>
    requires { All (IsEarlier walk.now (length copied.now)) kids.now }
    ensures { IfOk result (λ new.
        AllZip (IsPlaceOf walk.now (length copied.now)) kids.now new.items) }
{
    let mut new = SmallVec::new(alloc);
    'kids: for kid in kids {
        new.push(place_of(copied, walk, *kid))?;
    }
    Ok(new)
}

// The places of terms.
pub(crate) fn places_of(
    alloc: Global,
    copied: &Store,
    walk: &Walk,
    ids: &[Id],
) -> Result<Vec<Id>, NoMemory>
    requires { All (IsEarlier walk.now (length copied.now)) ids.now }
    ensures { IfOk result (λ new.
        AllZip (IsPlaceOf walk.now (length copied.now)) ids.now new.items) }
{
    let mut new = Vec::with_capacity(alloc, ids.len())?;
    'terms: for id in ids {
        new.push(place_of(copied, walk, *id))?;
    }
    Ok(new)
}

// The place of a term of a walk.
fn place_of(copied: &Store, walk: &Walk, id: Id) -> Id
    requires { IsEarlier walk.now (length copied.now) id }
    ensures { IsPlaceOf walk.now (length copied.now) id result }
{
    copied.id_at(walk.position(id) as u64)
}
