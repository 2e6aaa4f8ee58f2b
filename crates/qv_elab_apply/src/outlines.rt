//! What is known of a tree before it is built: its sort and its depth.

ghost use Rattle.std.specs.Prelude.{◌≡◌, ◌<◌, All, IfOk, length, map};
ghost use Rattle.qv_store.specs.Nodes.{tree_at};
ghost use Rattle.qv_elab_defs.specs.Applying.{kind_of};
ghost use Rattle.qv_elab_apply.specs.Outlines.{
  outline_of,
  joined,
  joined_left,
  all_joined_right,
  fault_at,
};

use qv_elab_defs::{DEPTH_LIMIT, ElabFault, ElabKind, above};
use qv_sorts::{RankFault, rank};
use qv_store::{Id, NoMemory, Store};
use qv_words::{Op, Sort};
use std::alloc::Global;

/// The sort and the depth of a tree.
#[derive(Clone, Copy, Debug)]
pub(crate) struct Outline {
    pub(crate) sort: Sort,
    pub(crate) depth: u64,
}

/// The kind of fault that a rank fault is.
pub(crate) fn kind_of(fault: RankFault) -> ElabKind
    ensures { result ≡ kind_of fault }
{
    match fault {
        RankFault::Arity => ElabKind::Arity,
        RankFault::Sorts => ElabKind::Sorts,
        RankFault::Index => ElabKind::Index,
        RankFault::Width => ElabKind::Width,
    }
}

/// The outline of a term.
pub(crate) fn outline_of(store: &Store, id: Id) -> Outline
    requires { id < length store.now }
    ensures { result ≡ outline_of (tree_at store.now id) }
{
    Outline {
        sort: store.sort(id),
        depth: store.depth(id),
    }
}

/// The outlines of terms.
pub(crate) fn outlines_of(
    alloc: Global,
    store: &Store,
    ids: &[Id],
) -> Result<Vec<Outline>, NoMemory>
    requires { All (λ id. id < length store.now) ids.now }
    ensures { IfOk result (λ outlines.
        outlines.items ≡ map (λ id. outline_of (tree_at store.now id)) ids.now) }
{
    ids.iter().map(|id| outline_of(store, *id)).collect(alloc)
}

/// The outline of an operator's application to trees of two outlines.
pub(crate) fn joined(op: Op, a: Outline, b: Outline) -> Result<Outline, ElabKind>
    ensures { result ≡ joined op a b }
{
    match rank(op, &[a.sort, b.sort]) {
        Ok(sort) => Ok(Outline {
            sort,
            depth: above(a.depth.max(b.depth)),
        }),
        Err(fault) => Err(kind_of(fault)),
    }
}

/// The outline of a chain to the left.
pub(crate) fn joined_left(op: Op, first: Outline, others: &[Outline]) -> Result<Outline, ElabKind>
    ensures { result ≡ joined_left op first others.now }
{
    let mut chain = first;
    'outlines: for outline in others {
        chain = joined(op, chain, *outline)?;
    }
    Ok(chain)
}

/// The outline of a chain to the right.
pub(crate) fn joined_right(op: Op, outlines: &[Outline]) -> Result<Outline, ElabKind>
    requires { 0 < length outlines.now }
    ensures { result ≡ all_joined_right op outlines.now }
{
    let mut left = outlines.len() - 1;
    let mut chain = outlines[left];
    'outlines: while left > 0 {
        left -= 1;
        chain = joined(op, outlines[left], chain)?;
    }
    Ok(chain)
}

/// The fault at a place of a tree with this outline.
pub(crate) fn fault_at(place: u64, outline: Result<Outline, ElabKind>) -> Option<ElabFault>
    ensures { result ≡ fault_at place outline }
{
    let kind = match outline {
        Ok(outline) => {
            if outline.depth <= DEPTH_LIMIT {
                return None;
            }
            ElabKind::DepthLimit
        }
        Err(kind) => kind,
    };
    Some(ElabFault::At { place, kind })
}
