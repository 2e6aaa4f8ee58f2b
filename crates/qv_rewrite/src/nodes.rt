//! The arguments of an application, as a node has them.

ghost use Rattle.std.specs.Prelude.{◌≡◌, IfOk, IsTrue};
ghost use Rattle.qv_rewrite.specs.Made.{numbers_of};
ghost use Rattle.qv_rewrite.specs.Steps.{IsNodeOf};

use crate::args::Args;
use qv_store::{Id, NoMemory, Node};
use qv_words::Op;
use smallvec::SmallVec;
use std::alloc::Global;

// The node of an operator's application to these arguments.
pub(crate) fn node_of(alloc: Global, op: Op, args: &Args) -> Result<Node, NoMemory>
    ensures { IfOk result (λ node. IsNodeOf args.now op node) }
{
    let kids = match args {
        Args::One(a) => SmallVec::from_slice(alloc, &[*a])?,
        Args::Two(a, b) => SmallVec::from_slice(alloc, &[*a, *b])?,
        Args::Three(a, b, c) => SmallVec::from_slice(alloc, &[*a, *b, *c])?,
    };
    Ok(Node::App { op, kids })
}

// Whether the arguments are these.
pub(crate) fn are_these(args: &Args, ids: &[Id]) -> bool
    ensures { IsTrue result → ids.now ≡ numbers_of args.now }
{
    match (args, ids) {
        (Args::One(a), [x]) => a == x,
        (Args::Two(a, b), [x, y]) => a == x && b == y,
        (Args::Three(a, b, c), [x, y, z]) => a == x && b == y && c == z,
        _ => false,
    }
}
