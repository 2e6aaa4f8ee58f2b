//! Nodes: what a term is at its top, with its children by their ids.

ghost use Rattle.std.specs.Prelude.{◌≡◌, List, IfOk, length};

use crate::id::Id;
use crate::store::NoMemory;
use qv_words::{Op, Sort, Word};
use smallvec::SmallVec;
use std::alloc::Global;
use std::slice;

/// The top of a term, over terms of a store.
#[derive(Debug, PartialEq, Eq, Hash, Drop)]
pub enum Node {
    /// A free constant, by its index.
    Const { index: u64, sort: Sort },
    /// A variable, by its level.
    Var { level: u64, sort: Sort },
    /// A value.
    Lit { word: Word },
    /// An operator's application. No operator takes more than three arguments.
    App { op: Op, kids: SmallVec<Id, 3> },
    /// A universal quantifier over the variable of a level.
    All { level: u64, sort: Sort, body: Id },
    /// An existential quantifier over the variable of a level.
    Ex { level: u64, sort: Sort, body: Id },
}

impl Node {
    ghost use Rattle.qv_store.specs.Nodes.{children, IsLike};

    /// Its children, in order.
    pub fn children(&self) -> &[Id]
        ensures { result.now ≡ children self.now }
    {
        match self {
            Node::Const { .. } | Node::Var { .. } | Node::Lit { .. } => &[],
            Node::App { kids, .. } => kids.as_slice(),
            Node::All { body, .. } | Node::Ex { body, .. } => slice::from_ref(body),
        }
    }

    /// A node of its own that is the same.
    pub fn copy(&self, alloc: Global) -> Result<Node, NoMemory>
        ensures { IfOk result (λ copied. IsLike self.now copied) }
    {
        match self {
            Node::Const { index, sort } => Ok(Node::Const {
                index: *index,
                sort: *sort,
            }),
            Node::Var { level, sort } => Ok(Node::Var {
                level: *level,
                sort: *sort,
            }),
            Node::Lit { word } => Ok(Node::Lit { word: *word }),
            Node::App { op, kids } => Ok(Node::App {
                op: *op,
                kids: SmallVec::from_slice(alloc, kids.as_slice())?,
            }),
            Node::All { level, sort, body } => Ok(Node::All {
                level: *level,
                sort: *sort,
                body: *body,
            }),
            Node::Ex { level, sort, body } => Ok(Node::Ex {
                level: *level,
                sort: *sort,
                body: *body,
            }),
        }
    }
}
