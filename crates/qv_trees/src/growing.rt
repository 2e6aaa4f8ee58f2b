//! Boxed trees of a store's terms.

ghost use Rattle.std.specs.Prelude.{◌≡◌, ◌<◌, IfOk, length};
ghost use Rattle.qv_terms.specs.View.{tree};
ghost use Rattle.qv_store.specs.Nodes.{tree_at};

use qv_store::{Id, NoMemory, Node, Store};
use qv_terms::Term;
use std::alloc::Global;

/// The term of a store as a tree that owns its parts: what is shared is there once for each place.
pub fn grow(alloc: Global, store: &Store, id: Id) -> Result<Term, NoMemory>
    requires { id < length store.now }
    ensures { IfOk result (λ term. tree term ≡ tree_at store.now id) }
{
    match store.node(id) {
        Node::Const { index, sort } => Ok(Term::Const {
            index: *index,
            sort: *sort,
        }),
        Node::Var { level, sort } => Ok(Term::Var {
            level: *level,
            sort: *sort,
        }),
        Node::Lit { word } => Ok(Term::Lit { word: *word }),
        Node::App { op, kids } => {
            let mut grown = Vec::new(alloc);
            'kids: for kid in kids.as_slice() {
                let term = grow(alloc, store, *kid)?;
                grown.push(term)?;
            }
            Ok(Term::App {
                op: *op,
                kids: grown,
            })
        }
        Node::All { level, sort, body } => Ok(Term::All {
            level: *level,
            sort: *sort,
            body: Box::new(alloc, grow(alloc, store, *body)?)?,
        }),
        Node::Ex { level, sort, body } => Ok(Term::Ex {
            level: *level,
            sort: *sort,
            body: Box::new(alloc, grow(alloc, store, *body)?)?,
        }),
    }
}
