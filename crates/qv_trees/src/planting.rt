//! Boxed trees as terms of a store.

ghost use Rattle.std.specs.Prelude.{◌≡◌, ◌<◌, All, IfOk, length};
ghost use Rattle.qv_words.specs.Sorted.{IsSorted, AreSortedBelow, no_levels};
ghost use Rattle.qv_terms.specs.View.{tree, trees};
ghost use Rattle.qv_store.specs.Nodes.{trees_at};
ghost use Rattle.qv_store.specs.Stores.{StandsAt, Grows};
ghost use Rattle.qv_trees.specs.Planted.{ArePlanted};

use qv_store::{Id, NoMemory, Node, Store};
use qv_terms::Term;
use smallvec::SmallVec;
use std::alloc::Global;

/// The id of the term in the store, which gets what it lacks. Also where memory runs out it keeps
/// what was put.
#[cycle(plant)]
pub fn plant(alloc: Global, store: &mut Store, term: &Term) -> Result<Id, NoMemory>
    requires { IsSorted (tree term.now) }
    ensures id { IfOk result (λ id. StandsAt store.new id (tree term.now)) }
    ensures grows { Grows store.old store.new }
{
    match term {
        Term::Const { index, sort } => store.put(Node::Const {
            index: *index,
            sort: *sort,
        }),
        Term::Var { level, sort } => store.put(Node::Var {
            level: *level,
            sort: *sort,
        }),
        Term::Lit { word } => store.put(Node::Lit { word: *word }),
        Term::App { op, kids } => {
            let kids = plant_all(alloc, store, kids)?;
            store.put(Node::App { op: *op, kids })
        }
        Term::All { level, sort, body } => {
            let body = plant(alloc, store, body)?;
            store.put(Node::All {
                level: *level,
                sort: *sort,
                body,
            })
        }
        Term::Ex { level, sort, body } => {
            let body = plant(alloc, store, body)?;
            store.put(Node::Ex {
                level: *level,
                sort: *sort,
                body,
            })
        }
    }
}

// The ids of these terms.
#[cycle(plant)]
fn plant_all(alloc: Global, store: &mut Store, terms: &[Term]) -> Result<SmallVec<Id, 3>, NoMemory>
    requires { AreSortedBelow no_levels (trees terms.now) }
    ensures ids { IfOk result (λ ids. ArePlanted store.new ids.items (trees terms.now)) }
    ensures grows { Grows store.old store.new }
{
    let mut ids = SmallVec::new(alloc);
    'terms: for term in terms {
        let id = plant(alloc, store, term)?;
        ids.push(id)?;
    }
    Ok(ids)
}
