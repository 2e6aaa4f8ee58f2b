//! Choices that are put into a store.

ghost use Rattle.std.specs.Prelude.{◌≡◌, ◌<◌, Some, IfOk, IfSome, option_map, length};
ghost use Rattle.qv_words.specs.declared.sort.Sort.TheVariants.{Bool as BoolSort};
ghost use Rattle.qv_words.specs.Tree.{tree_sort};
ghost use Rattle.qv_words.specs.Prenex.{ite};
ghost use Rattle.qv_store.specs.Nodes.{tree_at};
ghost use Rattle.qv_store.specs.Stores.{Grows, StandsAt};
ghost use Rattle.qv_skolem.specs.Chains.{headed};

use qv_store::{Id, NoMemory, Node, Store};
use qv_words::Op;
use smallvec::SmallVec;
use std::alloc::Global;

// The choice between two terms by a formula.
fn put_ite(alloc: Global, store: &mut Store, formula: Id, yes: Id, no: Id) -> Result<Id, NoMemory>
    requires formula { formula < length store.old }
    requires yes { yes < length store.old }
    requires no { no < length store.old }
    requires bool { tree_sort (tree_at store.old formula) ≡ Some BoolSort }
    requires alike { tree_sort (tree_at store.old yes) ≡ tree_sort (tree_at store.old no) }
    ensures id { IfOk result (λ id. StandsAt store.new id
        (ite (tree_at store.old formula) (tree_at store.old yes) (tree_at store.old no))) }
    ensures grows { Grows store.old store.new }
{
    let _few = store.len();
    let kids = SmallVec::from_slice(alloc, &[formula, yes, no])?;
    store.put(Node::App { op: Op::Ite, kids })
}

// A term before others, chosen by a region, or alone.
pub(crate) fn put_headed(
    alloc: Global,
    store: &mut Store,
    region: Option<Id>,
    term: Id,
    rest: Id,
) -> Result<Id, NoMemory>
    requires term { term < length store.old }
    requires rest { rest < length store.old }
    requires region { IfSome region (λ region. (region < length store.old)
        × (tree_sort (tree_at store.old region) ≡ Some BoolSort)
        × (tree_sort (tree_at store.old term) ≡ tree_sort (tree_at store.old rest))) }
    ensures id { IfOk result (λ id. StandsAt store.new id
        (headed (option_map (tree_at store.old) region) (tree_at store.old term)
        (tree_at store.old rest))) }
    ensures grows { Grows store.old store.new }
{
    match region {
        Some(region) => put_ite(alloc, store, region, term, rest),
        None => Ok(term),
    }
}
