//! Regions and their negations, put into a store.

ghost use Rattle.std.specs.Prelude.{◌≡◌, ◌<◌, IfOk, Some, length};
ghost use Rattle.qv_words.specs.declared.sort.Sort.TheVariants.{Bool as BoolSort};
ghost use Rattle.qv_words.specs.Tree.{tree_sort};
ghost use Rattle.qv_words.specs.Linked.{last_region};
ghost use Rattle.qv_words.specs.Prenex.{negation};
ghost use Rattle.qv_store.specs.Nodes.{tree_at};
ghost use Rattle.qv_store.specs.Problems.{problem_in, quantifier_of, IsPosedIn};
ghost use Rattle.qv_store.specs.Stores.{AreShared, Grows, StandsAt};

use qv_store::{Id, NoMemory, Node, Problem, Quant, Store};
use qv_words::Op;
use smallvec::SmallVec;
use std::alloc::Global;

// The negation of a formula.
pub(crate) fn put_negation(alloc: Global, store: &mut Store, formula: Id) -> Result<Id, NoMemory>
    requires id { formula < length store.old }
    requires formula { tree_sort (tree_at store.old formula) ≡ Some BoolSort }
    ensures id { IfOk result (λ id. StandsAt store.new id (negation (tree_at store.old formula))) }
    ensures grows { Grows store.old store.new }
    ensures shared { AreShared store.new }
{
    // What every store keeps.
    let _few = store.len();
    let kids = SmallVec::from_slice(alloc, &[formula])?;
    store.put(Node::App { op: Op::Not, kids })
}

/// Puts a player's region behind the last block: the matrix, or its negation.
pub fn put_last(
    alloc: Global,
    store: &mut Store,
    problem: &Problem,
    owner: Quant,
) -> Result<Id, NoMemory>
    requires { IsPosedIn store.old problem.now }
    ensures id { IfOk result (λ id. StandsAt store.new id
        (last_region (problem_in store.old problem.now) (quantifier_of owner))) }
    ensures grows { Grows store.old store.new }
    ensures shared { AreShared store.new }
{
    // What every store keeps.
    let _few = store.len();
    match owner {
        Quant::Exists => Ok(problem.matrix),
        Quant::Forall => put_negation(alloc, store, problem.matrix),
    }
}
