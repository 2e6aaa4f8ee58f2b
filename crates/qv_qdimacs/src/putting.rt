//! Formulas that are put into a store.

ghost use Rattle.std.specs.Prelude.{◌≡◌, ◌<◌, All, IfOk, length};
ghost use Rattle.qv_words.specs.Tree.{Apply};
ghost use Rattle.qv_words.specs.Sorted.{IsSorted};
ghost use Rattle.qv_words.specs.Prenex.{binary, negation};
ghost use Rattle.qv_words.specs.Passes.{truth_literal};
ghost use Rattle.qv_store.specs.Nodes.{tree_at, trees_at};
ghost use Rattle.qv_store.specs.Stores.{AreShared, Grows, StandsAt};
ghost use Rattle.qv_qdimacs.specs.Translation.{connective, bound_by};
ghost use Rattle.qv_qdimacs.specs.Formulas.{IsFormulaAt};

use qv_store::{Id, NoMemory, Node, Quant, Store};
use qv_words::{Op, Sort, Word};
use smallvec::SmallVec;
use std::alloc::Global;

// An operator's application.
fn put_application(alloc: Global, store: &mut Store, op: Op, kids: &[Id]) -> Result<Id, NoMemory>
    requires kids { All (λ id. id < length store.old) kids.now }
    requires sorted { IsSorted (Apply op (trees_at store.old kids.now)) }
    ensures id { IfOk result (λ id. StandsAt store.new id
        (Apply op (trees_at store.old kids.now))) }
    ensures grows { Grows store.old store.new }
    ensures shared { AreShared store.new }
{
    let _few = store.len();
    let kids = SmallVec::from_slice(alloc, kids)?;
    store.put(Node::App { op, kids })
}

fn connective(both: bool) -> Op
    ensures { result ≡ connective both }
{
    if both { Op::And } else { Op::Or }
}

/// The conjunction of two formulas, or their disjunction.
pub(crate) fn put_pair(
    alloc: Global,
    store: &mut Store,
    both: bool,
    a: Id,
    b: Id,
) -> Result<Id, NoMemory>
    requires a { IsFormulaAt store.old a }
    requires b { IsFormulaAt store.old b }
    ensures id { IfOk result (λ id. StandsAt store.new id
        (binary (connective both) (tree_at store.old a) (tree_at store.old b))) }
    ensures grows { Grows store.old store.new }
    ensures shared { AreShared store.new }
{
    put_application(alloc, store, connective(both), &[a, b])
}

/// The negation of a formula.
pub(crate) fn put_negation(alloc: Global, store: &mut Store, a: Id) -> Result<Id, NoMemory>
    requires { IsFormulaAt store.old a }
    ensures id { IfOk result (λ id. StandsAt store.new id (negation (tree_at store.old a))) }
    ensures grows { Grows store.old store.new }
    ensures shared { AreShared store.new }
{
    put_application(alloc, store, Op::Not, &[a])
}

/// A truth value.
pub(crate) fn put_truth(store: &mut Store, holds: bool) -> Result<Id, NoMemory>
    ensures id { IfOk result (λ id. StandsAt store.new id (truth_literal holds)) }
    ensures grows { Grows store.old store.new }
    ensures shared { AreShared store.new }
{
    store.put(Node::Lit {
        word: Word::truth(holds),
    })
}

/// A formula under a quantifier over the variable of a level.
pub(crate) fn put_quantifier(
    store: &mut Store,
    quant: Quant,
    level: u64,
    body: Id,
) -> Result<Id, NoMemory>
    requires { IsFormulaAt store.old body }
    ensures id { IfOk result (λ id. StandsAt store.new id
        (bound_by quant level (tree_at store.old body))) }
    ensures grows { Grows store.old store.new }
    ensures shared { AreShared store.new }
{
    let sort = Sort::Bool;
    match quant {
        Quant::Exists => store.put(Node::Ex { level, sort, body }),
        Quant::Forall => store.put(Node::All { level, sort, body }),
    }
}
