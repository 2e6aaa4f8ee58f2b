//! The conjunction of formulas, as a term.

ghost use Rattle.std.specs.Prelude.{◌≡◌, ◌<◌, Some, All, IfOk, OnOk, length, map};
ghost use Rattle.qv_words.specs.declared.sort.Sort.TheVariants.{Bool as BoolSort};
ghost use Rattle.qv_words.specs.declared.op.Op.TheVariants.{And};
ghost use Rattle.qv_words.specs.Tree.{Literal, tree_sort};
ghost use Rattle.qv_words.specs.Prenex.{binary};
ghost use Rattle.qv_words.specs.Problem.{conjunction, conjunction_with};
ghost use Rattle.qv_store.specs.Nodes.{tree_at};
ghost use Rattle.qv_store.specs.Stores.{AreShared, Grows, StandsAt};

use qv_store::{Id, NoMemory, Node, Store};
use qv_words::{Op, Word};
use smallvec::SmallVec;
use std::alloc::Global;

/// The conjunction of formulas in order: `true` of none, and of one the formula itself. Also where
/// memory runs out the store keeps what was put.
pub fn conjoin(alloc: Global, store: &mut Store, formulas: &[Id]) -> Result<Id, NoMemory>
    requires ids { All (λ id. id < length store.old) formulas.now }
    requires bool { All (λ id. tree_sort (tree_at store.old id) ≡ Some BoolSort) formulas.now }
    ensures id { IfOk result (λ id. StandsAt store.new id
        (conjunction (map (tree_at store.old) formulas.now))) }
    ensures grows { Grows store.old store.new }
    ensures shared { OnOk result (AreShared store.new) }
{
    let _few = store.len();
    match formulas {
        [] => put_true(store),
        [first, rest @ ..] => conjoin_with(alloc, store, *first, rest),
    }
}

// The literal `true`.
fn put_true(store: &mut Store) -> Result<Id, NoMemory>
    ensures id { IfOk result (λ id. StandsAt store.new id (Literal BoolSort 1)) }
    ensures grows { Grows store.old store.new }
    ensures shared { AreShared store.new }
{
    store.put(Node::Lit {
        word: Word::truth(true),
    })
}

// The conjunction of a formula and others, from left to right.
fn conjoin_with(alloc: Global, store: &mut Store, first: Id, rest: &[Id]) -> Result<Id, NoMemory>
    requires id { first < length store.old }
    requires ids { All (λ id. id < length store.old) rest.now }
    requires bool { tree_sort (tree_at store.old first) ≡ Some BoolSort }
    requires bools { All (λ id. tree_sort (tree_at store.old id) ≡ Some BoolSort) rest.now }
    requires shared { AreShared store.old }
    ensures id { IfOk result (λ id. StandsAt store.new id
        (conjunction_with (tree_at store.old first) (map (tree_at store.old) rest.now))) }
    ensures grows { Grows store.old store.new }
    ensures shared { OnOk result (AreShared store.new) }
{
    let mut id = first;
    'each: for formula in rest {
        id = put_and(alloc, store, id, *formula)?;
    }
    Ok(id)
}

fn put_and(alloc: Global, store: &mut Store, a: Id, b: Id) -> Result<Id, NoMemory>
    requires a { a < length store.old }
    requires b { b < length store.old }
    requires a_bool { tree_sort (tree_at store.old a) ≡ Some BoolSort }
    requires b_bool { tree_sort (tree_at store.old b) ≡ Some BoolSort }
    ensures id { IfOk result (λ id. StandsAt store.new id
        (binary And (tree_at store.old a) (tree_at store.old b))) }
    ensures grows { Grows store.old store.new }
    ensures shared { AreShared store.new }
{
    let _few = store.len();
    let kids = SmallVec::from_slice(alloc, &[a, b])?;
    store.put(Node::App { op: Op::And, kids })
}
