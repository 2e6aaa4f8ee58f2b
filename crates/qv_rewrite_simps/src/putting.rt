//! What small rules make, put into a store.

ghost use Rattle.std.specs.Prelude.{◌≡◌, ◌<◌, All, Some, IfOk, length, unwrap_or};
ghost use Rattle.qv_words.specs.Sort.{IsLawful, IsValueOf};
ghost use Rattle.qv_words.specs.Tree.{Apply, Literal, tree_sort};
ghost use Rattle.qv_words.specs.Sorted.{IsSorted};
ghost use Rattle.qv_words.specs.Inverse.{unary};
ghost use Rattle.qv_words.specs.Passes.{under_both};
ghost use Rattle.qv_rewrite_passes.specs.Simps.{complement};
ghost use Rattle.qv_store.specs.Nodes.{tree_at, trees_at};
ghost use Rattle.qv_store.specs.Stores.{Grows, StandsAt};
ghost use Rattle.qv_rewrite_simps.specs.Held.{IsNegation, literal_of, picked_tree};

use crate::args::Picked;
use crate::testing::{sort_of, under};
use qv_rewrite_passes::Outcome;
use qv_store::{Id, NoMemory, Node, Store};
use qv_words::{Op, Sort, Word};
use smallvec::SmallVec;
use std::alloc::Global;

// What a table makes of an argument.
pub(crate) fn put_picked(alloc: Global, store: &mut Store, picked: Picked) -> Result<Id, NoMemory>
    requires below { picked.id < length store.old }
    requires sorted { IsSorted (picked_tree store.old picked) }
    ensures id { IfOk result (λ id. StandsAt store.new id (picked_tree store.old picked)) }
    ensures grows { Grows store.old store.new }
{
    let id = picked.id;
    let sort = sort_of(store, id);
    match picked.outcome {
        Outcome::Argument => Ok(id),
        Outcome::Complement => put_complement(alloc, store, sort, id),
        Outcome::Number(value) => put_value(store, sort, value),
        Outcome::Truth(truth) => put_word(store, Word::truth(truth)),
        Outcome::Under(op, value) => {
            let last = put_value(store, sort, value)?;
            put_application(alloc, store, op, &[id, last])
        }
    }
}

// A negation's argument, or else the negation.
pub(crate) fn put_complement(
    alloc: Global,
    store: &mut Store,
    sort: Sort,
    id: Id,
) -> Result<Id, NoMemory>
    requires id { id < length store.old }
    requires sort { tree_sort (tree_at store.old id) ≡ Some sort }
    ensures id { IfOk result (λ made. StandsAt store.new made
        (complement sort (tree_at store.old id))) }
    ensures grows { Grows store.old store.new }
{
    let _terms = store.len();
    match sort {
        Sort::Bool => put_negation(alloc, store, Op::Not, id),
        Sort::Bits(_) => put_negation(alloc, store, Op::BvNot, id),
    }
}

fn put_negation(alloc: Global, store: &mut Store, op: Op, id: Id) -> Result<Id, NoMemory>
    requires id { id < length store.old }
    requires negation { IsNegation op }
    requires sorted { IsSorted (unary op (tree_at store.old id)) }
    ensures id { IfOk result (λ made. StandsAt store.new made
        (unwrap_or (under_both op (tree_at store.old id)) (unary op (tree_at store.old id)))) }
    ensures grows { Grows store.old store.new }
{
    match under(store, op, id) {
        Some(kid) => Ok(kid),
        None => put_application(alloc, store, op, &[id]),
    }
}

// The literal of a value.
fn put_value(store: &mut Store, sort: Sort, value: u128) -> Result<Id, NoMemory>
    requires lawful { IsLawful sort }
    requires value { IsValueOf value sort }
    ensures id { IfOk result (λ id. StandsAt store.new id (Literal sort value)) }
    ensures grows { Grows store.old store.new }
{
    match Word::new(sort, value) {
        Some(word) => store.put(Node::Lit { word }),
        None => unreachable!(),
    }
}

// A word's literal.
fn put_word(store: &mut Store, word: Word) -> Result<Id, NoMemory>
    ensures id { IfOk result (λ id. StandsAt store.new id (literal_of word)) }
    ensures grows { Grows store.old store.new }
{
    store.put(Node::Lit { word })
}

// An operator's application.
pub(crate) fn put_application(
    alloc: Global,
    store: &mut Store,
    op: Op,
    kids: &[Id],
) -> Result<Id, NoMemory>
    requires below { All (λ kid. kid < length store.old) kids.now }
    requires sorted { IsSorted (Apply op (trees_at store.old kids.now)) }
    ensures id { IfOk result (λ id. StandsAt store.new id
        (Apply op (trees_at store.old kids.now))) }
    ensures grows { Grows store.old store.new }
{
    let kids = SmallVec::from_slice(alloc, kids)?;
    store.put(Node::App { op, kids })
}
