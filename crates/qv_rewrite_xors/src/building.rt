//! The terms that chains become.

ghost use Rattle.std.specs.Prelude.{◌≡◌, ◌<◌, ◌∷◌, [], Some, IfOk, length, map, fold};
ghost use Rattle.std.specs.List.{AllByRecursion};
ghost use Rattle.qv_words.specs.declared.sort.Sort.TheVariants.{Bool as BoolSort, Bits};
ghost use Rattle.qv_words.specs.Sort.{IsLawful, IsValueOf};
ghost use Rattle.qv_words.specs.Rank.{result_sort};
ghost use Rattle.qv_words.specs.Tree.{Literal};
ghost use Rattle.qv_words.specs.Prenex.{binary};
ghost use Rattle.qv_words.specs.Inverse.{unary};
ghost use Rattle.qv_rewrite_passes.specs.Xors.{as_truth, truth_term, word_term, with_turned};
ghost use Rattle.qv_rewrite_passes.specs.Xors.{term_of};
ghost use Rattle.qv_store.specs.Nodes.{tree_at};
ghost use Rattle.qv_store.specs.Stores.{Grows};
ghost use Rattle.qv_rewrite_sums.specs.Held.{StandsAs};
ghost use Rattle.qv_rewrite_xors.specs.Held.{chain_at, AreBelow, IsAtom, IsChainFor, IsOfSort};

use crate::chained::Chained;
use qv_rewrite_sums::{ones, put_two, terms_in_order};
use qv_store::{Id, NoMemory, Node, Store};
use qv_words::{Op, Sort, Word};
use smallvec::SmallVec;
use std::alloc::Global;

// The term of a chain of this sort.
pub(crate) fn chain_term(
    alloc: Global,
    store: &mut Store,
    sort: Sort,
    chain: &Chained,
) -> Result<Id, NoMemory>
    requires lawful { IsLawful sort }
    requires below { AreBelow (length store.old) chain.now.atoms.items }
    requires fits { IsChainFor sort (chain_at store.old chain.now) }
    ensures id { IfOk result (λ id. StandsAs store.new sort id
        (term_of sort (chain_at store.old chain.now))) }
    ensures grows { Grows store.old store.new }
{
    let ordered = terms_in_order(alloc, store, chain.atoms.as_slice())?;
    match sort {
        Sort::Bool => truth_term(alloc, store, chain.constant, ordered.as_slice()),
        Sort::Bits(width) => word_term(alloc, store, width, chain.constant, ordered.as_slice()),
    }
}

// Words joined from the left, and the bits of a number turned.
fn word_term(
    alloc: Global,
    store: &mut Store,
    width: u8,
    number: u128,
    atoms: &[Id],
) -> Result<Id, NoMemory>
    requires lawful { IsLawful (Bits width) }
    requires number { IsValueOf number (Bits width) }
    requires atoms { AllByRecursion (IsOfSort store.old (Bits width)) atoms.now }
    ensures id { IfOk result (λ id. StandsAs store.new (Bits width) id
        (word_term width number (map (tree_at store.old) atoms.now))) }
    ensures grows { Grows store.old store.new }
{
    match atoms {
        [] => put_value(store, Sort::Bits(width), number),
        [first, rest @ ..] => {
            let term = joined(alloc, store, Op::BvXor, Sort::Bits(width), *first, rest)?;
            with_turned(alloc, store, width, number, term)
        }
    }
}

// A word with these bits turned.
fn with_turned(
    alloc: Global,
    store: &mut Store,
    width: u8,
    number: u128,
    term: Id,
) -> Result<Id, NoMemory>
    requires lawful { IsLawful (Bits width) }
    requires number { IsValueOf number (Bits width) }
    requires term { IsOfSort store.old (Bits width) term }
    ensures id { IfOk result (λ id. StandsAs store.new (Bits width) id
        (with_turned width number (tree_at store.old term))) }
    ensures grows { Grows store.old store.new }
{
    if number == 0 {
        return Ok(term);
    }
    if number == ones(width) {
        return put_one(alloc, store, Op::BvNot, Sort::Bits(width), term);
    }
    let last = put_value(store, Sort::Bits(width), number)?;
    put_pair(alloc, store, Op::BvXor, Sort::Bits(width), term, last)
}

// Truth values joined from the left, and negated once where the number is 1.
fn truth_term(alloc: Global, store: &mut Store, number: u128, atoms: &[Id]) -> Result<Id, NoMemory>
    requires number { IsValueOf number BoolSort }
    requires below { AreBelow (length store.old) atoms.now }
    requires atoms { AllByRecursion (IsAtom BoolSort) (map (tree_at store.old) atoms.now) }
    ensures id { IfOk result (λ id. StandsAs store.new BoolSort id
        (truth_term number (map as_truth (map (tree_at store.old) atoms.now)))) }
    ensures grows { Grows store.old store.new }
{
    let truths = truths(alloc, store, atoms)?;
    match truths.as_slice() {
        [] => put_value(store, Sort::Bool, number),
        [first, rest @ ..] => {
            let term = joined(alloc, store, Op::Xor, Sort::Bool, *first, rest)?;
            if number == 0 {
                return Ok(term);
            }
            put_one(alloc, store, Op::Not, Sort::Bool, term)
        }
    }
}

// Each term as a truth value.
fn truths(alloc: Global, store: &mut Store, atoms: &[Id]) -> Result<Vec<Id>, NoMemory>
    requires below { AreBelow (length store.old) atoms.now }
    requires atoms { AllByRecursion (IsAtom BoolSort) (map (tree_at store.old) atoms.now) }
    ensures truths { IfOk result (λ truths. map (tree_at store.new) truths.items
        ≡ map as_truth (map (tree_at store.old) atoms.now)) }
    ensures sorts { IfOk result (λ truths.
        AllByRecursion (IsOfSort store.new BoolSort) truths.items) }
    ensures grows { Grows store.old store.new }
{
    let mut truths = Vec::new(alloc);
    'atoms: for id in atoms {
        let truth = as_truth(alloc, store, *id)?;
        truths.push(truth)?;
    }
    Ok(truths)
}

// A term as a truth value: of a bit, that it is 1.
fn as_truth(alloc: Global, store: &mut Store, id: Id) -> Result<Id, NoMemory>
    requires id { id < length store.old }
    requires atom { IsAtom BoolSort (tree_at store.old id) }
    ensures id { IfOk result (λ truth. StandsAs store.new BoolSort truth
        (as_truth (tree_at store.old id))) }
    ensures grows { Grows store.old store.new }
{
    match store.sort(id) {
        Sort::Bool => Ok(id),
        Sort::Bits(_) => {
            let one = put_value(store, Sort::Bits(1), 1)?;
            let _terms = store.len();
            put_two(alloc, store, Op::Equal, id, one)
        }
    }
}

// Terms of one sort joined by an operator from the left.
fn joined(
    alloc: Global,
    store: &mut Store,
    op: Op,
    sort: Sort,
    first: Id,
    rest: &[Id],
) -> Result<Id, NoMemory>
    requires rank { result_sort op (sort ∷ sort ∷ []) ≡ Some sort }
    requires first { IsOfSort store.old sort first }
    requires rest { AllByRecursion (IsOfSort store.old sort) rest.now }
    ensures id { IfOk result (λ id. StandsAs store.new sort id
        (fold (binary op) (tree_at store.old first) (map (tree_at store.old) rest.now))) }
    ensures grows { Grows store.old store.new }
{
    let mut term = first;
    'rest: for next in rest {
        term = put_pair(alloc, store, op, sort, term, *next)?;
    }
    Ok(term)
}

// An operator's application to two terms of the sort that it has.
fn put_pair(
    alloc: Global,
    store: &mut Store,
    op: Op,
    sort: Sort,
    a: Id,
    b: Id,
) -> Result<Id, NoMemory>
    requires rank { result_sort op (sort ∷ sort ∷ []) ≡ Some sort }
    requires a { IsOfSort store.old sort a }
    requires b { IsOfSort store.old sort b }
    ensures id { IfOk result (λ id. StandsAs store.new sort id
        (binary op (tree_at store.old a) (tree_at store.old b))) }
    ensures grows { Grows store.old store.new }
{
    let _terms = store.len();
    put_two(alloc, store, op, a, b)
}

// The same of one.
fn put_one(alloc: Global, store: &mut Store, op: Op, sort: Sort, a: Id) -> Result<Id, NoMemory>
    requires rank { result_sort op (sort ∷ []) ≡ Some sort }
    requires a { IsOfSort store.old sort a }
    ensures id { IfOk result (λ id. StandsAs store.new sort id
        (unary op (tree_at store.old a))) }
    ensures grows { Grows store.old store.new }
{
    let _terms = store.len();
    let kids = SmallVec::from_slice(alloc, &[a])?;
    store.put(Node::App { op, kids })
}

// The literal of a value.
fn put_value(store: &mut Store, sort: Sort, value: u128) -> Result<Id, NoMemory>
    requires lawful { IsLawful sort }
    requires value { IsValueOf value sort }
    ensures id { IfOk result (λ id. StandsAs store.new sort id (Literal sort value)) }
    ensures grows { Grows store.old store.new }
{
    match Word::new(sort, value) {
        Some(word) => store.put(Node::Lit { word }),
        None => unreachable!(),
    }
}
