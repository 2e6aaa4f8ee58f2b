//! The terms that sums become.

ghost use Rattle.std.specs.Prelude.{◌≡◌, ◌^◌, ◌≤◌, ◌<◌, ◌∷◌, [], Some, IfOk, OnOk, length, map, fold};
ghost use Rattle.qv_words.specs.declared.sort.Sort.TheVariants.{Bits};
ghost use Rattle.qv_words.specs.declared.op.Op.TheVariants.{BvSub};
ghost use Rattle.qv_words.specs.Rank.{result_sort};
ghost use Rattle.qv_words.specs.Tree.{tree_sort};
ghost use Rattle.qv_words.specs.Sorted.{IsSorted};
ghost use Rattle.qv_words.specs.Prenex.{binary};
ghost use Rattle.qv_words.specs.Inverse.{unary, number};
ghost use Rattle.qv_words.specs.Sums.{product_term, sum_term, opposite_term, difference_term};
ghost use Rattle.qv_words.specs.Sums.{added, subtracted, term_of};
ghost use Rattle.qv_store.specs.Nodes.{tree_at};
ghost use Rattle.qv_store.specs.Stores.{Grows, StandsAt};
ghost use Rattle.qv_rewrite_sums.specs.Held.{monomial_at, sum_at, IsWord, AreWords};
ghost use Rattle.qv_rewrite_sums.specs.Held.{IsOfWords, AreOfWords, StandsAs};

use crate::combining::number_of;
use crate::ordering::with_order;
use crate::parts::{added, subtracted, with_factors, without_factors};
use crate::product::Product;
use qv_store::{Id, NoMemory, Node, Store};
use qv_words::{Op, Sort, Word};
use smallvec::SmallVec;
use std::alloc::Global;

// The term of a sum of words.
pub(crate) fn word_term(
    alloc: Global,
    store: &mut Store,
    width: u8,
    sum: &[Product],
) -> Result<Id, NoMemory>
    requires low { 1 ≤ width }
    requires high { width ≤ 128 }
    requires fits { AreOfWords width (sum_at store.old sum.now) }
    ensures id { IfOk result (λ id. StandsAs store.new (Bits width) id
        (term_of width (sum_at store.old sum.now))) }
    ensures grows { Grows store.old store.new }
{
    match number_of(sum) {
        Some(value) => put_number(store, width, value),
        None => {
            let ordered = with_order(alloc, store, sum)?;
            ordered_term(alloc, store, width, &ordered)
        }
    }
}

// What is added in a sum less what is subtracted.
fn ordered_term(
    alloc: Global,
    store: &mut Store,
    width: u8,
    ordered: &[Product],
) -> Result<Id, NoMemory>
    requires low { 1 ≤ width }
    requires high { width ≤ 128 }
    requires fits { AreOfWords width (sum_at store.old ordered.now) }
    ensures id { IfOk result (λ id. StandsAs store.new (Bits width) id
        (difference_term width (added width (sum_at store.old ordered.now))
        (subtracted width (sum_at store.old ordered.now)))) }
    ensures grows { Grows store.old store.new }
{
    let plus = added(alloc, width, ordered)?;
    let minus = subtracted(alloc, width, ordered)?;
    difference_term(alloc, store, width, &plus, &minus)
}

// What is added less what is subtracted.
fn difference_term(
    alloc: Global,
    store: &mut Store,
    width: u8,
    plus: &[Product],
    minus: &[Product],
) -> Result<Id, NoMemory>
    requires low { 1 ≤ width }
    requires high { width ≤ 128 }
    requires plus { AreOfWords width (sum_at store.old plus.now) }
    requires minus { AreOfWords width (sum_at store.old minus.now) }
    ensures id { IfOk result (λ id. StandsAs store.new (Bits width) id
        (difference_term width (sum_at store.old plus.now) (sum_at store.old minus.now))) }
    ensures grows { Grows store.old store.new }
{
    if minus.is_empty() {
        return sum_term(alloc, store, width, plus);
    }
    if plus.is_empty() {
        return opposite_term(alloc, store, width, minus);
    }
    put_difference(alloc, store, width, plus, minus)
}

// A sum less another.
fn put_difference(
    alloc: Global,
    store: &mut Store,
    width: u8,
    plus: &[Product],
    minus: &[Product],
) -> Result<Id, NoMemory>
    requires low { 1 ≤ width }
    requires high { width ≤ 128 }
    requires plus { AreOfWords width (sum_at store.old plus.now) }
    requires minus { AreOfWords width (sum_at store.old minus.now) }
    ensures id { IfOk result (λ id. StandsAs store.new (Bits width) id
        (binary BvSub (sum_term width (sum_at store.old plus.now))
        (sum_term width (sum_at store.old minus.now)))) }
    ensures grows { Grows store.old store.new }
{
    let first = sum_term(alloc, store, width, plus)?;
    let second = sum_term(alloc, store, width, minus)?;
    put_words(alloc, store, Op::BvSub, width, first, second)
}

// The opposite of a sum.
fn opposite_term(
    alloc: Global,
    store: &mut Store,
    width: u8,
    sum: &[Product],
) -> Result<Id, NoMemory>
    requires low { 1 ≤ width }
    requires high { width ≤ 128 }
    requires fits { AreOfWords width (sum_at store.old sum.now) }
    ensures id { IfOk result (λ id. StandsAs store.new (Bits width) id
        (opposite_term width (sum_at store.old sum.now))) }
    ensures grows { Grows store.old store.new }
{
    let numbers = without_factors(alloc, sum)?;
    if number_of(&numbers).unwrap_or(0) == 1 {
        let others = with_factors(alloc, sum)?;
        let term = sum_term(alloc, store, width, &others)?;
        put_word(alloc, store, Op::BvNot, width, term)
    } else {
        let term = sum_term(alloc, store, width, sum)?;
        put_word(alloc, store, Op::BvNeg, width, term)
    }
}

// The terms of products, added from the left.
pub(crate) fn sum_term(
    alloc: Global,
    store: &mut Store,
    width: u8,
    sum: &[Product],
) -> Result<Id, NoMemory>
    requires low { 1 ≤ width }
    requires high { width ≤ 128 }
    requires fits { AreOfWords width (sum_at store.old sum.now) }
    ensures id { IfOk result (λ id. StandsAs store.new (Bits width) id
        (sum_term width (sum_at store.old sum.now))) }
    ensures grows { Grows store.old store.new }
{
    let terms = product_terms(alloc, store, width, sum)?;
    match terms.as_slice() {
        [] => put_number(store, width, 0),
        [first, rest @ ..] => joined(alloc, store, Op::BvAdd, width, *first, rest),
    }
}

// The terms of products.
fn product_terms(
    alloc: Global,
    store: &mut Store,
    width: u8,
    sum: &[Product],
) -> Result<Vec<Id>, NoMemory>
    requires low { 1 ≤ width }
    requires high { width ≤ 128 }
    requires fits { AreOfWords width (sum_at store.old sum.now) }
    ensures terms { IfOk result (λ terms. map (tree_at store.new) terms.items
        ≡ map (product_term width) (sum_at store.old sum.now)) }
    ensures words { IfOk result (λ terms.
        AreWords width (map (tree_at store.new) terms.items)) }
    ensures grows { Grows store.old store.new }
{
    let mut terms = Vec::new(alloc);
    'products: for product in sum {
        let term = product_term(alloc, store, width, product)?;
        terms.push(term)?;
    }
    Ok(terms)
}

// The factors of a product multiplied from the left, times its coefficient where that isn't 1.
fn product_term(
    alloc: Global,
    store: &mut Store,
    width: u8,
    product: &Product,
) -> Result<Id, NoMemory>
    requires low { 1 ≤ width }
    requires high { width ≤ 128 }
    requires fits { IsOfWords width (monomial_at store.old product.now) }
    ensures id { IfOk result (λ id. StandsAs store.new (Bits width) id
        (product_term width (monomial_at store.old product.now))) }
    ensures grows { Grows store.old store.new }
{
    match product.factors.as_slice() {
        [] => put_number(store, width, product.coefficient),
        [first, rest @ ..] => {
            let factors = joined(alloc, store, Op::BvMul, width, *first, rest)?;
            if product.coefficient == 1 {
                return Ok(factors);
            }
            let coefficient = put_number(store, width, product.coefficient)?;
            put_words(alloc, store, Op::BvMul, width, factors, coefficient)
        }
    }
}

// Words joined by an operator from the left.
fn joined(
    alloc: Global,
    store: &mut Store,
    op: Op,
    width: u8,
    first: Id,
    rest: &[Id],
) -> Result<Id, NoMemory>
    requires rank { result_sort op (Bits width ∷ Bits width ∷ []) ≡ Some (Bits width) }
    requires first { IsWord width (tree_at store.old first) }
    requires rest { AreWords width (map (tree_at store.old) rest.now) }
    ensures id { IfOk result (λ id. StandsAs store.new (Bits width) id
        (fold (binary op) (tree_at store.old first) (map (tree_at store.old) rest.now))) }
    ensures grows { Grows store.old store.new }
{
    let mut term = first;
    'rest: for next in rest {
        term = put_words(alloc, store, op, width, term, *next)?;
    }
    Ok(term)
}

// An operator's application to two words that is a word.
fn put_words(
    alloc: Global,
    store: &mut Store,
    op: Op,
    width: u8,
    a: Id,
    b: Id,
) -> Result<Id, NoMemory>
    requires rank { result_sort op (Bits width ∷ Bits width ∷ []) ≡ Some (Bits width) }
    requires a { IsWord width (tree_at store.old a) }
    requires b { IsWord width (tree_at store.old b) }
    ensures id { IfOk result (λ id. StandsAs store.new (Bits width) id
        (binary op (tree_at store.old a) (tree_at store.old b))) }
    ensures grows { Grows store.old store.new }
{
    let _terms = store.len();
    put_two(alloc, store, op, a, b)
}

// The same of one.
fn put_word(alloc: Global, store: &mut Store, op: Op, width: u8, a: Id) -> Result<Id, NoMemory>
    requires rank { result_sort op (Bits width ∷ []) ≡ Some (Bits width) }
    requires a { IsWord width (tree_at store.old a) }
    ensures id { IfOk result (λ id. StandsAs store.new (Bits width) id
        (unary op (tree_at store.old a))) }
    ensures grows { Grows store.old store.new }
{
    let _terms = store.len();
    let kids = SmallVec::from_slice(alloc, &[a])?;
    store.put(Node::App { op, kids })
}

/// An operator's application to two terms.
pub fn put_two(alloc: Global, store: &mut Store, op: Op, a: Id, b: Id) -> Result<Id, NoMemory>
    requires a { a < length store.old }
    requires b { b < length store.old }
    requires sorted { IsSorted (binary op (tree_at store.old a) (tree_at store.old b)) }
    ensures id { IfOk result (λ id. StandsAt store.new id
        (binary op (tree_at store.old a) (tree_at store.old b))) }
    ensures grows { Grows store.old store.new }
{
    let kids = SmallVec::from_slice(alloc, &[a, b])?;
    store.put(Node::App { op, kids })
}

// The literal of a number.
fn put_number(store: &mut Store, width: u8, value: u128) -> Result<Id, NoMemory>
    requires low { 1 ≤ width }
    requires high { width ≤ 128 }
    requires value { value < 2 ^ width }
    ensures id { IfOk result (λ id. StandsAs store.new (Bits width) id (number width value)) }
    ensures grows { Grows store.old store.new }
{
    match Word::new(Sort::Bits(width), value) {
        Some(word) => store.put(Node::Lit { word }),
        None => unreachable!(),
    }
}
