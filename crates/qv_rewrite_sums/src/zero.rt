//! The formula that a sum is 0.

ghost use Rattle.std.specs.Prelude.{◌≡◌, ◌^◌, ◌≤◌, ◌<◌, ◌==◌, ◌%◌, ◌+◌, List, All, IfOk, length, fold};
ghost use Rattle.std.specs.Prelude.{◌&&◌, nat_lt};
ghost use Rattle.std.specs.List.{list_any};
ghost use Rattle.qv_words.specs.declared.sort.Sort.TheVariants.{Bool as BoolSort};
ghost use Rattle.qv_words.specs.declared.op.Op.TheVariants.{Equal};
ghost use Rattle.qv_words.specs.Tree.{Tree};
ghost use Rattle.qv_words.specs.Prenex.{binary};
ghost use Rattle.qv_words.specs.Passes.{truth_literal};
ghost use Rattle.qv_words.specs.Sums.{is_odd, is_zero, sides_equal, sum_term};
ghost use Rattle.qv_store.specs.Stores.{Grows};
ghost use Rattle.qv_rewrite_sums.specs.Held.{sum_at, is_first_subtracted, AreOfWords, StandsAs};

use crate::building::{put_two, sum_term};
use crate::combining::number_of;
use crate::numbers::is_shorter_negated;
use crate::ordering::with_order;
use crate::parts::{added, subtracted};
use crate::product::Product;
use qv_store::{Id, NoMemory, Node, Store};
use qv_words::{Op, Word};
use std::alloc::Global;

// That a sum of words is 0.
pub(crate) fn is_zero(
    alloc: Global,
    store: &mut Store,
    width: u8,
    sum: &[Product],
) -> Result<Id, NoMemory>
    requires low { 1 ≤ width }
    requires high { width ≤ 128 }
    requires fits { AreOfWords width (sum_at store.old sum.now) }
    ensures id { IfOk result (λ id. StandsAs store.new BoolSort id
        (is_zero width (sum_at store.old sum.now))) }
    ensures grows { Grows store.old store.new }
{
    match number_of(sum) {
        Some(value) => put_truth(store, value == 0),
        None => {
            if is_odd(sum) {
                return put_truth(store, false);
            }
            let ordered = with_order(alloc, store, sum)?;
            sides_equal(alloc, store, width, &ordered)
        }
    }
}

// What is added equals what is subtracted, turned so that the first product is on the left.
fn sides_equal(
    alloc: Global,
    store: &mut Store,
    width: u8,
    ordered: &[Product],
) -> Result<Id, NoMemory>
    requires low { 1 ≤ width }
    requires high { width ≤ 128 }
    requires fits { AreOfWords width (sum_at store.old ordered.now) }
    ensures id { IfOk result (λ id. StandsAs store.new BoolSort id
        (sides_equal width (sum_at store.old ordered.now))) }
    ensures grows { Grows store.old store.new }
{
    let plus = added(alloc, width, ordered)?;
    let minus = subtracted(alloc, width, ordered)?;
    if is_turned(width, ordered) {
        equation(alloc, store, width, &minus, &plus)
    } else {
        equation(alloc, store, width, &plus, &minus)
    }
}

// Whether the first product is subtracted.
fn is_turned(width: u8, ordered: &[Product]) -> bool
    requires low { 1 ≤ width }
    requires high { width ≤ 128 }
    requires values { All (λ m. m.coefficient < 2 ^ width) ordered.now }
    ensures { (trees : List Tree) → result ≡ is_first_subtracted width (sum_at trees ordered.now) }
{
    match ordered {
        [] => false,
        [first, ..] => is_shorter_negated(width, first.coefficient),
    }
}

// An equation of two sums.
fn equation(
    alloc: Global,
    store: &mut Store,
    width: u8,
    a: &[Product],
    b: &[Product],
) -> Result<Id, NoMemory>
    requires low { 1 ≤ width }
    requires high { width ≤ 128 }
    requires a { AreOfWords width (sum_at store.old a.now) }
    requires b { AreOfWords width (sum_at store.old b.now) }
    ensures id { IfOk result (λ id. StandsAs store.new BoolSort id
        (binary Equal (sum_term width (sum_at store.old a.now))
        (sum_term width (sum_at store.old b.now)))) }
    ensures grows { Grows store.old store.new }
{
    let first = sum_term(alloc, store, width, a)?;
    let second = sum_term(alloc, store, width, b)?;
    let _terms = store.len();
    put_two(alloc, store, Op::Equal, first, second)
}

// Whether a sum is odd, whatever its factors.
fn is_odd(sum: &[Product]) -> bool
    ensures { (trees : List Tree) → result ≡ is_odd (sum_at trees sum.now) }
{
    !some_odd(sum) && total_is_odd(sum)
}

// Whether a product with factors has an odd coefficient.
fn some_odd(sum: &[Product]) -> bool
    ensures { result ≡ list_any (λ m. nat_lt 0 (length m.factors.items)
        && m.coefficient % 2 == 1) sum.now }
{
    sum.iter()
        .any(|one| !one.factors.is_empty() && one.coefficient % 2 == 1)
}

// Whether the coefficients make an odd number.
fn total_is_odd(sum: &[Product]) -> bool
    ensures { (trees : List Tree) → result
        ≡ (fold (λ n m. n + m.coefficient) 0 (sum_at trees sum.now) % 2 == 1) }
{
    let mut odd = 0;
    'products: for one in sum {
        odd = (odd + one.coefficient % 2) % 2;
    }
    odd == 1
}

// The literal of a truth value.
fn put_truth(store: &mut Store, holds: bool) -> Result<Id, NoMemory>
    ensures id { IfOk result (λ id. StandsAs store.new BoolSort id (truth_literal holds)) }
    ensures grows { Grows store.old store.new }
{
    store.put(Node::Lit {
        word: Word::truth(holds),
    })
}
