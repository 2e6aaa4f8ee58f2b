//! Like products put together.

ghost use Rattle.std.specs.Prelude.{◌≡◌, ◌==◌, ◌^◌, ◌≤◌, ◌<◌, List, All, IfOk, OnOk, IfSome, length, map};
ghost use Rattle.qv_words.specs.Tree.{Tree};
ghost use Rattle.qv_words.specs.Sums.{same_factors, plus, collected};
ghost use Rattle.qv_store.specs.Nodes.{tree_at};
ghost use Rattle.qv_store.specs.Stores.{AreShared};
ghost use Rattle.qv_rewrite_sums.specs.Held.{monomial_at, sum_at, first_place, is_like, raised};
ghost use Rattle.qv_rewrite_sums.specs.Held.{AreWords, HaveWords};

use crate::numbers::low_bits;
use crate::product::{Product, push_reduced};
use qv_store::{Id, NoMemory, Store};
use smallvec::SmallVec;
use std::alloc::Global;

// Like products put together, modulo the power of two of this width.
pub(crate) fn collected(
    alloc: Global,
    store: &Store,
    width: u8,
    raw: &[Product],
) -> Result<Vec<Product>, NoMemory>
    requires low { 1 ≤ width }
    requires high { width ≤ 128 }
    requires shared { AreShared store.now }
    requires words { HaveWords width (sum_at store.now raw.now) }
    ensures { IfOk result (λ sum. sum_at store.now sum.items
        ≡ collected width (sum_at store.now raw.now)) }
{
    let mut sum = Vec::new(alloc);
    'raw: for product in raw {
        add(alloc, store, width, &mut sum, product)?;
    }
    Ok(sum)
}

// One product more: its coefficient goes to the one with the same factors, or it comes last.
fn add(
    alloc: Global,
    store: &Store,
    width: u8,
    sum: &mut Vec<Product>,
    product: &Product,
) -> Result<(), NoMemory>
    requires low { 1 ≤ width }
    requires high { width ≤ 128 }
    requires shared { AreShared store.now }
    requires sum { HaveWords width (sum_at store.now sum.old.items) }
    requires product { AreWords width (map (tree_at store.now) product.now.factors.items) }
    ensures { OnOk result (sum_at store.now sum.new.items
        ≡ plus (2 ^ width) (sum_at store.now sum.old.items) (monomial_at store.now product.now)) }
{
    match like(alloc, store, width, sum, product.factors.as_slice())? {
        Some(place) => raise(width, sum, place, product.coefficient),
        None => push_reduced(
            alloc,
            sum,
            width,
            product.coefficient,
            product.factors.as_slice(),
        ),
    }
}

// The first product with these factors.
fn like(
    alloc: Global,
    store: &Store,
    width: u8,
    sum: &[Product],
    factors: &[Id],
) -> Result<Option<usize>, NoMemory>
    requires shared { AreShared store.now }
    requires sum { HaveWords width (sum_at store.now sum.now) }
    requires factors { AreWords width (map (tree_at store.now) factors.now) }
    ensures place { IfOk result (λ place. place
        ≡ first_place (is_like store.now factors.now) sum.now) }
    ensures within { IfOk result (λ place. IfSome place (λ k. k < length sum.now)) }
{
    'products: for place in 0..sum.len() {
        if same_factors(alloc, store, width, sum[place].factors.as_slice(), factors)? {
            return Ok(Some(place));
        }
    }
    Ok(None)
}

// More at the coefficient of a place, where nothing is left if that becomes 0.
fn raise(width: u8, sum: &mut Vec<Product>, place: usize, more: u128) -> Result<(), NoMemory>
    requires low { 1 ≤ width }
    requires high { width ≤ 128 }
    requires place { place < length sum.old.items }
    ensures { (trees : List Tree) → OnOk result (sum_at trees sum.new.items
        ≡ raised (2 ^ width) more place (sum_at trees sum.old.items)) }
{
    let product = sum.remove(place);
    let coefficient = low_bits(width, product.coefficient.wrapping_add(more));
    if coefficient != 0 {
        sum.insert(
            place,
            Product {
                coefficient,
                factors: product.factors,
            },
        )?;
    }
    Ok(())
}

// Whether two lists have the same words, each as often.
fn same_factors(
    alloc: Global,
    store: &Store,
    width: u8,
    a: &[Id],
    b: &[Id],
) -> Result<bool, NoMemory>
    requires shared { AreShared store.now }
    requires a { AreWords width (map (tree_at store.now) a.now) }
    requires b { AreWords width (map (tree_at store.now) b.now) }
    ensures { IfOk result (λ same. same
        ≡ same_factors (map (tree_at store.now) a.now) (map (tree_at store.now) b.now)) }
{
    let _terms = store.len();
    let mut left: SmallVec<Id, 8> = SmallVec::from_slice(alloc, b)?;
    'factors: for id in a {
        match place_of(*id, left.as_slice()) {
            Some(place) => {
                left.remove(place);
            }
            None => return Ok(false),
        }
    }
    Ok(left.is_empty())
}

// Where a term first stands in a list.
fn place_of(id: Id, ids: &[Id]) -> Option<usize>
    ensures place { result ≡ first_place (λ other. other == id) ids.now }
    ensures within { IfSome result (λ k. k < length ids.now) }
{
    'places: for place in 0..ids.len() {
        if ids[place] == id {
            return Some(place);
        }
    }
    None
}
