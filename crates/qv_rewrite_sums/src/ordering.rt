//! Factors and products in order.

ghost use Rattle.std.specs.Prelude.{◌≡◌, ◌≤◌, ◌<◌, ◌==◌, ◌&&◌, ◌||◌, nat_lt, not, IfOk, All, length};
ghost use Rattle.std.specs.Prelude.{map};
ghost use Rattle.qv_words.specs.Sums.{comes_before, factors_before, in_order, with_order};
ghost use Rattle.qv_store.specs.Nodes.{tree_at};
ghost use Rattle.qv_rewrite_sums.specs.Held.{monomial_at, sum_at, class_of, number_in};
ghost use Rattle.qv_rewrite_sums.specs.Held.{product_before, place_or_end, AreBelow};

use crate::product::Product;
use qv_store::{Id, NoMemory, Node, Store};
use smallvec::SmallVec;
use std::alloc::Global;

// A sum in order, each product with its factors in order.
pub(crate) fn with_order(
    alloc: Global,
    store: &Store,
    sum: &[Product],
) -> Result<Vec<Product>, NoMemory>
    requires below { AreBelow (length store.now) sum.now }
    ensures sum { IfOk result (λ ordered. sum_at store.now ordered.items
        ≡ with_order (sum_at store.now sum.now)) }
    ensures below { IfOk result (λ ordered. AreBelow (length store.now) ordered.items) }
{
    let mut ordered = Vec::new(alloc);
    let mut left = sum.len();
    'left: while left > 0 {
        left -= 1;
        let one = &sum[left];
        let factors = terms_in_order(alloc, store, one.factors.as_slice())?;
        let next = Product {
            coefficient: one.coefficient,
            factors,
        };
        let place = place_of_product(store, &ordered, &next);
        ordered.insert(place, next)?;
    }
    Ok(ordered)
}

// Where a product is put into a sum in order.
fn place_of_product(store: &Store, ordered: &[Product], next: &Product) -> usize
    requires ordered { AreBelow (length store.now) ordered.now }
    requires next { All (λ id. id < length store.now) next.now.factors.items }
    ensures place { result ≡ place_or_end (λ other. not (product_before
        (monomial_at store.now other) (monomial_at store.now next.now))) ordered.now }
    ensures within { result ≤ length ordered.now }
{
    let factors = next.factors.as_slice();
    'products: for place in 0..ordered.len() {
        if !factors_before(store, ordered[place].factors.as_slice(), factors) {
            return place;
        }
    }
    ordered.len()
}

// Whether a product with these factors comes before one with those.
fn factors_before(store: &Store, a: &[Id], b: &[Id]) -> bool
    requires a { All (λ id. id < length store.now) a.now }
    requires b { All (λ id. id < length store.now) b.now }
    ensures { result
        ≡ factors_before (map (tree_at store.now) a.now) (map (tree_at store.now) b.now) }
{
    'factors: for place in 0..a.len() {
        if place >= b.len() || comes_before(store, a[place], b[place]) {
            return true;
        }
        if comes_before(store, b[place], a[place]) {
            return false;
        }
    }
    false
}

/// Terms in order: constants by their indices, variables by their levels, and then all others as
/// they stand.
pub fn terms_in_order(
    alloc: Global,
    store: &Store,
    factors: &[Id],
) -> Result<SmallVec<Id, 4>, NoMemory>
    requires below { All (λ id. id < length store.now) factors.now }
    ensures factors { IfOk result (λ ordered. map (tree_at store.now) ordered.items
        ≡ in_order comes_before (map (tree_at store.now) factors.now)) }
    ensures below { IfOk result (λ ordered. All (λ id. id < length store.now) ordered.items) }
{
    let mut ordered = SmallVec::new(alloc);
    let mut left = factors.len();
    'left: while left > 0 {
        left -= 1;
        let next = factors[left];
        let place = place_of_factor(store, ordered.as_slice(), next);
        ordered.insert(place, next)?;
    }
    Ok(ordered)
}

// Where a factor is put into others in order.
fn place_of_factor(store: &Store, ordered: &[Id], next: Id) -> usize
    requires ordered { All (λ id. id < length store.now) ordered.now }
    requires next { next < length store.now }
    ensures place { result ≡ place_or_end (λ other. not (comes_before
        (tree_at store.now other) (tree_at store.now next))) ordered.now }
    ensures within { result ≤ length ordered.now }
{
    'factors: for place in 0..ordered.len() {
        if !comes_before(store, ordered[place], next) {
            return place;
        }
    }
    ordered.len()
}

// Whether a factor comes before another.
fn comes_before(store: &Store, a: Id, b: Id) -> bool
    requires a { a < length store.now }
    requires b { b < length store.now }
    ensures { result ≡ comes_before (tree_at store.now a) (tree_at store.now b) }
{
    let first = rank(store, a);
    let second = rank(store, b);
    is_less(first, second)
}

// Whether a rank is less than another.
fn is_less(a: (u8, u64), b: (u8, u64)) -> bool
    ensures { result ≡ (nat_lt a.0 b.0 || a.0 == b.0 && nat_lt a.1 b.1) }
{
    a.0 < b.0 || a.0 == b.0 && a.1 < b.1
}

// The class of a factor, and its number there.
fn rank(store: &Store, id: Id) -> (u8, u64)
    requires id { id < length store.now }
    ensures class { result.0 ≡ class_of (tree_at store.now id) }
    ensures number { result.1 ≡ number_in (tree_at store.now id) }
{
    match store.node(id) {
        Node::Const { index, .. } => (0, *index),
        Node::Var { level, .. } => (1, *level),
        Node::Lit { .. } => (2, 0),
        Node::App { .. } => (2, 0),
        Node::All { .. } => (2, 0),
        Node::Ex { .. } => (2, 0),
    }
}
