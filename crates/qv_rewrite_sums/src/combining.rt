//! The sums of applications, before like products are put together.

ghost use Rattle.std.specs.Prelude.{◌≡◌, ◌*◌, ◌^◌, ◌≤◌, ◌<◌, ◌++◌, ◌∷◌, [], ◌&&◌, List, IfOk, OnOk};
ghost use Rattle.std.specs.Prelude.{length, map, nat_le, nat_lt, is_none, find, option_map};
ghost use Rattle.std.specs.Prelude.{Some, option_and_then};
ghost use Rattle.std.specs.List.{list_any};
ghost use Rattle.qv_words.specs.Tree.{Tree};
ghost use Rattle.qv_words.specs.Sums.{constant, multiple, times, products, opposite, combined};
ghost use Rattle.qv_words.specs.Sums.{number_of, shifted};
ghost use Rattle.qv_rewrite_sums.specs.Held.{monomial_at, sum_at, rest_of, modulo, short_raw};
ghost use Rattle.qv_rewrite_sums.specs.Held.{kept};

use crate::numbers::{ones, product};
use crate::product::{Product, product_of};
use qv_store::NoMemory;
use qv_words::Op;
use smallvec::SmallVec;
use std::alloc::Global;

// A longer sum isn't collected, and a longer collected one or a product of more isn't kept.
const MOST_RAW: usize = 48;

const MOST_PRODUCTS: usize = 24;

const MOST_FACTORS: usize = 4;

// The sum of an operator's application to one argument, unless it is long.
pub(crate) fn of_one(
    alloc: Global,
    op: Op,
    width: u8,
    a: &[Product],
) -> Result<Option<Vec<Product>>, NoMemory>
    requires low { 1 ≤ width }
    requires high { width ≤ 128 }
    ensures { (trees : List Tree) → IfOk result (λ made.
        option_map (λ raw. sum_at trees raw.items) made ≡ option_map (modulo (2 ^ width))
        (short_raw (combined op width (sum_at trees a.now ∷ [])))) }
{
    let raw = match op {
        Op::BvNeg => opposite(alloc, width, a)?,
        Op::BvNot => complement(alloc, width, a)?,
        _ => return Ok(None),
    };
    Ok(unless_long(raw))
}

// The same of two arguments.
pub(crate) fn of_two(
    alloc: Global,
    op: Op,
    width: u8,
    a: &[Product],
    b: &[Product],
) -> Result<Option<Vec<Product>>, NoMemory>
    requires low { 1 ≤ width }
    requires high { width ≤ 128 }
    ensures { (trees : List Tree) → IfOk result (λ made.
        option_map (λ raw. sum_at trees raw.items) made ≡ option_map (modulo (2 ^ width))
        (short_raw (combined op width (sum_at trees a.now ∷ sum_at trees b.now ∷ [])))) }
{
    let raw = match op {
        Op::BvAdd => together(alloc, width, a, b)?,
        Op::BvSub => difference(alloc, width, a, b)?,
        Op::BvMul => return short_products(alloc, width, a, b),
        Op::BvShl => return shifted(alloc, width, a, number_of(b)),
        _ => return Ok(None),
    };
    Ok(unless_long(raw))
}

// A sum that isn't long.
fn unless_long(raw: Vec<Product>) -> Option<Vec<Product>>
    ensures { (trees : List Tree) → option_map (λ made. sum_at trees made.items) result
        ≡ short_raw (Some (sum_at trees raw.items)) }
{
    if raw.len() <= MOST_RAW {
        Some(raw)
    } else {
        None
    }
}

fn opposite(alloc: Global, width: u8, a: &[Product]) -> Result<Vec<Product>, NoMemory>
    requires low { 1 ≤ width }
    requires high { width ≤ 128 }
    ensures { (trees : List Tree) → IfOk result (λ raw. sum_at trees raw.items
        ≡ modulo (2 ^ width) (opposite width (sum_at trees a.now))) }
{
    let mut raw = Vec::new(alloc);
    push_multiple(alloc, &mut raw, width, ones(width), a)?;
    Ok(raw)
}

// The opposite of a sum and 1.
fn complement(alloc: Global, width: u8, a: &[Product]) -> Result<Vec<Product>, NoMemory>
    requires low { 1 ≤ width }
    requires high { width ≤ 128 }
    ensures { (trees : List Tree) → IfOk result (λ raw. sum_at trees raw.items
        ≡ modulo (2 ^ width) (opposite width (sum_at trees a.now ++ constant 1 ∷ []))) }
{
    let mut raw = opposite(alloc, width, a)?;
    let last = product_of(alloc, ones(width), &[])?;
    raw.push(last)?;
    Ok(raw)
}

fn together(
    alloc: Global,
    width: u8,
    a: &[Product],
    b: &[Product],
) -> Result<Vec<Product>, NoMemory>
    requires low { 1 ≤ width }
    requires high { width ≤ 128 }
    ensures { (trees : List Tree) → IfOk result (λ raw. sum_at trees raw.items
        ≡ modulo (2 ^ width) (sum_at trees a.now ++ sum_at trees b.now)) }
{
    let mut raw = Vec::new(alloc);
    push_multiple(alloc, &mut raw, width, 1, a)?;
    push_multiple(alloc, &mut raw, width, 1, b)?;
    Ok(raw)
}

pub(crate) fn difference(
    alloc: Global,
    width: u8,
    a: &[Product],
    b: &[Product],
) -> Result<Vec<Product>, NoMemory>
    requires low { 1 ≤ width }
    requires high { width ≤ 128 }
    ensures { (trees : List Tree) → IfOk result (λ raw. sum_at trees raw.items
        ≡ modulo (2 ^ width) (sum_at trees a.now ++ opposite width (sum_at trees b.now))) }
{
    let mut raw = Vec::new(alloc);
    push_multiple(alloc, &mut raw, width, 1, a)?;
    push_multiple(alloc, &mut raw, width, ones(width), b)?;
    Ok(raw)
}

// A sum shifted left by a number.
fn shifted(
    alloc: Global,
    width: u8,
    a: &[Product],
    by: Option<u128>,
) -> Result<Option<Vec<Product>>, NoMemory>
    requires low { 1 ≤ width }
    requires high { width ≤ 128 }
    ensures { (trees : List Tree) → IfOk result (λ made.
        option_map (λ raw. sum_at trees raw.items) made ≡ option_map (modulo (2 ^ width))
        (short_raw (option_and_then (shifted width (sum_at trees a.now)) by))) }
{
    match by {
        Some(k) => {
            if k < u128::from(width) {
                let mut raw = Vec::new(alloc);
                push_multiple(alloc, &mut raw, width, 1 << k, a)?;
                return Ok(unless_long(raw));
            }
            Ok(None)
        }
        None => Ok(None),
    }
}

// The products of two sums, unless they are many.
fn short_products(
    alloc: Global,
    width: u8,
    a: &[Product],
    b: &[Product],
) -> Result<Option<Vec<Product>>, NoMemory>
    requires low { 1 ≤ width }
    requires high { width ≤ 128 }
    ensures { (trees : List Tree) → IfOk result (λ made.
        option_map (λ raw. sum_at trees raw.items) made ≡ option_map (modulo (2 ^ width))
        (short_raw (Some (products (sum_at trees a.now) (sum_at trees b.now))))) }
{
    if are_many(a.len(), b.len()) {
        return Ok(None);
    }
    let raw = products(alloc, width, a, b)?;
    Ok(unless_long(raw))
}

// Whether so many and so many products make too many.
fn are_many(a: usize, b: usize) -> bool
    ensures { result ≡ nat_lt 48 (a * b) }
{
    a.saturating_mul(b) > MOST_RAW
}

// The products of two sums.
fn products(
    alloc: Global,
    width: u8,
    a: &[Product],
    b: &[Product],
) -> Result<Vec<Product>, NoMemory>
    requires low { 1 ≤ width }
    requires high { width ≤ 128 }
    ensures { (trees : List Tree) → IfOk result (λ raw. sum_at trees raw.items
        ≡ modulo (2 ^ width) (products (sum_at trees a.now) (sum_at trees b.now))) }
{
    let mut raw = Vec::new(alloc);
    'products: for one in a {
        push_times(alloc, &mut raw, width, one, b)?;
    }
    Ok(raw)
}

// A sum multiplied by a number, behind other products.
fn push_multiple(
    alloc: Global,
    raw: &mut Vec<Product>,
    width: u8,
    factor: u128,
    sum: &[Product],
) -> Result<(), NoMemory>
    requires low { 1 ≤ width }
    requires high { width ≤ 128 }
    ensures { (trees : List Tree) → OnOk result (sum_at trees raw.new.items
        ≡ sum_at trees raw.old.items
        ++ modulo (2 ^ width) (multiple factor (sum_at trees sum.now))) }
{
    'products: for one in sum {
        let coefficient = product(width, factor, one.coefficient);
        let next = product_of(alloc, coefficient, one.factors.as_slice())?;
        raw.push(next)?;
    }
    Ok(())
}

// A sum multiplied by a product, behind other products.
fn push_times(
    alloc: Global,
    raw: &mut Vec<Product>,
    width: u8,
    factor: &Product,
    sum: &[Product],
) -> Result<(), NoMemory>
    requires low { 1 ≤ width }
    requires high { width ≤ 128 }
    ensures { (trees : List Tree) → OnOk result (sum_at trees raw.new.items
        ≡ sum_at trees raw.old.items
        ++ modulo (2 ^ width) (map (times (monomial_at trees factor.now)) (sum_at trees sum.now))) }
{
    'products: for one in sum {
        let next = multiplied(alloc, width, factor, one)?;
        raw.push(next)?;
    }
    Ok(())
}

// The product of two.
fn multiplied(alloc: Global, width: u8, a: &Product, b: &Product) -> Result<Product, NoMemory>
    requires low { 1 ≤ width }
    requires high { width ≤ 128 }
    ensures { (trees : List Tree) → IfOk result (λ made. monomial_at trees made
        ≡ rest_of (2 ^ width) (times (monomial_at trees a.now) (monomial_at trees b.now))) }
{
    let mut factors = SmallVec::from_slice(alloc, a.factors.as_slice())?;
    factors.extend_from_slice(b.factors.as_slice())?;
    let coefficient = product(width, a.coefficient, b.coefficient);
    Ok(Product {
        coefficient,
        factors,
    })
}

// The number that a sum without factors is.
pub(crate) fn number_of(sum: &[Product]) -> Option<u128>
    ensures { (trees : List Tree) → result ≡ number_of (sum_at trees sum.now) }
{
    match sum {
        [] => Some(0),
        [one] => {
            if one.factors.is_empty() {
                Some(one.coefficient)
            } else {
                None
            }
        }
        [_, _, ..] => None,
    }
}

// A collected sum that is kept.
pub(crate) fn if_short(sum: Vec<Product>) -> Option<Vec<Product>>
    ensures { (trees : List Tree) → option_map (λ made. sum_at trees made.items) result
        ≡ kept (Some (sum_at trees sum.items)) }
{
    if is_short(&sum) { Some(sum) } else { None }
}

// Whether a collected sum is kept.
fn is_short(sum: &[Product]) -> bool
    ensures { (trees : List Tree) → result ≡ nat_le (length (sum_at trees sum.now)) 24
        && is_none (find (λ m. nat_lt 4 (length m.factors)) (sum_at trees sum.now)) }
{
    sum.len() <= MOST_PRODUCTS && !some_long(sum)
}

// Whether a product has too many factors.
fn some_long(sum: &[Product]) -> bool
    ensures { result ≡ list_any (λ m. nat_lt 4 (length m.factors.items)) sum.now }
{
    sum.iter().any(|one| one.factors.len() > MOST_FACTORS)
}
