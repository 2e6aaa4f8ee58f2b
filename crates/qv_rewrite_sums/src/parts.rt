//! Parts of a sum: what is added, what is subtracted, and what has factors.

ghost use Rattle.std.specs.Prelude.{◌≡◌, ◌^◌, ◌≤◌, ◌<◌, ◌++◌, ◌∷◌, [], List, All, IfOk, OnOk};
ghost use Rattle.std.specs.Prelude.{if◌then◌else◌, filter, not};
ghost use Rattle.qv_words.specs.Tree.{Tree};
ghost use Rattle.qv_words.specs.Sums.{has_factors, added, subtracted};
ghost use Rattle.qv_rewrite_sums.specs.Held.{monomial_at, sum_at, with_coefficient};

use crate::numbers::{is_shorter_negated, negation};
use crate::product::{Product, product_of};
use qv_store::NoMemory;
use std::alloc::Global;

pub(crate) fn added(alloc: Global, width: u8, sum: &[Product]) -> Result<Vec<Product>, NoMemory>
    requires low { 1 ≤ width }
    requires high { width ≤ 128 }
    requires values { All (λ m. m.coefficient < 2 ^ width) sum.now }
    ensures { (trees : List Tree) → IfOk result (λ part. sum_at trees part.items
        ≡ added width (sum_at trees sum.now)) }
{
    let mut part = Vec::new(alloc);
    'products: for one in sum {
        let less = is_shorter_negated(width, one.coefficient);
        push_if(alloc, &mut part, !less, one.coefficient, one)?;
    }
    Ok(part)
}

pub(crate) fn subtracted(
    alloc: Global,
    width: u8,
    sum: &[Product],
) -> Result<Vec<Product>, NoMemory>
    requires low { 1 ≤ width }
    requires high { width ≤ 128 }
    requires values { All (λ m. m.coefficient < 2 ^ width) sum.now }
    ensures { (trees : List Tree) → IfOk result (λ part. sum_at trees part.items
        ≡ subtracted width (sum_at trees sum.now)) }
{
    let mut part = Vec::new(alloc);
    'products: for one in sum {
        let less = is_shorter_negated(width, one.coefficient);
        let coefficient = negation(width, one.coefficient);
        push_if(alloc, &mut part, less, coefficient, one)?;
    }
    Ok(part)
}

// The products with factors.
pub(crate) fn with_factors(alloc: Global, sum: &[Product]) -> Result<Vec<Product>, NoMemory>
    ensures { (trees : List Tree) → IfOk result (λ part. sum_at trees part.items
        ≡ filter has_factors (sum_at trees sum.now)) }
{
    let mut part = Vec::new(alloc);
    'products: for one in sum {
        let wanted = has_factors(one);
        push_if(alloc, &mut part, wanted, one.coefficient, one)?;
    }
    Ok(part)
}

// The products without.
pub(crate) fn without_factors(alloc: Global, sum: &[Product]) -> Result<Vec<Product>, NoMemory>
    ensures { (trees : List Tree) → IfOk result (λ part. sum_at trees part.items
        ≡ filter (λ m. not (has_factors m)) (sum_at trees sum.now)) }
{
    let mut part = Vec::new(alloc);
    'products: for one in sum {
        let unwanted = has_factors(one);
        push_if(alloc, &mut part, !unwanted, one.coefficient, one)?;
    }
    Ok(part)
}

// Whether a product has factors besides its coefficient.
fn has_factors(one: &Product) -> bool
    ensures { (trees : List Tree) → result ≡ has_factors (monomial_at trees one.now) }
{
    !one.factors.is_empty()
}

// One product more where it is wanted: a coefficient, and the factors of another.
fn push_if(
    alloc: Global,
    part: &mut Vec<Product>,
    wanted: bool,
    coefficient: u128,
    one: &Product,
) -> Result<(), NoMemory>
    ensures { (trees : List Tree) → OnOk result (sum_at trees part.new.items
        ≡ sum_at trees part.old.items ++ (if wanted then with_coefficient coefficient
        (monomial_at trees one.now) ∷ [] else [])) }
{
    if wanted {
        let next = product_of(alloc, coefficient, one.factors.as_slice())?;
        part.push(next)?;
    }
    Ok(())
}
