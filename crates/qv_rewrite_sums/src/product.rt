//! Products: a coefficient, and the terms that are the other factors.

ghost use Rattle.std.specs.Prelude.{◌≡◌, ◌^◌, ◌≤◌, ◌<◌, ◌++◌, ℕ, List, IfOk, OnOk, map};
ghost use Rattle.qv_words.specs.Tree.{Tree};
ghost use Rattle.qv_words.specs.Sums.{atom, reduced};
ghost use Rattle.qv_store.specs.Nodes.{tree_at};
ghost use Rattle.qv_rewrite_sums.specs.Held.{sum_at, AreBelow};

use crate::numbers::low_bits;
use qv_store::{Id, NoMemory};
use smallvec::SmallVec;
use std::alloc::Global;

// A product of a sum.
#[derive(Drop)]
pub(crate) struct Product {
    pub(crate) coefficient: u128,
    pub(crate) factors: SmallVec<Id, 4>,
}

// The product of these.
pub(crate) fn product_of(
    alloc: Global,
    coefficient: u128,
    factors: &[Id],
) -> Result<Product, NoMemory>
    ensures coefficient { IfOk result (λ made. made.coefficient ≡ coefficient) }
    ensures factors { IfOk result (λ made. made.factors.items ≡ factors.now) }
{
    let factors = SmallVec::from_slice(alloc, factors)?;
    Ok(Product {
        coefficient,
        factors,
    })
}

// A term as a sum of itself alone.
pub(crate) fn atom(alloc: Global, id: Id) -> Result<Vec<Product>, NoMemory>
    ensures sum { (trees : List Tree) → IfOk result (λ sum.
        sum_at trees sum.items ≡ atom (tree_at trees id)) }
    ensures below { (n : ℕ) → id < n → IfOk result (λ sum. AreBelow n sum.items) }
{
    let mut sum = Vec::new(alloc);
    let own = product_of(alloc, 1, &[id])?;
    sum.push(own)?;
    Ok(sum)
}

// One product more where its coefficient, modulo the power of two of this width, isn't 0.
pub(crate) fn push_reduced(
    alloc: Global,
    sum: &mut Vec<Product>,
    width: u8,
    coefficient: u128,
    factors: &[Id],
) -> Result<(), NoMemory>
    requires low { 1 ≤ width }
    requires high { width ≤ 128 }
    ensures { (trees : List Tree) → OnOk result (sum_at trees sum.new.items
        ≡ sum_at trees sum.old.items
        ++ reduced (2 ^ width) coefficient (map (tree_at trees) factors.now)) }
{
    let rest = low_bits(width, coefficient);
    if rest != 0 {
        let next = product_of(alloc, rest, factors)?;
        sum.push(next)?;
    }
    Ok(())
}
