//! Lists of literals, low bit first.

ghost use Rattle.std.specs.Prelude.{◌≡◌, ◌++◌, ◌∷◌, [], IfOk, drop, replicate, reverse, take};
ghost use Rattle.qv_words.specs.Gate.{yes, no};
ghost use Rattle.qv_words.specs.Routine.{least_signed, negs, top, turned};
ghost use Rattle.qv_circuits.specs.Adding.{lit_of, lits_of};

use qv_cnf::Lit;
use std::alloc::{AllocError, Global};

// Variable 1, which is true.
pub(crate) fn yes() -> Lit
    ensures { lit_of result ≡ yes }
{
    Lit::default()
}

pub(crate) fn no() -> Lit
    ensures { lit_of result ≡ no }
{
    yes().negated()
}

// The top bit.
pub(crate) fn top(bits: &[Lit]) -> Lit
    ensures { lit_of result ≡ top (lits_of bits.now) }
{
    match bits {
        [] => no(),
        [.., last] => *last,
    }
}

// The negation of each literal.
pub(crate) fn negated_each(alloc: Global, lits: &[Lit]) -> Result<Vec<Lit>, AllocError>
    ensures { IfOk result (λ v. lits_of v.items ≡ negs (lits_of lits.now)) }
{
    let mut negated = Vec::with_capacity(alloc, lits.len())?;
    'literals: for lit in lits {
        negated.push(lit.negated())?;
    }
    Ok(negated)
}

// So many times a literal.
pub(crate) fn repeated(alloc: Global, lit: Lit, count: usize) -> Result<Vec<Lit>, AllocError>
    ensures { IfOk result (λ v. lits_of v.items ≡ replicate count (lit_of lit)) }
{
    let mut lits = Vec::with_capacity(alloc, count)?;
    'copies: for _i in 0..count {
        lits.push(lit)?;
    }
    Ok(lits)
}

// One list, and behind it another.
pub(crate) fn joined(alloc: Global, low: &[Lit], high: &[Lit]) -> Result<Vec<Lit>, AllocError>
    ensures { IfOk result (λ v. lits_of v.items ≡ lits_of low.now ++ lits_of high.now) }
{
    let mut lits = Vec::with_capacity(alloc, low.len())?;
    lits.extend_from_slice(low)?;
    lits.extend_from_slice(high)?;
    Ok(lits)
}

// With so many times a literal behind.
pub(crate) fn extended(
    alloc: Global,
    bits: &[Lit],
    lit: Lit,
    count: usize,
) -> Result<Vec<Lit>, AllocError>
    ensures { IfOk result (λ v.
        lits_of v.items ≡ lits_of bits.now ++ replicate count (lit_of lit)) }
{
    let fill = repeated(alloc, lit, count)?;
    joined(alloc, bits, &fill)
}

// The other way round.
pub(crate) fn reversed(alloc: Global, bits: &[Lit]) -> Result<Vec<Lit>, AllocError>
    ensures { IfOk result (λ v. lits_of v.items ≡ reverse (lits_of bits.now)) }
{
    let mut lits = Vec::with_capacity(alloc, bits.len())?;
    'literals: for i in 0..bits.len() {
        lits.push(bits[bits.len() - 1 - i])?;
    }
    Ok(lits)
}

// With the top bit negated.
pub(crate) fn turned(alloc: Global, bits: &[Lit]) -> Result<Vec<Lit>, AllocError>
    ensures { IfOk result (λ v. lits_of v.items ≡ turned (lits_of bits.now)) }
{
    if bits.is_empty() {
        return Ok(Vec::new(alloc));
    }
    joined(alloc, &bits[..bits.len() - 1], &[top(bits).negated()])
}

// The least of the signed values.
pub(crate) fn least_signed(alloc: Global, width: usize) -> Result<Vec<Lit>, AllocError>
    ensures { IfOk result (λ v. lits_of v.items ≡ least_signed width) }
{
    let zeros = repeated(alloc, no(), width.saturating_sub(1))?;
    joined(alloc, &zeros, &[yes()])
}

// The first bits, so many where there are as many.
pub(crate) fn front(bits: &[Lit], count: usize) -> &[Lit]
    ensures { lits_of result.now ≡ take count (lits_of bits.now) }
{
    &bits[..count.min(bits.len())]
}

// The bits behind those.
pub(crate) fn behind(bits: &[Lit], count: usize) -> &[Lit]
    ensures { lits_of result.now ≡ drop count (lits_of bits.now) }
{
    &bits[count.min(bits.len())..]
}
