//! The row of products with a literal.

ghost use Rattle.std.specs.Prelude.{◌≡◌, ◌≢◌, ◌≤◌, ◌<◌, ◌+◌, ◌-◌, ◌*◌, ◌%◌, ◌^◌, IfOk, option_map};
ghost use Rattle.qv_words.specs.Word.{word_value};
ghost use Rattle.qv_words.specs.Inverse.{
  product_row,
  target_term,
  trailing_zeros,
  inverse_modulo,
};
ghost use Rattle.qv_terms.specs.View.{tree};

use crate::building::{Leaves, amount, app2, number};
use qv_terms::{NoMemory, Term};
use qv_words::{Op, Word};
use std::alloc::Global;

// The target without its zeros at the end, times the inverse of the literal without its own, where
// the other argument is a literal that isn't 0.
pub(crate) fn product_row(
    alloc: Global,
    width: u8,
    leaves: Leaves,
    other: Option<Word>,
) -> Result<Option<Term>, NoMemory>
    requires low { 1 ≤ width }
    requires high { width ≤ 128 }
    ensures { IfOk result (λ row. option_map tree row
        ≡ product_row width (target_term leaves.target) (option_map word_value other)) }
{
    let factor = match other {
        Some(word) => word.value(),
        None => return Ok(None),
    };
    if factor == 0 {
        return Ok(None);
    }
    let zeros = trailing_zeros(width, factor);
    let inverse = inverse_modulo(width, factor >> zeros);
    let odd = app2(alloc, Op::BvLshr, leaves.target(), amount(width, zeros))?;
    Ok(Some(app2(alloc, Op::BvMul, odd, number(width, inverse))?))
}

// How many zeros end the digits of a number that isn't 0, among at most so many.
fn trailing_zeros(most: u8, n: u128) -> u8
    requires high { most ≤ 128 }
    requires some { n ≢ 0 }
    ensures count { result ≡ trailing_zeros most n }
    ensures few { result ≤ most }
    ensures below { result < 128 }
{
    u32::from(most).min(n.trailing_zeros()) as u8
}

// How many of Newton's steps give 128 digits from 3.
const STEPS: u8 = 6;

// The inverse of an odd number modulo 2 to so many bits.
fn inverse_modulo(width: u8, odd: u128) -> u128
    requires low { 1 ≤ width }
    requires high { width ≤ 128 }
    ensures inverse { result ≡ inverse_modulo width odd }
    ensures below { result < 2 ^ width }
{
    let mut inverse = low_bits(width, odd);
    for i in 0..STEPS {
        inverse = newton_step(width, odd, inverse);
    }
    inverse
}

// A number with twice as many right digits.
fn newton_step(width: u8, odd: u128, inverse: u128) -> u128
    requires low { 1 ≤ width }
    requires high { width ≤ 128 }
    ensures { result
        ≡ inverse * (2 + 2 ^ width - odd * inverse % 2 ^ width) % 2 ^ width }
{
    let product = low_bits(width, odd.wrapping_mul(inverse));
    low_bits(width, inverse.wrapping_mul(2u128.wrapping_sub(product)))
}

// The low bits of a number.
fn low_bits(width: u8, n: u128) -> u128
    requires low { 1 ≤ width }
    requires high { width ≤ 128 }
    ensures { result ≡ n % 2 ^ width }
{
    n & (u128::MAX >> (128 - width))
}
