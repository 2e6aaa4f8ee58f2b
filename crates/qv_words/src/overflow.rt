//! Whether the exact result of an operation lies outside the values of a width.

ghost use Rattle.std.specs.Prelude.{◌≡◌, ◌+◌, ◌*◌, ◌^◌, ◌≤◌, ◌<◌, nat_le, ◌+ℤ◌, ◌-ℤ◌, ◌*ℤ◌};
ghost use Rattle.qv_words.specs.Signed.{signed, is_outside};

use crate::bits::ones;
use crate::signs::{absolute, is_below_zero, sign_bit};
use crate::sums::{subtraction, sum};

pub(crate) fn sum_overflows(width: u8, a: u128, b: u128) -> bool
    requires low { 1 ≤ width }
    requires high { width ≤ 128 }
    requires second { b < 2 ^ width }
    ensures { result ≡ nat_le (2 ^ width) (a + b) }
{
    ones(width) - b < a
}

pub(crate) fn product_overflows(width: u8, a: u128, b: u128) -> bool
    requires low { 1 ≤ width }
    requires high { width ≤ 128 }
    ensures { result ≡ nat_le (2 ^ width) (a * b) }
{
    match a.checked_mul(b) {
        Some(product) => ones(width) < product,
        None => true,
    }
}

pub(crate) fn signed_sum_overflows(width: u8, a: u128, b: u128) -> bool
    requires low { 1 ≤ width }
    requires high { width ≤ 128 }
    requires first { a < 2 ^ width }
    requires second { b < 2 ^ width }
    ensures { result ≡ is_outside width (signed width a +ℤ signed width b) }
{
    let below = is_below_zero(width, a);
    below == is_below_zero(width, b) && below != is_below_zero(width, sum(width, a, b))
}

pub(crate) fn signed_difference_overflows(width: u8, a: u128, b: u128) -> bool
    requires low { 1 ≤ width }
    requires high { width ≤ 128 }
    requires first { a < 2 ^ width }
    requires second { b < 2 ^ width }
    ensures { result ≡ is_outside width (signed width a -ℤ signed width b) }
{
    let below = is_below_zero(width, a);
    below != is_below_zero(width, b) && below != is_below_zero(width, subtraction(width, a, b))
}

pub(crate) fn signed_product_overflows(width: u8, a: u128, b: u128) -> bool
    requires low { 1 ≤ width }
    requires high { width ≤ 128 }
    requires first { a < 2 ^ width }
    requires second { b < 2 ^ width }
    ensures { result ≡ is_outside width (signed width a *ℤ signed width b) }
{
    let product = match absolute(width, a).checked_mul(absolute(width, b)) {
        Some(product) => product,
        None => return true,
    };
    if is_below_zero(width, a) == is_below_zero(width, b) {
        product >= sign_bit(width)
    } else {
        product > sign_bit(width)
    }
}
