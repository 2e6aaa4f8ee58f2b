//! Sums, differences and products of values of a width, modulo the number of values.

ghost use Rattle.std.specs.Prelude.{◌≡◌, ◌+◌, ◌-◌, ◌*◌, ◌%◌, ◌^◌, ◌≤◌, ◌<◌};
ghost use Rattle.qv_words.specs.Signed.{negated};

use crate::bits::{low_bits, ones};

// The value with the opposite sign.
pub(crate) fn negation(width: u8, a: u128) -> u128
    requires low { 1 ≤ width }
    requires high { width ≤ 128 }
    requires value { a < 2 ^ width }
    ensures value { result ≡ negated width a }
    ensures below { result < 2 ^ width }
{
    if a == 0 { 0 } else { ones(width) - (a - 1) }
}

pub(crate) fn sum(width: u8, a: u128, b: u128) -> u128
    requires low { 1 ≤ width }
    requires high { width ≤ 128 }
    ensures value { result ≡ (a + b) % 2 ^ width }
    ensures below { result < 2 ^ width }
{
    low_bits(width, a.wrapping_add(b))
}

pub(crate) fn subtraction(width: u8, a: u128, b: u128) -> u128
    requires low { 1 ≤ width }
    requires high { width ≤ 128 }
    requires first { a < 2 ^ width }
    requires second { b < 2 ^ width }
    ensures value { result ≡ (a + 2 ^ width - b) % 2 ^ width }
    ensures below { result < 2 ^ width }
{
    if b <= a {
        a - b
    } else {
        ones(width) - (b - a - 1)
    }
}

pub(crate) fn product(width: u8, a: u128, b: u128) -> u128
    requires low { 1 ≤ width }
    requires high { width ≤ 128 }
    ensures value { result ≡ a * b % 2 ^ width }
    ensures below { result < 2 ^ width }
{
    low_bits(width, a.wrapping_mul(b))
}
