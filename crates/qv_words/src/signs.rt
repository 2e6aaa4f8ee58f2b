//! Values of a width as signed numbers, in two's complement.

ghost use Rattle.std.specs.Prelude.{◌≡◌, ◌-◌, ◌^◌, ◌≤◌, ◌<◌, int_lt, int_le};
ghost use Rattle.qv_words.specs.Signed.{signed, is_negative, magnitude};

use crate::sums::negation;

// The least value whose sign bit is set.
pub(crate) fn sign_bit(width: u8) -> u128
    requires low { 1 ≤ width }
    requires high { width ≤ 128 }
    ensures { result ≡ 2 ^ (width - 1) }
{
    1 << (width - 1)
}

pub(crate) fn is_below_zero(width: u8, a: u128) -> bool
    requires low { 1 ≤ width }
    requires high { width ≤ 128 }
    ensures { result ≡ is_negative width a }
{
    sign_bit(width) <= a
}

// The value without its sign.
pub(crate) fn absolute(width: u8, a: u128) -> u128
    requires low { 1 ≤ width }
    requires high { width ≤ 128 }
    requires value { a < 2 ^ width }
    ensures value { result ≡ magnitude width a }
    ensures below { result < 2 ^ width }
{
    if is_below_zero(width, a) {
        negation(width, a)
    } else {
        a
    }
}

pub(crate) fn is_less(width: u8, a: u128, b: u128) -> bool
    requires low { 1 ≤ width }
    requires high { width ≤ 128 }
    requires first { a < 2 ^ width }
    requires second { b < 2 ^ width }
    ensures { result ≡ int_lt (signed width a) (signed width b) }
{
    let below = is_below_zero(width, a);
    if below == is_below_zero(width, b) {
        a < b
    } else {
        below
    }
}

pub(crate) fn is_at_most(width: u8, a: u128, b: u128) -> bool
    requires low { 1 ≤ width }
    requires high { width ≤ 128 }
    requires first { a < 2 ^ width }
    requires second { b < 2 ^ width }
    ensures { result ≡ int_le (signed width a) (signed width b) }
{
    let below = is_below_zero(width, a);
    if below == is_below_zero(width, b) {
        a <= b
    } else {
        below
    }
}
