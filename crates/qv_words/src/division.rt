//! Quotients and remainders of values of a width.

ghost use Rattle.std.specs.Prelude.{◌≡◌, ◌^◌, ◌≤◌, ◌<◌};
ghost use Rattle.qv_words.specs.Op.{
  quotient,
  remainder,
  magnitude_quotient,
  magnitude_remainder,
  signed_quotient,
  signed_remainder,
  signed_modulus,
};

use crate::bits::ones;
use crate::signs::{absolute, is_below_zero};
use crate::sums::{negation, subtraction, sum};

// The quotient, rounded down, and the greatest value where the divisor is 0.
pub(crate) fn divide(width: u8, a: u128, b: u128) -> u128
    requires low { 1 ≤ width }
    requires high { width ≤ 128 }
    requires first { a < 2 ^ width }
    ensures value { result ≡ quotient width a b }
    ensures below { result < 2 ^ width }
{
    match a.checked_div(b) {
        Some(floor) => floor,
        None => ones(width),
    }
}

// What the quotient leaves, and the dividend where the divisor is 0.
pub(crate) fn rest(width: u8, a: u128, b: u128) -> u128
    requires { a < 2 ^ width }
    ensures value { result ≡ remainder a b }
    ensures below { result < 2 ^ width }
{
    match a.checked_rem(b) {
        Some(rest) => rest,
        None => a,
    }
}

// The quotient of the magnitudes.
fn divide_absolute(width: u8, a: u128, b: u128) -> u128
    requires low { 1 ≤ width }
    requires high { width ≤ 128 }
    requires first { a < 2 ^ width }
    requires second { b < 2 ^ width }
    ensures value { result ≡ magnitude_quotient width a b }
    ensures below { result < 2 ^ width }
{
    divide(width, absolute(width, a), absolute(width, b))
}

// What the quotient of the magnitudes leaves.
fn rest_absolute(width: u8, a: u128, b: u128) -> u128
    requires low { 1 ≤ width }
    requires high { width ≤ 128 }
    requires first { a < 2 ^ width }
    requires second { b < 2 ^ width }
    ensures value { result ≡ magnitude_remainder width a b }
    ensures below { result < 2 ^ width }
{
    rest(width, absolute(width, a), absolute(width, b))
}

pub(crate) fn divide_signed(width: u8, a: u128, b: u128) -> u128
    requires low { 1 ≤ width }
    requires high { width ≤ 128 }
    requires first { a < 2 ^ width }
    requires second { b < 2 ^ width }
    ensures value { result ≡ signed_quotient width a b }
    ensures below { result < 2 ^ width }
{
    let quotient = divide_absolute(width, a, b);
    if is_below_zero(width, a) == is_below_zero(width, b) {
        quotient
    } else {
        negation(width, quotient)
    }
}

// The remainder with the sign of the dividend.
pub(crate) fn rest_signed(width: u8, a: u128, b: u128) -> u128
    requires low { 1 ≤ width }
    requires high { width ≤ 128 }
    requires first { a < 2 ^ width }
    requires second { b < 2 ^ width }
    ensures value { result ≡ signed_remainder width a b }
    ensures below { result < 2 ^ width }
{
    let rest = rest_absolute(width, a, b);
    if is_below_zero(width, a) {
        negation(width, rest)
    } else {
        rest
    }
}

// The remainder with the sign of the divisor.
pub(crate) fn modulus_signed(width: u8, a: u128, b: u128) -> u128
    requires low { 1 ≤ width }
    requires high { width ≤ 128 }
    requires first { a < 2 ^ width }
    requires second { b < 2 ^ width }
    ensures value { result ≡ signed_modulus width a b }
    ensures below { result < 2 ^ width }
{
    let rest = rest_absolute(width, a, b);
    if rest == 0 {
        return 0;
    }
    match (is_below_zero(width, a), is_below_zero(width, b)) {
        (false, false) => rest,
        (true, false) => subtraction(width, b, rest),
        (false, true) => sum(width, rest, b),
        (true, true) => negation(width, rest),
    }
}
