//! Shifts of values of a width, by a value of any size.

ghost use Rattle.std.specs.Prelude.{◌≡◌, ◌^◌, ◌≤◌, ◌<◌};
ghost use Rattle.qv_words.specs.Op.{shifted_left, shifted_right, shifted_signed};

use crate::bits::{complement, low_bits, ones};
use crate::signs::is_below_zero;

pub(crate) fn shift_left(width: u8, a: u128, b: u128) -> u128
    requires low { 1 ≤ width }
    requires high { width ≤ 128 }
    ensures value { result ≡ shifted_left width a b }
    ensures below { result < 2 ^ width }
{
    if b >= width as u128 {
        return 0;
    }
    low_bits(width, a << b)
}

pub(crate) fn shift_right(width: u8, a: u128, b: u128) -> u128
    requires high { width ≤ 128 }
    requires value { a < 2 ^ width }
    ensures value { result ≡ shifted_right width a b }
    ensures below { result < 2 ^ width }
{
    if b >= width as u128 {
        return 0;
    }
    a >> b
}

// The sign bit comes in.
pub(crate) fn shift_signed(width: u8, a: u128, b: u128) -> u128
    requires low { 1 ≤ width }
    requires high { width ≤ 128 }
    requires value { a < 2 ^ width }
    ensures value { result ≡ shifted_signed width a b }
    ensures below { result < 2 ^ width }
{
    let below = is_below_zero(width, a);
    if b >= width as u128 {
        return if below { ones(width) } else { 0 };
    }
    if below {
        complement(width, complement(width, a) >> b)
    } else {
        a >> b
    }
}
