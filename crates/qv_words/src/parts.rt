//! Parts of values, and values put together.

ghost use Rattle.std.specs.Prelude.{◌≡◌, ◌+◌, ◌-◌, ◌*◌, ◌/◌, ◌%◌, ◌^◌, ◌≤◌, ◌<◌};
ghost use Rattle.qv_words.specs.Signed.{signed, residue};
ghost use Rattle.qv_words.specs.Op.{copies, turned};

use crate::bits::{complement, low_bits};
use crate::signs::is_below_zero;

// The bits of the first value above those of the second.
pub(crate) fn join(first_width: u8, second_width: u8, a: u128, b: u128) -> u128
    requires some { 1 ≤ first_width }
    requires fits { first_width + second_width ≤ 128 }
    requires first { a < 2 ^ first_width }
    requires second { b < 2 ^ second_width }
    ensures value { result ≡ a * 2 ^ second_width + b }
    ensures below { result < 2 ^ (first_width + second_width) }
{
    (a << second_width) | b
}

// The bits from the high one down to the low one.
pub(crate) fn between(high: u8, low: u8, a: u128) -> u128
    requires order { low ≤ high }
    requires fits { high < 128 }
    ensures value { result ≡ a / 2 ^ low % 2 ^ (high - low + 1) }
    ensures below { result < 2 ^ (high - low + 1) }
{
    low_bits(high - low + 1, a >> low)
}

// Copies of a value behind one another.
pub(crate) fn repeat(count: u8, width: u8, a: u128) -> u128
    requires some { 1 ≤ count }
    requires low { 1 ≤ width }
    requires fits { count * width ≤ 128 }
    requires value { a < 2 ^ width }
    ensures value { result ≡ copies count width a }
    ensures below { result < 2 ^ (count * width) }
{
    let mut all = a;
    for i in 1..count {
        all = join(i * width, width, all, a);
    }
    all
}

// The same signed number at a greater width.
pub(crate) fn extend_signed(width: u8, more: u8, a: u128) -> u128
    requires low { 1 ≤ width }
    requires fits { width + more ≤ 128 }
    requires value { a < 2 ^ width }
    ensures value { result ≡ residue (signed width a) (2 ^ (width + more)) }
    ensures below { result < 2 ^ (width + more) }
{
    if is_below_zero(width, a) {
        complement(width + more, complement(width, a))
    } else {
        a
    }
}

// The value with its low bits moved to the high end.
pub(crate) fn turn(width: u8, a: u128, moved: u8) -> u128
    requires high { width ≤ 128 }
    requires part { moved ≤ width }
    requires value { a < 2 ^ width }
    ensures value { result ≡ turned width a moved }
    ensures below { result < 2 ^ width }
{
    if moved == 0 || moved == width {
        return a;
    }
    join(moved, width - moved, low_bits(moved, a), a >> moved)
}
