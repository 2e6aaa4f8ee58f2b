//! Bits of a value: masks, and the operators that work bit by bit.

ghost use Rattle.std.specs.Prelude.{◌≡◌, ◌+◌, ◌-◌, ◌%◌, ◌^◌, ◌≤◌, ◌<◌, bit_and, bit_or, bit_xor};

// The greatest value of a width: all its bits are ones.
pub(crate) fn ones(width: u8) -> u128
    requires low { 1 ≤ width }
    requires high { width ≤ 128 }
    ensures { result + 1 ≡ 2 ^ width }
{
    u128::MAX >> (128 - width)
}

// The low bits of a number.
pub(crate) fn low_bits(width: u8, x: u128) -> u128
    requires low { 1 ≤ width }
    requires high { width ≤ 128 }
    ensures value { result ≡ x % 2 ^ width }
    ensures below { result < 2 ^ width }
{
    x & ones(width)
}

// Each bit turned.
pub(crate) fn complement(width: u8, a: u128) -> u128
    requires low { 1 ≤ width }
    requires high { width ≤ 128 }
    requires value { a < 2 ^ width }
    ensures value { result ≡ 2 ^ width - 1 - a }
    ensures below { result < 2 ^ width }
{
    ones(width) - a
}

pub(crate) fn conjunction(width: u8, a: u128, b: u128) -> u128
    requires first { a < 2 ^ width }
    requires second { b < 2 ^ width }
    ensures value { result ≡ bit_and a b }
    ensures below { result < 2 ^ width }
{
    a & b
}

pub(crate) fn disjunction(width: u8, a: u128, b: u128) -> u128
    requires first { a < 2 ^ width }
    requires second { b < 2 ^ width }
    ensures value { result ≡ bit_or a b }
    ensures below { result < 2 ^ width }
{
    a | b
}

pub(crate) fn difference(width: u8, a: u128, b: u128) -> u128
    requires first { a < 2 ^ width }
    requires second { b < 2 ^ width }
    ensures value { result ≡ bit_xor a b }
    ensures below { result < 2 ^ width }
{
    a ^ b
}
