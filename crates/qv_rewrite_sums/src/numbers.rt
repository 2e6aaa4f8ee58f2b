//! Numbers of a width, modulo the number of values.

ghost use Rattle.std.specs.Prelude.{◌≡◌, ◌+◌, ◌*◌, ◌%◌, ◌^◌, ◌≤◌, ◌<◌, nat_lt, count_ones};
ghost use Rattle.qv_words.specs.Signed.{negated};

/// The greatest number of a width: all its bits are ones.
pub fn ones(width: u8) -> u128
    requires low { 1 ≤ width }
    requires high { width ≤ 128 }
    ensures { result + 1 ≡ 2 ^ width }
{
    u128::MAX >> (128 - width)
}

// The low bits of a number.
pub(crate) fn low_bits(width: u8, x: u128) -> u128
    requires low { 1 ≤ width }
    requires high { width ≤ 128 }
    ensures { result ≡ x % 2 ^ width }
{
    x & ones(width)
}

pub(crate) fn product(width: u8, a: u128, b: u128) -> u128
    requires low { 1 ≤ width }
    requires high { width ≤ 128 }
    ensures { result ≡ a * b % 2 ^ width }
{
    low_bits(width, a.wrapping_mul(b))
}

// The number with the opposite sign.
pub(crate) fn negation(width: u8, a: u128) -> u128
    requires low { 1 ≤ width }
    requires high { width ≤ 128 }
    requires value { a < 2 ^ width }
    ensures { result ≡ negated width a }
{
    if a == 0 { 0 } else { ones(width) - (a - 1) }
}

// Whether the opposite number has fewer one bits.
pub(crate) fn is_shorter_negated(width: u8, a: u128) -> bool
    requires low { 1 ≤ width }
    requires high { width ≤ 128 }
    requires value { a < 2 ^ width }
    ensures { result ≡ nat_lt (count_ones (negated width a)) (count_ones a) }
{
    negation(width, a).count_ones() < a.count_ones()
}
