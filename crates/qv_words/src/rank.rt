//! The ranks of the operators.

ghost use Rattle.std.specs.Prelude.{◌≡◌, ◌+◌};
ghost use Rattle.qv_words.specs.Rank.{
  result_sort,
  one_bool,
  two_bools,
  two_alike,
  choice,
  one_width,
  two_widths,
  joined_width,
  bits_of,
  bits_between,
  bits_repeated,
};

use crate::op::Op;
use crate::sort::Sort;

/// The sort of an application of the operator to arguments of these sorts, or nothing where they
/// have no rank.
pub fn result_sort(op: Op, sorts: &[Sort]) -> Option<Sort>
    ensures { result ≡ result_sort op sorts.now }
{
    match op {
        Op::Not => one_bool(sorts),
        Op::And | Op::Or | Op::Xor | Op::Implies => two_bools(sorts),
        Op::Equal => two_alike(sorts).map(|_| Sort::Bool),
        Op::Ite => choice(sorts),
        Op::BvNot | Op::BvNeg | Op::RotateLeft(_) | Op::RotateRight(_) => {
            one_width(sorts).map(Sort::Bits)
        }
        Op::BvAnd
        | Op::BvOr
        | Op::BvXor
        | Op::BvNand
        | Op::BvNor
        | Op::BvXnor
        | Op::BvAdd
        | Op::BvSub
        | Op::BvMul
        | Op::BvUdiv
        | Op::BvUrem
        | Op::BvSdiv
        | Op::BvSrem
        | Op::BvSmod
        | Op::BvShl
        | Op::BvLshr
        | Op::BvAshr => two_widths(sorts).map(Sort::Bits),
        Op::BvUlt
        | Op::BvUle
        | Op::BvUgt
        | Op::BvUge
        | Op::BvSlt
        | Op::BvSle
        | Op::BvSgt
        | Op::BvSge
        | Op::BvUaddo
        | Op::BvSaddo
        | Op::BvUmulo
        | Op::BvSmulo
        | Op::BvUsubo
        | Op::BvSsubo
        | Op::BvSdivo => two_widths(sorts).map(|_| Sort::Bool),
        Op::BvNego => one_width(sorts).map(|_| Sort::Bool),
        Op::BvComp => two_widths(sorts).map(|_| Sort::Bits(1)),
        Op::Concat => joined_width(sorts).and_then(bits_of),
        Op::Extract(high, low) => bits_between(high, low, one_width(sorts)?),
        Op::Repeat(count) => bits_repeated(count, one_width(sorts)?),
        Op::ZeroExtend(more) | Op::SignExtend(more) => bits_extended(more, one_width(sorts)?),
    }
}

// One truth value.
fn one_bool(sorts: &[Sort]) -> Option<Sort>
    ensures { result ≡ one_bool sorts.now }
{
    match sorts {
        [Sort::Bool] => Some(Sort::Bool),
        _ => None,
    }
}

// Two truth values.
fn two_bools(sorts: &[Sort]) -> Option<Sort>
    ensures { result ≡ two_bools sorts.now }
{
    match sorts {
        [Sort::Bool, Sort::Bool] => Some(Sort::Bool),
        _ => None,
    }
}

// The sort of two arguments of one sort.
fn two_alike(sorts: &[Sort]) -> Option<Sort>
    ensures { result ≡ two_alike sorts.now }
{
    match sorts {
        [s, t] if s == t => Some(*s),
        _ => None,
    }
}

// The sort of a choice between two values of one sort.
fn choice(sorts: &[Sort]) -> Option<Sort>
    ensures { result ≡ choice sorts.now }
{
    match sorts {
        [Sort::Bool, s, t] if s == t => Some(*s),
        _ => None,
    }
}

// The width of one bit-vector.
fn one_width(sorts: &[Sort]) -> Option<u8>
    ensures { result ≡ one_width sorts.now }
{
    match sorts {
        [Sort::Bits(w)] => Some(*w),
        _ => None,
    }
}

// The width of two bit-vectors of one width.
fn two_widths(sorts: &[Sort]) -> Option<u8>
    ensures { result ≡ two_widths sorts.now }
{
    match sorts {
        [Sort::Bits(v), Sort::Bits(w)] if v == w => Some(*v),
        _ => None,
    }
}

// The width of two bit-vectors behind one another.
fn joined_width(sorts: &[Sort]) -> Option<u128>
    ensures { result ≡ joined_width sorts.now }
{
    match sorts {
        [Sort::Bits(v), Sort::Bits(w)] => Some(*v as u128 + *w as u128),
        _ => None,
    }
}

// The bit-vectors of a width of at most 128.
fn bits_of(width: u128) -> Option<Sort>
    ensures { result ≡ bits_of width }
{
    if width <= 128 {
        Some(Sort::Bits(width as u8))
    } else {
        None
    }
}

// The bits from the high one down to the low one.
fn bits_between(high: u128, low: u128, width: u8) -> Option<Sort>
    ensures { result ≡ bits_between high low width }
{
    if high < width as u128 && low <= high {
        Some(Sort::Bits((high - low + 1) as u8))
    } else {
        None
    }
}

// So many copies.
fn bits_repeated(count: u128, width: u8) -> Option<Sort>
    ensures { result ≡ bits_repeated count width }
{
    if count == 0 {
        return None;
    }
    count.checked_mul(width as u128).and_then(bits_of)
}

// With so many bits more.
fn bits_extended(more: u128, width: u8) -> Option<Sort>
    ensures { result ≡ bits_of (width + more) }
{
    more.checked_add(width as u128).and_then(bits_of)
}
