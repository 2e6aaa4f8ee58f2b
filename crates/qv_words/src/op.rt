//! The operators, and their values at words.

ghost use Rattle.std.specs.Prelude.{◌≡◌, ◌≢◌, ◌==◌, ◌+◌, ◌*◌, ◌^◌, IsSome, ◌∷◌, []};
ghost use Rattle.qv_words.specs.Rank.{result_sort};
ghost use Rattle.qv_words.specs.Op.{op_value};
ghost use Rattle.qv_words.specs.Word.{word_sort, word_value, sorts_of, values_of};

use crate::bits::{complement, conjunction, difference, disjunction, ones};
use crate::division::{divide, divide_signed, modulus_signed, rest, rest_signed};
use crate::overflow::{
    product_overflows, signed_difference_overflows, signed_product_overflows, signed_sum_overflows,
    sum_overflows,
};
use crate::parts::{between, extend_signed, join, repeat, turn};
use crate::shifts::{shift_left, shift_right, shift_signed};
use crate::signs::{is_at_most, is_less, sign_bit};
use crate::sort::Sort;
use crate::sums::{negation, product, subtraction, sum};
use crate::word::Word;

/// An operator, with its indices.
#[derive(Clone, Copy, Debug, PartialEq, Eq, Hash)]
pub enum Op {
    Not,
    And,
    Or,
    Xor,
    Implies,
    Equal,
    Ite,
    BvNot,
    BvNeg,
    BvAnd,
    BvOr,
    BvXor,
    BvNand,
    BvNor,
    BvXnor,
    BvAdd,
    BvSub,
    BvMul,
    BvUdiv,
    BvUrem,
    BvSdiv,
    BvSrem,
    BvSmod,
    BvShl,
    BvLshr,
    BvAshr,
    BvUlt,
    BvUle,
    BvUgt,
    BvUge,
    BvSlt,
    BvSle,
    BvSgt,
    BvSge,
    BvComp,
    Concat,
    /// The bits from the first index down to the second.
    Extract(u128, u128),
    /// So many copies.
    Repeat(u128),
    /// With so many bits more.
    ZeroExtend(u128),
    SignExtend(u128),
    /// By so many bits.
    RotateLeft(u128),
    RotateRight(u128),
    BvNego,
    BvUaddo,
    BvSaddo,
    BvUmulo,
    BvSmulo,
    BvUsubo,
    BvSsubo,
    BvSdivo,
}

/// What is known of a set of assertions.
#[derive(Clone, Copy, Debug, PartialEq, Eq)]
pub enum Answer {
    Sat,
    Unsat,
    Unknown,
}

/// The value of the operator at these words.
pub fn apply(op: Op, args: &[Word]) -> Word
    requires { IsSome (result_sort op (sorts_of args.now)) }
    ensures sort { result_sort op (sorts_of args.now) ≡ Some (word_sort result) }
    ensures value { word_value result ≡ op_value op (sorts_of args.now) (values_of args.now) }
{
    match args {
        [a] => apply_one(op, *a),
        [a, b] => match op {
            Op::Concat => concatenation(*a, *b),
            _ => apply_two(op, *a, *b),
        },
        [a, b, c] => match op {
            Op::Ite => { if a.value() == 1 { *b } else { *c } }
            _ => unreachable!(),
        },
        [] => unreachable!(),
        [_, _, _, _, ..] => unreachable!(),
    }
}

fn concatenation(a: Word, b: Word) -> Word
    requires { IsSome (result_sort Op.Concat (word_sort a ∷ word_sort b ∷ [])) }
    ensures sort { result_sort Op.Concat (word_sort a ∷ word_sort b ∷ [])
        ≡ Some (word_sort result) }
    ensures value { word_value result
        ≡ op_value Op.Concat (word_sort a ∷ word_sort b ∷ []) (word_value a ∷ word_value b ∷ []) }
{
    let (first, second) = (a.sort().width(), b.sort().width());
    Word::of(
        Sort::Bits(first + second),
        join(first, second, a.value(), b.value()),
    )
}

// The value of an operator of one argument.
fn apply_one(op: Op, a: Word) -> Word
    requires { IsSome (result_sort op (word_sort a ∷ [])) }
    ensures sort { result_sort op (word_sort a ∷ []) ≡ Some (word_sort result) }
    ensures value { word_value result ≡ op_value op (word_sort a ∷ []) (word_value a ∷ []) }
{
    let (width, x) = (a.sort().width(), a.value());
    match op {
        Op::Not => Word::truth(x == 0),
        Op::BvNot => a.with(complement(width, x)),
        Op::BvNeg => a.with(negation(width, x)),
        Op::Extract(high, low) => extraction(a, high, low),
        Op::Repeat(count) => repetition(a, count),
        Op::ZeroExtend(more) => zero_extension(a, more),
        Op::SignExtend(more) => sign_extension(a, more),
        Op::RotateLeft(by) => a.with(turn(width, x, width - (by % width as u128) as u8)),
        Op::RotateRight(by) => a.with(turn(width, x, (by % width as u128) as u8)),
        Op::BvNego => Word::truth(x == sign_bit(width)),
        _ => unreachable!(),
    }
}

// The bits from the high one down to the low one.
fn extraction(a: Word, high: u128, low: u128) -> Word
    requires { IsSome (result_sort (Op.Extract high low) (word_sort a ∷ [])) }
    ensures sort { result_sort (Op.Extract high low) (word_sort a ∷ []) ≡ Some (word_sort result) }
    ensures value { word_value result
        ≡ op_value (Op.Extract high low) (word_sort a ∷ []) (word_value a ∷ []) }
{
    let (high, low) = (high as u8, low as u8);
    Word::of(Sort::Bits(high - low + 1), between(high, low, a.value()))
}

fn repetition(a: Word, count: u128) -> Word
    requires { IsSome (result_sort (Op.Repeat count) (word_sort a ∷ [])) }
    ensures sort { result_sort (Op.Repeat count) (word_sort a ∷ []) ≡ Some (word_sort result) }
    ensures value { word_value result
        ≡ op_value (Op.Repeat count) (word_sort a ∷ []) (word_value a ∷ []) }
{
    let (count, width) = (count as u8, a.sort().width());
    Word::of(Sort::Bits(count * width), repeat(count, width, a.value()))
}

fn zero_extension(a: Word, more: u128) -> Word
    requires { IsSome (result_sort (Op.ZeroExtend more) (word_sort a ∷ [])) }
    ensures sort { result_sort (Op.ZeroExtend more) (word_sort a ∷ []) ≡ Some (word_sort result) }
    ensures value { word_value result
        ≡ op_value (Op.ZeroExtend more) (word_sort a ∷ []) (word_value a ∷ []) }
{
    let width = a.sort().width();
    Word::of(Sort::Bits(width + more as u8), a.value())
}

fn sign_extension(a: Word, more: u128) -> Word
    requires { IsSome (result_sort (Op.SignExtend more) (word_sort a ∷ [])) }
    ensures sort { result_sort (Op.SignExtend more) (word_sort a ∷ []) ≡ Some (word_sort result) }
    ensures value { word_value result
        ≡ op_value (Op.SignExtend more) (word_sort a ∷ []) (word_value a ∷ []) }
{
    let (width, more) = (a.sort().width(), more as u8);
    Word::of(
        Sort::Bits(width + more),
        extend_signed(width, more, a.value()),
    )
}

// The value of an operator of two arguments of one sort.
fn apply_two(op: Op, a: Word, b: Word) -> Word
    requires other { op ≢ Op.Concat }
    requires rank { IsSome (result_sort op (word_sort a ∷ word_sort b ∷ [])) }
    ensures sort { result_sort op (word_sort a ∷ word_sort b ∷ []) ≡ Some (word_sort result) }
    ensures value { word_value result
        ≡ op_value op (word_sort a ∷ word_sort b ∷ []) (word_value a ∷ word_value b ∷ []) }
{
    let (width, x, y) = (a.sort().width(), a.value(), b.value());
    match op {
        Op::And => Word::truth(x == 1 && y == 1),
        Op::Or => Word::truth(x == 1 || y == 1),
        Op::Xor => Word::truth(x != y),
        Op::Implies => Word::truth(x == 0 || y == 1),
        Op::Equal => Word::truth(x == y),
        Op::BvAnd => a.with(conjunction(width, x, y)),
        Op::BvOr => a.with(disjunction(width, x, y)),
        Op::BvXor => a.with(difference(width, x, y)),
        Op::BvNand => a.with(complement(width, conjunction(width, x, y))),
        Op::BvNor => a.with(complement(width, disjunction(width, x, y))),
        Op::BvXnor => a.with(complement(width, difference(width, x, y))),
        Op::BvAdd => a.with(sum(width, x, y)),
        Op::BvSub => a.with(subtraction(width, x, y)),
        Op::BvMul => a.with(product(width, x, y)),
        Op::BvUdiv => a.with(divide(width, x, y)),
        Op::BvUrem => a.with(rest(width, x, y)),
        Op::BvSdiv => a.with(divide_signed(width, x, y)),
        Op::BvSrem => a.with(rest_signed(width, x, y)),
        Op::BvSmod => a.with(modulus_signed(width, x, y)),
        Op::BvShl => a.with(shift_left(width, x, y)),
        Op::BvLshr => a.with(shift_right(width, x, y)),
        Op::BvAshr => a.with(shift_signed(width, x, y)),
        Op::BvUlt | Op::BvUsubo => Word::truth(x < y),
        Op::BvUle => Word::truth(x <= y),
        Op::BvUgt => Word::truth(x > y),
        Op::BvUge => Word::truth(x >= y),
        Op::BvSlt => Word::truth(is_less(width, x, y)),
        Op::BvSle => Word::truth(is_at_most(width, x, y)),
        Op::BvSgt => Word::truth(is_less(width, y, x)),
        Op::BvSge => Word::truth(is_at_most(width, y, x)),
        Op::BvComp => Word::of(Sort::Bits(1), (x == y) as u128),
        Op::BvUaddo => Word::truth(sum_overflows(width, x, y)),
        Op::BvSaddo => Word::truth(signed_sum_overflows(width, x, y)),
        Op::BvUmulo => Word::truth(product_overflows(width, x, y)),
        Op::BvSmulo => Word::truth(signed_product_overflows(width, x, y)),
        Op::BvSsubo => Word::truth(signed_difference_overflows(width, x, y)),
        Op::BvSdivo => Word::truth(x == sign_bit(width) && y == ones(width)),
        _ => unreachable!(),
    }
}
