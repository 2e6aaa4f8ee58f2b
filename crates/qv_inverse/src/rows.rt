//! The rows of inverse terms, operator by operator.

ghost use Rattle.std.specs.Prelude.{◌≡◌, ◌≤◌, ◌<◌, [], ◌∷◌, length, IsSome, IfOk, All, Some};
ghost use Rattle.std.specs.Prelude.{option_map};
ghost use Rattle.qv_words.specs.Sort.{IsLawful};
ghost use Rattle.qv_words.specs.Word.{word_value};
ghost use Rattle.qv_words.specs.Rank.{result_sort};
ghost use Rattle.qv_words.specs.Inverse.{
  unary,
  number,
  inverse_term,
  row_at,
  unary_row,
  first_row,
  second_row,
  amount_row,
  other_term,
  target_term,
};
ghost use Rattle.qv_words.specs.Prenex.{binary, ite};
ghost use Rattle.qv_terms.specs.View.{tree};

use crate::building::{Leaves, amount, app1, app2, choice};
use crate::chains::amount_row;
use crate::parts::extraction_row;
use crate::products::product_row;
use qv_terms::{NoMemory, Term};
use qv_words::{Op, Sort, Word, result_sort};
use std::alloc::Global;

/// What to put for the argument at a position so that the operator, at arguments of these sorts,
/// gives a target: a term over the other argument, the variable of level 0, and the target, that of
/// level 1. It solves this wherever any value of the argument does. `other` is the other argument's
/// value where that is a literal; a product has a term only then. `None` where the operator has no
/// such term for this argument.
///
/// The method is that of Niemetz, Preiner, Reynolds, Barrett and Tinelli, "Solving quantified
/// bit-vectors using invertibility conditions" (CAV 2018).
#[tactic(auto, unfolding(qv_words::specs::Inverse::inverse_term))]
pub fn invert(
    alloc: Global,
    op: Op,
    position: usize,
    sorts: &[Sort],
    other: Option<Word>,
) -> Result<Option<Term>, NoMemory>
    requires argument { position < length sorts.now }
    requires lawful { All IsLawful sorts.now }
    requires rank { IsSome (result_sort op sorts.now) }
    ensures { IfOk result (λ row. option_map tree row
        ≡ inverse_term op position sorts.now (option_map word_value other)) }
{
    match result_sort(op, sorts) {
        Some(target) => row_at(alloc, op, position, sorts, target, other),
        None => unreachable!(),
    }
}

// The row for the argument at a position, where the result has the sort of the target.
fn row_at(
    alloc: Global,
    op: Op,
    position: usize,
    sorts: &[Sort],
    target: Sort,
    other: Option<Word>,
) -> Result<Option<Term>, NoMemory>
    requires argument { position < length sorts.now }
    requires lawful { All IsLawful sorts.now }
    requires rank { IsSome (result_sort op sorts.now) }
    ensures { IfOk result (λ row. option_map tree row
        ≡ row_at op position sorts.now target (option_map word_value other)) }
{
    match sorts {
        [only] => match *only {
            Sort::Bits(width) => unary_row(alloc, op, width, target),
            Sort::Bool => Ok(None),
        },
        [first, second] => binary_row(alloc, op, position, (*first, *second), target, other),
        _ => Ok(None),
    }
}

// The same for two arguments.
fn binary_row(
    alloc: Global,
    op: Op,
    position: usize,
    sorts: (Sort, Sort),
    target: Sort,
    other: Option<Word>,
) -> Result<Option<Term>, NoMemory>
    requires argument { position < 2 }
    requires first { IsLawful sorts.0 }
    requires second { IsLawful sorts.1 }
    ensures { IfOk result (λ row. option_map tree row
        ≡ row_at op position (sorts.0 ∷ sorts.1 ∷ []) target (option_map word_value other)) }
{
    match sorts {
        (Sort::Bits(first), Sort::Bits(second)) => {
            if position == 0 {
                first_row(alloc, op, first, second, target, other)
            } else {
                second_row(alloc, op, second, first, target, other)
            }
        }
        _ => Ok(None),
    }
}

// The row of an operator of one argument, which has so many bits.
fn unary_row(alloc: Global, op: Op, width: u8, target: Sort) -> Result<Option<Term>, NoMemory>
    requires low { 1 ≤ width }
    requires high { width ≤ 128 }
    requires rank { IsSome (result_sort op (Sort.Bits width ∷ [])) }
    ensures { IfOk result (λ row. option_map tree row ≡ unary_row op width (target_term target)) }
{
    let t = Term::Var {
        level: 1,
        sort: target,
    };
    match op {
        Op::BvNot | Op::BvNeg => Ok(Some(app1(alloc, op, t)?)),
        Op::Extract(high, low) => Ok(Some(extraction_row(alloc, width, high, low, t)?)),
        Op::Repeat(_) | Op::ZeroExtend(_) | Op::SignExtend(_) => {
            Ok(Some(app1(alloc, Op::Extract(u128::from(width) - 1, 0), t)?))
        }
        Op::RotateLeft(by) => Ok(Some(app1(alloc, Op::RotateRight(by), t)?)),
        Op::RotateRight(by) => Ok(Some(app1(alloc, Op::RotateLeft(by), t)?)),
        _ => Ok(None),
    }
}

// The row for the first of two arguments, which has so many bits.
fn first_row(
    alloc: Global,
    op: Op,
    width: u8,
    other_width: u8,
    target: Sort,
    other: Option<Word>,
) -> Result<Option<Term>, NoMemory>
    requires low { 1 ≤ width }
    requires high { width ≤ 128 }
    requires other_low { 1 ≤ other_width }
    ensures { IfOk result (λ row. option_map tree row
        ≡ first_row op width other_width (other_term (Sort.Bits other_width)) (target_term target)
        (option_map word_value other)) }
{
    let leaves = Leaves {
        other: Sort::Bits(other_width),
        target,
    };
    match op {
        Op::BvAdd => target_and_other(alloc, Op::BvSub, leaves),
        Op::BvSub => target_and_other(alloc, Op::BvAdd, leaves),
        Op::BvXor | Op::BvXnor => target_and_other(alloc, op, leaves),
        Op::BvAnd | Op::BvOr | Op::BvUrem => Ok(Some(leaves.target())),
        Op::BvNand | Op::BvNor => of_target(alloc, Op::BvNot, leaves),
        Op::BvMul => product_row(alloc, width, leaves, other),
        Op::BvUdiv => other_and_target(alloc, Op::BvMul, leaves),
        Op::BvShl => target_and_other(alloc, Op::BvLshr, leaves),
        Op::BvLshr => target_and_other(alloc, Op::BvShl, leaves),
        Op::BvAshr => signed_shift(alloc, width, leaves),
        Op::Concat => {
            let low = u128::from(other_width);
            let part = Op::Extract(low + u128::from(width) - 1, low);
            of_target(alloc, part, leaves)
        }
        _ => Ok(None),
    }
}

// The row for the second of two arguments, which has so many bits.
fn second_row(
    alloc: Global,
    op: Op,
    width: u8,
    other_width: u8,
    target: Sort,
    other: Option<Word>,
) -> Result<Option<Term>, NoMemory>
    requires low { 1 ≤ width }
    requires high { width ≤ 128 }
    ensures { IfOk result (λ row. option_map tree row
        ≡ second_row op width other_width (other_term (Sort.Bits other_width)) (target_term target)
        (option_map word_value other)) }
{
    let leaves = Leaves {
        other: Sort::Bits(other_width),
        target,
    };
    match op {
        Op::BvAdd => target_and_other(alloc, Op::BvSub, leaves),
        Op::BvSub => other_and_target(alloc, Op::BvSub, leaves),
        Op::BvXor | Op::BvXnor => target_and_other(alloc, op, leaves),
        Op::BvAnd | Op::BvOr => Ok(Some(leaves.target())),
        Op::BvNand | Op::BvNor => of_target(alloc, Op::BvNot, leaves),
        Op::BvMul => product_row(alloc, width, leaves, other),
        Op::BvUdiv => other_and_target(alloc, Op::BvUdiv, leaves),
        Op::BvUrem => divisor(alloc, width, leaves),
        Op::BvShl | Op::BvLshr | Op::BvAshr => amounts(alloc, op, width, leaves),
        Op::Concat => of_target(alloc, Op::Extract(u128::from(width) - 1, 0), leaves),
        _ => Ok(None),
    }
}

// An operator of the target.
fn of_target(alloc: Global, op: Op, leaves: Leaves) -> Result<Option<Term>, NoMemory>
    ensures { IfOk result (λ row. option_map tree row
        ≡ Some (unary op (target_term leaves.target))) }
{
    Ok(Some(app1(alloc, op, leaves.target())?))
}

// An operator of the target and the other argument.
fn target_and_other(alloc: Global, op: Op, leaves: Leaves) -> Result<Option<Term>, NoMemory>
    ensures { IfOk result (λ row. option_map tree row
        ≡ Some (binary op (target_term leaves.target) (other_term leaves.other))) }
{
    Ok(Some(app2(alloc, op, leaves.target(), leaves.other())?))
}

// An operator of the other argument and the target.
fn other_and_target(alloc: Global, op: Op, leaves: Leaves) -> Result<Option<Term>, NoMemory>
    ensures { IfOk result (λ row. option_map tree row
        ≡ Some (binary op (other_term leaves.other) (target_term leaves.target))) }
{
    Ok(Some(app2(alloc, op, leaves.other(), leaves.target())?))
}

// The row of amounts of shifts.
fn amounts(alloc: Global, op: Op, width: u8, leaves: Leaves) -> Result<Option<Term>, NoMemory>
    requires low { 1 ≤ width }
    requires high { width ≤ 128 }
    ensures { IfOk result (λ row. option_map tree row
        ≡ Some (amount_row op width (other_term leaves.other) (target_term leaves.target))) }
{
    Ok(Some(amount_row(alloc, op, width, leaves)?))
}

// The row of what is shifted to the right with its sign.
fn signed_shift(alloc: Global, width: u8, leaves: Leaves) -> Result<Option<Term>, NoMemory>
    requires low { 1 ≤ width }
    requires high { width ≤ 128 }
    ensures { IfOk result (λ row. option_map tree row
        ≡ Some (ite (binary Op.BvUlt (other_term leaves.other) (number width width))
        (binary Op.BvShl (target_term leaves.target) (other_term leaves.other))
        (target_term leaves.target))) }
{
    Ok(Some(signed_shift_row(alloc, width, leaves)?))
}

// The row of divisors that leave the target.
fn divisor(alloc: Global, width: u8, leaves: Leaves) -> Result<Option<Term>, NoMemory>
    requires low { 1 ≤ width }
    requires high { width ≤ 128 }
    ensures { IfOk result (λ row. option_map tree row
        ≡ Some (ite (binary Op.Equal (other_term leaves.other) (target_term leaves.target))
        (number width 0)
        (binary Op.BvSub (other_term leaves.other) (target_term leaves.target)))) }
{
    Ok(Some(divisor_row(alloc, width, leaves)?))
}

// What is shifted to the right with its sign: the target shifted back, and the target where no bit
// but the sign is left.
fn signed_shift_row(alloc: Global, width: u8, leaves: Leaves) -> Result<Term, NoMemory>
    requires low { 1 ≤ width }
    requires high { width ≤ 128 }
    ensures { IfOk result (λ row. tree row
        ≡ ite (binary Op.BvUlt (other_term leaves.other) (number width width))
        (binary Op.BvShl (target_term leaves.target) (other_term leaves.other))
        (target_term leaves.target)) }
{
    let is_within = app2(alloc, Op::BvUlt, leaves.other(), amount(width, width))?;
    let back = app2(alloc, Op::BvShl, leaves.target(), leaves.other())?;
    choice(alloc, is_within, back, leaves.target())
}

// By what is divided where the target is what remains: 0 where nothing was taken away, and else
// what was.
fn divisor_row(alloc: Global, width: u8, leaves: Leaves) -> Result<Term, NoMemory>
    requires low { 1 ≤ width }
    requires high { width ≤ 128 }
    ensures { IfOk result (λ row. tree row
        ≡ ite (binary Op.Equal (other_term leaves.other) (target_term leaves.target))
        (number width 0)
        (binary Op.BvSub (other_term leaves.other) (target_term leaves.target))) }
{
    let is_whole = app2(alloc, Op::Equal, leaves.other(), leaves.target())?;
    let taken = app2(alloc, Op::BvSub, leaves.other(), leaves.target())?;
    choice(alloc, is_whole, amount(width, 0), taken)
}
