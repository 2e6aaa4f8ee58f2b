//! The ranks of the operators.

ghost use Rattle.std.specs.Prelude.{◌≡◌, All, IfOk};
ghost use Rattle.std.specs.Result.{result_ok, result_err};
ghost use Rattle.qv_words.specs.Sort.{IsLawful};
ghost use Rattle.qv_words.specs.Rank.{result_sort};
ghost use Rattle.qv_sorts.specs.Faults.{
  fault_of,
  arguments_of,
  arity_of,
  are_sorts_of,
  may_have_indices,
};

use qv_words::{Op, Sort, result_sort};

/// Why an application has no rank.
#[derive(Clone, Copy, Debug, PartialEq, Eq)]
pub enum RankFault {
    /// The operator takes another number of arguments.
    Arity,
    /// It takes arguments of other sorts.
    Sorts,
    /// It can't have its indices at these arguments.
    Index,
    /// The result is wider than 128 bits.
    Width,
}

// What arguments an operator takes.
#[derive(Clone, Copy, Debug, PartialEq, Eq)]
enum Arguments {
    OneBool,
    TwoBools,
    // Two of one sort.
    TwoAlike,
    // A truth value and two of one sort.
    Choice,
    // A bit-vector.
    OneWidth,
    // Two bit-vectors.
    AnyWidths,
    // Two bit-vectors of one width.
    TwoWidths,
}

/// The sort of an application of the operator to arguments of these sorts. Where it has none, the
/// first fault in the order of `RankFault`.
pub fn rank(op: Op, sorts: &[Sort]) -> Result<Sort, RankFault>
    ensures sort { result_ok result ≡ result_sort op sorts.now }
    ensures fault { result_err result ≡ fault_of op sorts.now }
    ensures lawful { All IsLawful sorts.now → IfOk result IsLawful }
{
    match result_sort(op, sorts) {
        Some(sort) => Ok(sort),
        None => Err(fault(op, sorts)),
    }
}

// The first fault of an application that has no rank.
fn fault(op: Op, sorts: &[Sort]) -> RankFault
    requires { result_sort op sorts.now ≡ None }
    ensures { fault_of op sorts.now ≡ Some result }
{
    let arguments = arguments_of(op);
    if sorts.len() != arguments.arity() {
        RankFault::Arity
    } else if !arguments.are_of(sorts) {
        RankFault::Sorts
    } else if !may_have_indices(op, sorts) {
        RankFault::Index
    } else {
        RankFault::Width
    }
}

// What the operator takes.
fn arguments_of(op: Op) -> Arguments
    ensures { result ≡ arguments_of op }
{
    match op {
        Op::Not => Arguments::OneBool,
        Op::And | Op::Or | Op::Xor | Op::Implies => Arguments::TwoBools,
        Op::Equal => Arguments::TwoAlike,
        Op::Ite => Arguments::Choice,
        Op::BvNot
        | Op::BvNeg
        | Op::BvNego
        | Op::Extract(_, _)
        | Op::Repeat(_)
        | Op::ZeroExtend(_)
        | Op::SignExtend(_)
        | Op::RotateLeft(_)
        | Op::RotateRight(_) => Arguments::OneWidth,
        Op::Concat => Arguments::AnyWidths,
        _ => Arguments::TwoWidths,
    }
}

impl Arguments {
    // How many these are.
    fn arity(self) -> usize
        ensures { result ≡ arity_of self }
    {
        match self {
            Arguments::OneBool | Arguments::OneWidth => 1,
            Arguments::TwoBools
            | Arguments::TwoAlike
            | Arguments::AnyWidths
            | Arguments::TwoWidths => 2,
            Arguments::Choice => 3,
        }
    }

    // Whether arguments of these sorts are such.
    fn are_of(self, sorts: &[Sort]) -> bool
        ensures { result ≡ are_sorts_of self sorts.now }
    {
        match (self, sorts) {
            (Arguments::OneBool, [Sort::Bool])
            | (Arguments::TwoBools, [Sort::Bool, Sort::Bool])
            | (Arguments::OneWidth, [Sort::Bits(_)])
            | (Arguments::AnyWidths, [Sort::Bits(_), Sort::Bits(_)]) => true,
            (Arguments::TwoAlike, [s, t]) => s == t,
            (Arguments::Choice, [Sort::Bool, s, t]) => s == t,
            (Arguments::TwoWidths, [Sort::Bits(v), Sort::Bits(w)]) => v == w,
            _ => false,
        }
    }
}

// Whether the operator may have its indices at arguments of these sorts.
fn may_have_indices(op: Op, sorts: &[Sort]) -> bool
    ensures { result ≡ may_have_indices op sorts.now }
{
    match (op, sorts) {
        (Op::Extract(high, low), [Sort::Bits(width)]) => high < *width as u128 && low <= high,
        (Op::Repeat(count), _) => count >= 1,
        _ => true,
    }
}
