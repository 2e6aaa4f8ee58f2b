//! The tables of small rules: what an operator makes of its other argument, of this sort.

ghost use Rattle.std.specs.Prelude.{◌≡◌, ◌-◌, ◌==◌, true, if◌then◌else◌, Some, None};
ghost use Rattle.qv_words.specs.Sort.{IsLawful, width_of};
ghost use Rattle.qv_words.specs.declared.op.Op.TheVariants.{Equal, BvUdiv, BvUrem};
ghost use Rattle.qv_rewrite_passes.specs.declared.outcome.Outcome.TheVariants.{Argument};
ghost use Rattle.qv_rewrite_passes.specs.declared.outcome.Outcome.TheVariants.{Truth, Under};
ghost use Rattle.qv_rewrite_passes.specs.Simps.{greatest, where_is, at_ends};
ghost use Rattle.qv_rewrite_passes.specs.Simps.{least_signed, greatest_signed, at_signed_ends};
ghost use Rattle.qv_rewrite_passes.specs.Simps.{by_shift, power_in};
ghost use Rattle.qv_rewrite_passes.specs.Simps.{by_either, by_first, by_second};
ghost use Rattle.qv_rewrite_passes.specs.Simps.{of_twins, of_opposites, of_one};

use qv_rewrite_passes::Outcome;
use qv_words::{Op, Sort};

// The greatest value of a sort.
fn greatest(sort: Sort) -> u128
    requires { IsLawful sort }
    ensures { result ≡ greatest sort }
{
    u128::MAX >> (128 - sort.width())
}

// One outcome where n is k.
fn where_is(k: u128, n: u128, only: Outcome) -> Option<Outcome>
    ensures { result ≡ where_is k n only }
{
    if n == k { Some(only) } else { None }
}

// One outcome where n is 0, and another where it is the greatest.
fn at_ends(sort: Sort, n: u128, low: Outcome, high: Outcome) -> Option<Outcome>
    requires { IsLawful sort }
    ensures { result ≡ at_ends sort n low high }
{
    if n == 0 {
        Some(low)
    } else {
        where_is(greatest(sort), n, high)
    }
}

// The least value as a signed number.
fn least_signed(sort: Sort) -> u128
    requires { IsLawful sort }
    ensures { result ≡ least_signed sort }
{
    1 << (sort.width() - 1)
}

// The greatest one.
fn greatest_signed(sort: Sort) -> u128
    requires { IsLawful sort }
    ensures { result ≡ greatest_signed sort }
{
    least_signed(sort) - 1
}

// One outcome where n is the least, and another where it is the greatest.
fn at_signed_ends(sort: Sort, n: u128, low: Outcome, high: Outcome) -> Option<Outcome>
    requires { IsLawful sort }
    ensures { result ≡ at_signed_ends sort n low high }
{
    if n == least_signed(sort) {
        Some(low)
    } else {
        where_is(greatest_signed(sort), n, high)
    }
}

// One outcome where n is 0, and another where it is 1.
fn at_least_two(n: u128, none: Outcome, one: Outcome) -> Option<Outcome>
    ensures { result ≡ (if n == 0 then Some none else where_is 1 n one) }
{
    if n == 0 {
        Some(none)
    } else {
        where_is(1, n, one)
    }
}

// Where either argument is the number n.
fn by_either(op: Op, sort: Sort, n: u128) -> Option<Outcome>
    requires { IsLawful sort }
    ensures { result ≡ by_either op sort n }
{
    match op {
        Op::And => at_ends(sort, n, Outcome::Number(0), Outcome::Argument),
        Op::Or => at_ends(sort, n, Outcome::Argument, Outcome::Number(1)),
        Op::Xor => at_ends(sort, n, Outcome::Argument, Outcome::Complement),
        Op::Equal => match sort {
            Sort::Bool => at_ends(Sort::Bool, n, Outcome::Complement, Outcome::Argument),
            Sort::Bits(_) => None,
        },
        Op::BvAnd => at_ends(sort, n, Outcome::Number(0), Outcome::Argument),
        Op::BvOr => at_ends(sort, n, Outcome::Argument, Outcome::Number(greatest(sort))),
        Op::BvXor => at_ends(sort, n, Outcome::Argument, Outcome::Complement),
        Op::BvNand => at_ends(
            sort,
            n,
            Outcome::Number(greatest(sort)),
            Outcome::Complement,
        ),
        Op::BvNor => at_ends(sort, n, Outcome::Complement, Outcome::Number(0)),
        Op::BvXnor => at_ends(sort, n, Outcome::Complement, Outcome::Argument),
        Op::BvAdd => where_is(0, n, Outcome::Argument),
        Op::BvMul => at_least_two(n, Outcome::Number(0), Outcome::Argument),
        _ => None,
    }
}

// Where the first is.
pub(crate) fn by_first(op: Op, sort: Sort, n: u128) -> Option<Outcome>
    requires { IsLawful sort }
    ensures { result ≡ by_first op sort n }
{
    match op {
        Op::Implies => at_ends(sort, n, Outcome::Number(1), Outcome::Argument),
        Op::BvUrem | Op::BvShl | Op::BvLshr => where_is(0, n, Outcome::Number(0)),
        Op::BvUlt => where_is(greatest(sort), n, Outcome::Truth(false)),
        Op::BvUle => {
            let most = Outcome::Under(Op::Equal, greatest(sort));
            at_ends(sort, n, Outcome::Truth(true), most)
        }
        Op::BvUgt => at_least_two(n, Outcome::Truth(false), Outcome::Under(Op::Equal, 0)),
        Op::BvUge => at_ends(sort, n, Outcome::Under(Op::Equal, 0), Outcome::Truth(true)),
        Op::BvSlt => where_is(greatest_signed(sort), n, Outcome::Truth(false)),
        Op::BvSle => at_least(sort, n),
        Op::BvSgt => where_is(least_signed(sort), n, Outcome::Truth(false)),
        Op::BvSge => at_most(sort, n),
        _ => by_either(op, sort, n),
    }
}

// Whether the other is at least n, as a signed number.
fn at_least(sort: Sort, n: u128) -> Option<Outcome>
    requires { IsLawful sort }
    ensures { result ≡ at_signed_ends sort n (Truth true) (Under Equal (greatest_signed sort)) }
{
    let most = Outcome::Under(Op::Equal, greatest_signed(sort));
    at_signed_ends(sort, n, Outcome::Truth(true), most)
}

// Whether it is at most n, likewise.
fn at_most(sort: Sort, n: u128) -> Option<Outcome>
    requires { IsLawful sort }
    ensures { result ≡ at_signed_ends sort n (Under Equal (least_signed sort)) (Truth true) }
{
    let least = Outcome::Under(Op::Equal, least_signed(sort));
    at_signed_ends(sort, n, least, Outcome::Truth(true))
}

// Where the second is.
pub(crate) fn by_second(op: Op, sort: Sort, n: u128) -> Option<Outcome>
    requires { IsLawful sort }
    ensures { result ≡ by_second op sort n }
{
    match op {
        Op::Implies => at_ends(sort, n, Outcome::Complement, Outcome::Number(1)),
        Op::BvSub => where_is(0, n, Outcome::Argument),
        Op::BvUdiv => divided_by(sort, n),
        Op::BvUrem => rest_by(sort, n),
        Op::BvShl | Op::BvLshr => by_shift(sort, n, Outcome::Number(0)),
        Op::BvAshr => {
            let sign = Outcome::Under(Op::BvAshr, u128::from(sort.width()) - 1);
            by_shift(sort, n, sign)
        }
        Op::BvUlt => at_least_two(n, Outcome::Truth(false), Outcome::Under(Op::Equal, 0)),
        Op::BvUle => at_ends(sort, n, Outcome::Under(Op::Equal, 0), Outcome::Truth(true)),
        Op::BvUgt => where_is(greatest(sort), n, Outcome::Truth(false)),
        Op::BvUge => {
            let most = Outcome::Under(Op::Equal, greatest(sort));
            at_ends(sort, n, Outcome::Truth(true), most)
        }
        Op::BvSlt => where_is(least_signed(sort), n, Outcome::Truth(false)),
        Op::BvSle => at_most(sort, n),
        Op::BvSgt => where_is(greatest_signed(sort), n, Outcome::Truth(false)),
        Op::BvSge => at_least(sort, n),
        _ => by_either(op, sort, n),
    }
}

// A shift by nothing, and one by all bits or more.
fn by_shift(sort: Sort, n: u128, past: Outcome) -> Option<Outcome>
    ensures { result ≡ by_shift sort n Argument past }
{
    if n == 0 {
        Some(Outcome::Argument)
    } else if u128::from(sort.width()) <= n {
        Some(past)
    } else {
        None
    }
}

// A quotient by 0, by 1 and by another power of two.
fn divided_by(sort: Sort, n: u128) -> Option<Outcome>
    requires { IsLawful sort }
    ensures { result ≡ by_second BvUdiv sort n }
{
    match n {
        0 => Some(Outcome::Number(greatest(sort))),
        1 => Some(Outcome::Argument),
        _ => match power_in(sort, n) {
            Some(k) => Some(Outcome::Under(Op::BvLshr, k)),
            None => None,
        },
    }
}

// A remainder by them.
fn rest_by(sort: Sort, n: u128) -> Option<Outcome>
    requires { IsLawful sort }
    ensures { result ≡ by_second BvUrem sort n }
{
    match n {
        0 => Some(Outcome::Argument),
        1 => Some(Outcome::Number(0)),
        _ => match power_in(sort, n) {
            Some(_) => Some(Outcome::Under(Op::BvAnd, n - 1)),
            None => None,
        },
    }
}

// The k below the width of which n is the power of two.
fn power_in(sort: Sort, n: u128) -> Option<u128>
    requires { IsLawful sort }
    ensures { result ≡ power_in (width_of sort) n }
{
    let k = n.trailing_zeros();
    if k < u32::from(sort.width()) && n == 1 << k {
        Some(u128::from(k))
    } else {
        None
    }
}

// Where both arguments are one.
pub(crate) fn of_twins(op: Op, sort: Sort) -> Option<Outcome>
    requires { IsLawful sort }
    ensures { result ≡ of_twins op sort }
{
    match op {
        Op::And | Op::Or | Op::BvAnd | Op::BvOr => Some(Outcome::Argument),
        Op::Xor | Op::BvXor | Op::BvSub | Op::BvUrem => Some(Outcome::Number(0)),
        Op::Implies => Some(Outcome::Number(1)),
        Op::BvNand | Op::BvNor => Some(Outcome::Complement),
        Op::BvXnor => Some(Outcome::Number(greatest(sort))),
        Op::BvUlt | Op::BvUgt | Op::BvSlt | Op::BvSgt => Some(Outcome::Truth(false)),
        Op::Equal | Op::BvUle | Op::BvUge | Op::BvSle | Op::BvSge => Some(Outcome::Truth(true)),
        _ => None,
    }
}

// Where one argument is the complement of the other.
pub(crate) fn of_opposites(op: Op, sort: Sort) -> Option<Outcome>
    requires { IsLawful sort }
    ensures { result ≡ of_opposites op sort }
{
    match op {
        Op::And | Op::BvAnd | Op::BvXnor => Some(Outcome::Number(0)),
        Op::Or | Op::Xor => Some(Outcome::Number(1)),
        Op::Equal => Some(Outcome::Truth(false)),
        Op::BvOr | Op::BvXor => Some(Outcome::Number(greatest(sort))),
        _ => None,
    }
}

// Where there is no other one.
pub(crate) fn of_one(op: Op, sort: Sort) -> Option<Outcome>
    requires { IsLawful sort }
    ensures { result ≡ of_one op sort }
{
    match op {
        Op::Extract(high, low) => of_extract(sort, high, low),
        Op::Repeat(k) => where_is(1, k, Outcome::Argument),
        Op::ZeroExtend(k) | Op::SignExtend(k) => where_is(0, k, Outcome::Argument),
        Op::RotateLeft(k) | Op::RotateRight(k) => {
            where_is(0, k % u128::from(sort.width()), Outcome::Argument)
        }
        _ => None,
    }
}

// All bits of a word.
fn of_extract(sort: Sort, high: u128, low: u128) -> Option<Outcome>
    requires { IsLawful sort }
    ensures { result ≡ (if low == 0 then where_is (width_of sort - 1) high Argument else None) }
{
    if low == 0 {
        where_is(u128::from(sort.width()) - 1, high, Outcome::Argument)
    } else {
        None
    }
}
