//! The names of the operators, both ways.

ghost use Rattle.std.specs.Prelude.{◌≡◌};
ghost use Rattle.qv_sorts.specs.Names.{name_of};
ghost use Rattle.qv_sorts.specs.Groups.{group_of};
ghost use Rattle.qv_sorts.specs.Groups.{Core, Bitwise, Arithmetic, Comparison, Parts, Overflow};

use qv_words::Op;

/// The name of an operator, as it stands in a script.
pub fn name_of(op: Op) -> &'static [u8]
    ensures { result.now ≡ name_of op }
{
    match op {
        Op::Not | Op::And | Op::Or | Op::Xor | Op::Implies | Op::Equal | Op::Ite => core_name(op),
        Op::BvNot | Op::BvAnd | Op::BvOr | Op::BvXor | Op::BvNand | Op::BvNor | Op::BvXnor =>
            bitwise_name(op),
        Op::BvNeg
        | Op::BvAdd
        | Op::BvSub
        | Op::BvMul
        | Op::BvUdiv
        | Op::BvUrem
        | Op::BvSdiv
        | Op::BvSrem
        | Op::BvSmod => arithmetic_name(op),
        Op::BvUlt
        | Op::BvUle
        | Op::BvUgt
        | Op::BvUge
        | Op::BvSlt
        | Op::BvSle
        | Op::BvSgt
        | Op::BvSge
        | Op::BvComp => comparison_name(op),
        Op::BvShl
        | Op::BvLshr
        | Op::BvAshr
        | Op::Concat
        | Op::Extract(_, _)
        | Op::Repeat(_)
        | Op::ZeroExtend(_)
        | Op::SignExtend(_)
        | Op::RotateLeft(_)
        | Op::RotateRight(_) => part_name(op),
        Op::BvNego
        | Op::BvUaddo
        | Op::BvSaddo
        | Op::BvUmulo
        | Op::BvSmulo
        | Op::BvUsubo
        | Op::BvSsubo
        | Op::BvSdivo => overflow_name(op),
    }
}

// The name of an operator of truth values, of equality or of choice.
fn core_name(op: Op) -> &'static [u8]
    requires { group_of op ≡ Core }
    ensures { result.now ≡ name_of op }
{
    match op {
        Op::Not => b"not",
        Op::And => b"and",
        Op::Or => b"or",
        Op::Xor => b"xor",
        Op::Implies => b"=>",
        Op::Equal => b"=",
        Op::Ite => b"ite",
        _ => unreachable!(),
    }
}

// The name of an operator on single bits.
fn bitwise_name(op: Op) -> &'static [u8]
    requires { group_of op ≡ Bitwise }
    ensures { result.now ≡ name_of op }
{
    match op {
        Op::BvNot => b"bvnot",
        Op::BvAnd => b"bvand",
        Op::BvOr => b"bvor",
        Op::BvXor => b"bvxor",
        Op::BvNand => b"bvnand",
        Op::BvNor => b"bvnor",
        Op::BvXnor => b"bvxnor",
        _ => unreachable!(),
    }
}

// The name of a sum, a product or a quotient.
fn arithmetic_name(op: Op) -> &'static [u8]
    requires { group_of op ≡ Arithmetic }
    ensures { result.now ≡ name_of op }
{
    match op {
        Op::BvNeg => b"bvneg",
        Op::BvAdd => b"bvadd",
        Op::BvSub => b"bvsub",
        Op::BvMul => b"bvmul",
        Op::BvUdiv => b"bvudiv",
        Op::BvUrem => b"bvurem",
        Op::BvSdiv => b"bvsdiv",
        Op::BvSrem => b"bvsrem",
        Op::BvSmod => b"bvsmod",
        _ => unreachable!(),
    }
}

// The name of a comparison of bit-vectors.
fn comparison_name(op: Op) -> &'static [u8]
    requires { group_of op ≡ Comparison }
    ensures { result.now ≡ name_of op }
{
    match op {
        Op::BvUlt => b"bvult",
        Op::BvUle => b"bvule",
        Op::BvUgt => b"bvugt",
        Op::BvUge => b"bvuge",
        Op::BvSlt => b"bvslt",
        Op::BvSle => b"bvsle",
        Op::BvSgt => b"bvsgt",
        Op::BvSge => b"bvsge",
        Op::BvComp => b"bvcomp",
        _ => unreachable!(),
    }
}

// The name of an operator that puts bits into other places.
fn part_name(op: Op) -> &'static [u8]
    requires { group_of op ≡ Parts }
    ensures { result.now ≡ name_of op }
{
    match op {
        Op::BvShl => b"bvshl",
        Op::BvLshr => b"bvlshr",
        Op::BvAshr => b"bvashr",
        Op::Concat => b"concat",
        Op::Extract(_, _) => b"extract",
        Op::Repeat(_) => b"repeat",
        Op::ZeroExtend(_) => b"zero_extend",
        Op::SignExtend(_) => b"sign_extend",
        Op::RotateLeft(_) => b"rotate_left",
        Op::RotateRight(_) => b"rotate_right",
        _ => unreachable!(),
    }
}

// The name of an overflow predicate.
fn overflow_name(op: Op) -> &'static [u8]
    requires { group_of op ≡ Overflow }
    ensures { result.now ≡ name_of op }
{
    match op {
        Op::BvNego => b"bvnego",
        Op::BvUaddo => b"bvuaddo",
        Op::BvSaddo => b"bvsaddo",
        Op::BvUmulo => b"bvumulo",
        Op::BvSmulo => b"bvsmulo",
        Op::BvUsubo => b"bvusubo",
        Op::BvSsubo => b"bvssubo",
        Op::BvSdivo => b"bvsdivo",
        _ => unreachable!(),
    }
}
