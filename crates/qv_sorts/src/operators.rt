//! The operators by their names.

ghost use Rattle.std.specs.Prelude.{◌≡◌, ◌≢◌, ◌↔◌, IfSome, IfNone, find, bytes_eq, length};
ghost use Rattle.qv_sorts.specs.Names.{name_of, indices_of, IsNamed, NamesNone, NamesAtOther};

use crate::naming::name_of;
use qv_words::Op;

/// A name with indices is no operator's.
#[derive(Clone, Copy, Debug, PartialEq, Eq)]
pub enum NameFault {
    /// No operator has this name.
    Unknown,
    /// The operator of this name has another number of indices.
    Indices,
}

// All operators, their indices being 0.
static OPERATORS: [Op; 50] = [
    Op::Not,
    Op::And,
    Op::Or,
    Op::Xor,
    Op::Implies,
    Op::Equal,
    Op::Ite,
    Op::BvNot,
    Op::BvNeg,
    Op::BvAnd,
    Op::BvOr,
    Op::BvXor,
    Op::BvNand,
    Op::BvNor,
    Op::BvXnor,
    Op::BvAdd,
    Op::BvSub,
    Op::BvMul,
    Op::BvUdiv,
    Op::BvUrem,
    Op::BvSdiv,
    Op::BvSrem,
    Op::BvSmod,
    Op::BvShl,
    Op::BvLshr,
    Op::BvAshr,
    Op::BvUlt,
    Op::BvUle,
    Op::BvUgt,
    Op::BvUge,
    Op::BvSlt,
    Op::BvSle,
    Op::BvSgt,
    Op::BvSge,
    Op::BvComp,
    Op::Concat,
    Op::Extract(0, 0),
    Op::Repeat(0),
    Op::ZeroExtend(0),
    Op::SignExtend(0),
    Op::RotateLeft(0),
    Op::RotateRight(0),
    Op::BvNego,
    Op::BvUaddo,
    Op::BvSaddo,
    Op::BvUmulo,
    Op::BvSmulo,
    Op::BvUsubo,
    Op::BvSsubo,
    Op::BvSdivo,
];

/// The operator of this name with these indices.
pub fn op_named(name: &[u8], indices: &[u128]) -> Result<Op, NameFault>
    ensures named { (op : Op) → (result ≡ Ok op) ↔ IsNamed name.now indices.now op }
    ensures unknown { (result ≡ Err NameFault.Unknown) ↔ NamesNone name.now }
    ensures indices { (result ≡ Err NameFault.Indices) ↔ NamesAtOther name.now indices.now }
{
    let op = plain_named(name).ok_or(NameFault::Unknown)?;
    with_indices(op, indices).ok_or(NameFault::Indices)
}

// The operator of this name, its indices being 0.
fn plain_named(name: &[u8]) -> Option<Op>
    ensures found { IfSome result (λ op. name_of op ≡ name.now) }
    ensures none { IfNone result (NamesNone name.now) }
{
    first_named(&OPERATORS, name)
}

// The first operator of this name.
fn first_named(ops: &[Op], name: &[u8]) -> Option<Op>
    ensures { result ≡ find (λ op. bytes_eq (name_of op) name.now) ops.now }
{
    ops.iter().copied().find(|op| name_of(*op) == name)
}

// The operator with these indices in place of its own, where it has so many.
fn with_indices(op: Op, indices: &[u128]) -> Option<Op>
    ensures some { IfSome result (λ other. (name_of other ≡ name_of op)
        × (indices_of other ≡ indices.now)) }
    ensures none { IfNone result (length (indices_of op) ≢ length indices.now) }
{
    match (op, indices) {
        (Op::Extract(_, _), [i, j]) => Some(Op::Extract(*i, *j)),
        (Op::Repeat(_), [k]) => Some(Op::Repeat(*k)),
        (Op::ZeroExtend(_), [k]) => Some(Op::ZeroExtend(*k)),
        (Op::SignExtend(_), [k]) => Some(Op::SignExtend(*k)),
        (Op::RotateLeft(_), [k]) => Some(Op::RotateLeft(*k)),
        (Op::RotateRight(_), [k]) => Some(Op::RotateRight(*k)),
        (
            Op::Extract(_, _)
            | Op::Repeat(_)
            | Op::ZeroExtend(_)
            | Op::SignExtend(_)
            | Op::RotateLeft(_)
            | Op::RotateRight(_),
            _,
        ) => None,
        (_, []) => Some(op),
        (_, [_, ..]) => None,
    }
}
