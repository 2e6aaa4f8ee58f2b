//! What is known of the operators that work on single bits or move them: each function's contract
//! is a law.

ghost use Rattle.std.specs.Prelude.{◌+◌, ◌-◌, ◌%◌, min, max};
ghost use Rattle.qv_words.specs.declared.op.Op.{Op};
ghost use Rattle.qv_words.specs.BitLaws.{
  WorksOnBits,
  BvNotTurnsBits,
  RotateLeftMovesBits,
  RotateRightMovesBits,
  RepeatCopiesBits,
  ZeroExtendAddsZeros,
  SignExtendCopiesSign,
  ExtractTakesBits,
  ConcatJoinsBits,
};

/// The bitwise operators, bit by bit.
pub fn bitwise_operators_work_on_bits()
    ensures bvnot { BvNotTurnsBits }
    ensures bvand { WorksOnBits Op.BvAnd (λ x y. min x y) }
    ensures bvor { WorksOnBits Op.BvOr (λ x y. max x y) }
    ensures bvxor { WorksOnBits Op.BvXor (λ x y. (x + y) % 2) }
    ensures bvnand { WorksOnBits Op.BvNand (λ x y. 1 - min x y) }
    ensures bvnor { WorksOnBits Op.BvNor (λ x y. 1 - max x y) }
    ensures bvxnor { WorksOnBits Op.BvXnor (λ x y. 1 - (x + y) % 2) }
{}

/// A rotation moves each bit by its index, round the width.
pub fn rotations_move_bits()
    ensures left { RotateLeftMovesBits }
    ensures right { RotateRightMovesBits }
{}

/// Copies have the bits of the value over and over.
pub fn repeat_copies_bits()
    ensures { RepeatCopiesBits }
{}

/// An extension keeps the bits, and has zeros or the sign above them.
pub fn extensions_keep_bits()
    ensures zero { ZeroExtendAddsZeros }
    ensures sign { SignExtendCopiesSign }
{}

/// Parts have the bits of the value, and values put together have the bits of both.
pub fn parts_have_their_bits()
    ensures extract { ExtractTakesBits }
    ensures concat { ConcatJoinsBits }
{}
