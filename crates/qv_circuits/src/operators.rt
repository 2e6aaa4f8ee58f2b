//! The circuits of operators.

ghost use Rattle.std.specs.Prelude.{◌≡◌, ◌≤◌, IfOk, MatchResult, length, map};
ghost use Rattle.qv_words.specs.Gate.{done};
ghost use Rattle.qv_words.specs.Routine.{copies, turned_left, turned_right};
ghost use Rattle.qv_words.specs.OpCircuit.{choice_circuit, op_circuit, unary_circuit};
ghost use Rattle.qv_words.specs.OpCircuit.{binary_circuit};
ghost use Rattle.qv_circuits.specs.Adding.{lit_of, lits_of};
ghost use Rattle.qv_circuits.specs.Bitwise.{gate_of};
ghost use Rattle.qv_circuits.specs.Encoding.{Encodes};
ghost use Rattle.qv_circuits.specs.Fitting.{FitsRank};
ghost use Rattle.qv_circuits.specs.Kinds.{bitwise, difference, moved_bits, quotient, remainder};
ghost use Rattle.qv_circuits.specs.Kinds.{turned_at, CountsBits, IsPredicate};

use crate::bitwise::Bitwise;
use crate::encoder::Encoder;
use crate::faults::CircuitFault;
use crate::predicates::Predicate;
use crate::words::{behind, extended, front, joined, least_signed, negated_each, no, top};
use qv_cnf::Lit;
use qv_words::Op;
use std::alloc::{AllocError, Global};

// So many copies.
fn copies(alloc: Global, bits: &[Lit], count: usize) -> Result<Vec<Lit>, AllocError>
    ensures { IfOk result (λ v. lits_of v.items ≡ copies count (lits_of bits.now)) }
{
    let mut lits = Vec::with_capacity(alloc, bits.len())?;
    'copies: for _i in 0..count {
        lits.extend_from_slice(bits)?;
    }
    Ok(lits)
}

// The bits from a place on, and then those before it.
fn turned(alloc: Global, bits: &[Lit], place: usize) -> Result<Vec<Lit>, AllocError>
    ensures { IfOk result (λ v. lits_of v.items ≡ turned_at place (lits_of bits.now)) }
{
    joined(alloc, behind(bits, place), front(bits, place))
}

// The bits of an operator that moves those of its argument.
fn moved_bits(alloc: Global, op: Op, a: &[Lit]) -> Result<Vec<Lit>, AllocError>
    requires { CountsBits op (length a.now) }
    ensures { IfOk result (λ v. lits_of v.items ≡ moved_bits op (lits_of a.now)) }
{
    match op {
        Op::Not | Op::BvNot => negated_each(alloc, a),
        Op::Extract(high, low) => joined(
            alloc,
            front(behind(a, low as usize), (high - low + 1) as usize),
            &[],
        ),
        Op::Repeat(count) => copies(alloc, a, count as usize),
        Op::ZeroExtend(more) => extended(alloc, a, no(), more as usize),
        Op::SignExtend(more) => extended(alloc, a, top(a), more as usize),
        Op::RotateLeft(by) => turned(alloc, a, a.len() - (by % a.len() as u128) as usize),
        Op::RotateRight(by) => turned(alloc, a, (by % a.len() as u128) as usize),
        _ => Ok(Vec::new(alloc)),
    }
}

impl Encoder {
    // Bits that take no gate.
    fn without_gates(&mut self, bits: Vec<Lit>) -> Result<Vec<Lit>, CircuitFault>
        ensures { Encodes (λ v. lits_of v.items) self.old (done (lits_of bits.items)) result
            self.new }
    {
        Ok(bits)
    }

    // A gate bit by bit, negated or not.
    fn bitwise(
        &mut self,
        gate: &Bitwise,
        a: &[Lit],
        b: &[Lit],
        negate: bool,
    ) -> Result<Vec<Lit>, CircuitFault>
        ensures { Encodes (λ v. lits_of v.items) self.old
            (bitwise negate (gate_of gate.now) (lits_of a.now) (lits_of b.now)) result self.new }
    {
        let bits = self.each(gate, a, b)?;
        if !negate {
            return Ok(bits);
        }
        let negated = negated_each(self.alloc, &bits)?;
        Ok(negated)
    }

    fn difference(&mut self, a: &[Lit], b: &[Lit]) -> Result<Vec<Lit>, CircuitFault>
        ensures { Encodes (λ v. lits_of v.items) self.old
            (difference (lits_of a.now) (lits_of b.now)) result self.new }
    {
        let (difference, _over) = self.subtract(a, b)?;
        Ok(difference)
    }

    fn quotient(&mut self, a: &[Lit], b: &[Lit]) -> Result<Vec<Lit>, CircuitFault>
        ensures { Encodes (λ v. lits_of v.items) self.old
            (quotient (lits_of a.now) (lits_of b.now)) result self.new }
    {
        let (quotient, _rest) = self.divide(a, b)?;
        Ok(quotient)
    }

    fn remainder(&mut self, a: &[Lit], b: &[Lit]) -> Result<Vec<Lit>, CircuitFault>
        ensures { Encodes (λ v. lits_of v.items) self.old
            (remainder (lits_of a.now) (lits_of b.now)) result self.new }
    {
        let (_quotient, rest) = self.divide(a, b)?;
        Ok(rest)
    }

    /// The circuit of an operator at the bits of its arguments.
    pub fn operator(&mut self, op: Op, args: &[&[Lit]]) -> Result<Vec<Lit>, CircuitFault>
        requires { FitsRank op (map (λ v. lits_of v.now) args.now) }
        ensures { Encodes (λ v. lits_of v.items) self.old
            (op_circuit op (map (λ v. lits_of v.now) args.now)) result self.new }
    {
        let alloc = self.alloc;
        match args {
            [a] => self.unary(op, a),
            [a, b] => self.binary(op, a, b),
            [c, a, b] => match op {
                Op::Ite => self.choice(c, a, b),
                _ => self.without_gates(Vec::new(alloc)),
            },
            [] => self.without_gates(Vec::new(alloc)),
            [_, _, _, _, ..] => self.without_gates(Vec::new(alloc)),
        }
    }

    // A choice by one bit.
    fn choice(&mut self, c: &[Lit], a: &[Lit], b: &[Lit]) -> Result<Vec<Lit>, CircuitFault>
        ensures { Encodes (λ v. lits_of v.items) self.old
            (choice_circuit (lits_of c.now) (lits_of a.now) (lits_of b.now)) result self.new }
    {
        if c.len() != 1 {
            return Ok(Vec::new(self.alloc));
        }
        self.select(c[0], a, b)
    }

    // The circuit of an operator of one argument.
    pub(crate) fn unary(&mut self, op: Op, a: &[Lit]) -> Result<Vec<Lit>, CircuitFault>
        requires { CountsBits op (length a.now) }
        ensures { Encodes (λ v. lits_of v.items) self.old
            (unary_circuit op (lits_of a.now)) result self.new }
    {
        let alloc = self.alloc;
        match op {
            Op::BvNeg => self.negate(a),
            Op::BvNego => {
                let least = least_signed(alloc, a.len())?;
                self.tested(Predicate::Equal, a, &least, false)
            }
            _ => {
                let bits = moved_bits(alloc, op, a)?;
                self.without_gates(bits)
            }
        }
    }

    // The circuit of an operator of two arguments.
    pub(crate) fn binary(&mut self, op: Op, a: &[Lit], b: &[Lit]) -> Result<Vec<Lit>, CircuitFault>
        ensures { Encodes (λ v. lits_of v.items) self.old
            (binary_circuit op (lits_of a.now) (lits_of b.now)) result self.new }
    {
        let alloc = self.alloc;
        match op {
            Op::And | Op::BvAnd => self.bitwise(&Bitwise::And, a, b, false),
            Op::Or | Op::BvOr => self.bitwise(&Bitwise::Or, a, b, false),
            Op::Xor | Op::BvXor => self.bitwise(&Bitwise::Xor, a, b, false),
            Op::BvNand => self.bitwise(&Bitwise::And, a, b, true),
            Op::BvNor => self.bitwise(&Bitwise::Or, a, b, true),
            Op::BvXnor => self.bitwise(&Bitwise::Xor, a, b, true),
            Op::Implies => {
                let not = negated_each(alloc, a)?;
                self.each(&Bitwise::Or, &not, b)
            }
            Op::BvAdd => self.sum(a, b, no()),
            Op::BvSub => self.difference(a, b),
            Op::BvMul => self.multiply(a, b),
            Op::BvUdiv => self.quotient(a, b),
            Op::BvUrem => self.remainder(a, b),
            Op::BvSdiv => self.signed_quotient(a, b),
            Op::BvSrem => self.signed_remainder(a, b),
            Op::BvSmod => self.signed_modulus(a, b),
            Op::BvShl => self.shift(true, no(), a, b),
            Op::BvLshr => self.shift(false, no(), a, b),
            Op::BvAshr => self.shift(false, top(a), a, b),
            Op::Concat => {
                let bits = joined(alloc, b, a)?;
                self.without_gates(bits)
            }
            Op::Not
            | Op::Ite
            | Op::BvNot
            | Op::BvNeg
            | Op::Extract(_, _)
            | Op::Repeat(_)
            | Op::ZeroExtend(_)
            | Op::SignExtend(_)
            | Op::RotateLeft(_)
            | Op::RotateRight(_)
            | Op::BvNego => self.without_gates(Vec::new(alloc)),
            _ => self.predicate(op, a, b),
        }
    }

    // That of an operator that asks something of two words.
    fn predicate(&mut self, op: Op, a: &[Lit], b: &[Lit]) -> Result<Vec<Lit>, CircuitFault>
        requires { IsPredicate op }
        ensures { Encodes (λ v. lits_of v.items) self.old
            (binary_circuit op (lits_of a.now) (lits_of b.now)) result self.new }
    {
        match op {
            Op::Equal | Op::BvComp => self.tested(Predicate::Equal, a, b, false),
            Op::BvUlt | Op::BvUsubo => self.tested(Predicate::Less, a, b, false),
            Op::BvUle => self.tested(Predicate::Less, b, a, true),
            Op::BvUgt => self.tested(Predicate::Less, b, a, false),
            Op::BvUge => self.tested(Predicate::Less, a, b, true),
            Op::BvSlt => self.tested(Predicate::SignedLess, a, b, false),
            Op::BvSle => self.tested(Predicate::SignedLess, b, a, true),
            Op::BvSgt => self.tested(Predicate::SignedLess, b, a, false),
            Op::BvSge => self.tested(Predicate::SignedLess, a, b, true),
            Op::BvUaddo => self.tested(Predicate::SumOverflows, a, b, false),
            Op::BvSaddo => self.tested(Predicate::SignedSumOverflows, a, b, false),
            Op::BvUmulo => self.tested(Predicate::ProductOverflows, a, b, false),
            Op::BvSmulo => self.tested(Predicate::SignedProductOverflows, a, b, false),
            Op::BvSsubo => self.tested(Predicate::SignedDifferenceOverflows, a, b, false),
            Op::BvSdivo => self.tested(Predicate::SignedQuotientOverflows, a, b, false),
            _ => unreachable!(),
        }
    }
}
