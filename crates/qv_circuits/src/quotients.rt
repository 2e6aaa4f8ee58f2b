//! Quotients and remainders.

ghost use Rattle.std.specs.Prelude.{MatchResult, replicate};
ghost use Rattle.qv_words.specs.Gate.{no};
ghost use Rattle.qv_words.specs.Routine.{div, abs, equal};
ghost use Rattle.qv_words.specs.OpCircuit.{signed_quotient, remainder_of, modulus};
ghost use Rattle.qv_circuits.specs.Adding.{lit_of, lits_of};
ghost use Rattle.qv_circuits.specs.Encoding.{Encodes};
ghost use Rattle.qv_circuits.specs.Steps.{next_bit, signed, quotient_of, rest_of, modulus_of};
ghost use Rattle.qv_circuits.specs.Steps.{modulus_from, turned_modulus, plus_where};

use crate::bitwise::Bitwise;
use crate::encoder::Encoder;
use crate::faults::CircuitFault;
use crate::words::{extended, front, joined, no, repeated, reversed, top};
use qv_cnf::Lit;

impl Encoder {
    // One step of a long division: the next bit of the quotient, and the remainder so far.
    fn next_bit(
        &mut self,
        bit: Lit,
        rest: &[Lit],
        divisor: &[Lit],
    ) -> Result<(Lit, Vec<Lit>), CircuitFault>
        ensures { Encodes (λ r. (lit_of r.0, lits_of r.1.items)) self.old
            (next_bit (lits_of divisor.now) (lit_of bit) (lits_of rest.now)) result self.new }
    {
        let alloc = self.alloc;
        let dividend = joined(alloc, &[bit], rest)?;
        let wide = extended(alloc, divisor, no(), 1)?;
        let (difference, fits) = self.subtract(&dividend, &wide)?;
        let width = divisor.len();
        let next = self.select(fits, front(&difference, width), front(&dividend, width))?;
        Ok((fits, next))
    }

    // The quotient and the remainder, by long division from the top bit down.
    pub(crate) fn divide(
        &mut self,
        a: &[Lit],
        b: &[Lit],
    ) -> Result<(Vec<Lit>, Vec<Lit>), CircuitFault>
        ensures { Encodes (λ r. (lits_of r.0.items, lits_of r.1.items)) self.old
            (div (lits_of a.now) (lits_of b.now)) result self.new }
    {
        let alloc = self.alloc;
        let bits = reversed(alloc, a)?;
        let mut quotient = Vec::with_capacity(alloc, a.len())?;
        let mut rest = repeated(alloc, no(), a.len())?;
        'bits: for bit in &bits {
            let (fits, next) = self.next_bit(*bit, &rest, b)?;
            quotient.push(fits)?;
            rest = next;
        }
        let quotient = reversed(alloc, &quotient)?;
        Ok((quotient, rest))
    }

    // The magnitude of a signed number.
    fn magnitude(&mut self, a: &[Lit]) -> Result<Vec<Lit>, CircuitFault>
        ensures { Encodes (λ v. lits_of v.items) self.old (abs (lits_of a.now)) result self.new }
    {
        let negative = self.negate(a)?;
        self.select(top(a), &negative, a)
    }

    // The number, or its negation where the sign is true.
    fn signed(&mut self, sign: Lit, a: &[Lit]) -> Result<Vec<Lit>, CircuitFault>
        ensures { Encodes (λ v. lits_of v.items) self.old
            (signed (lit_of sign) (lits_of a.now)) result self.new }
    {
        let negative = self.negate(a)?;
        self.select(sign, &negative, a)
    }

    // The quotient of signed numbers.
    pub(crate) fn signed_quotient(&mut self, a: &[Lit], b: &[Lit]) -> Result<Vec<Lit>, CircuitFault>
        ensures { Encodes (λ v. lits_of v.items) self.old
            (signed_quotient (lits_of a.now) (lits_of b.now)) result self.new }
    {
        let m = self.magnitude(a)?;
        let n = self.magnitude(b)?;
        self.quotient_of(top(a), top(b), &m, &n)
    }

    // The same, from the signs and the magnitudes.
    fn quotient_of(
        &mut self,
        first: Lit,
        second: Lit,
        m: &[Lit],
        n: &[Lit],
    ) -> Result<Vec<Lit>, CircuitFault>
        ensures { Encodes (λ v. lits_of v.items) self.old
            (quotient_of (lit_of first) (lit_of second) (lits_of m.now) (lits_of n.now)) result
            self.new }
    {
        let (quotient, _rest) = self.divide(m, n)?;
        let differ = self.xor(first, second)?;
        self.signed(differ, &quotient)
    }

    // The remainder with the sign of the first number.
    pub(crate) fn signed_remainder(
        &mut self,
        a: &[Lit],
        b: &[Lit],
    ) -> Result<Vec<Lit>, CircuitFault>
        ensures { Encodes (λ v. lits_of v.items) self.old
            (remainder_of (lits_of a.now) (lits_of b.now)) result self.new }
    {
        let m = self.magnitude(a)?;
        let n = self.magnitude(b)?;
        self.rest_of(top(a), &m, &n)
    }

    // The same, from the sign and the magnitudes.
    fn rest_of(&mut self, sign: Lit, m: &[Lit], n: &[Lit]) -> Result<Vec<Lit>, CircuitFault>
        ensures { Encodes (λ v. lits_of v.items) self.old
            (rest_of (lit_of sign) (lits_of m.now) (lits_of n.now)) result self.new }
    {
        let (_quotient, rest) = self.divide(m, n)?;
        self.signed(sign, &rest)
    }

    // The remainder with the sign of the second number.
    pub(crate) fn signed_modulus(&mut self, a: &[Lit], b: &[Lit]) -> Result<Vec<Lit>, CircuitFault>
        ensures { Encodes (λ v. lits_of v.items) self.old
            (modulus (lits_of a.now) (lits_of b.now)) result self.new }
    {
        let m = self.magnitude(a)?;
        let n = self.magnitude(b)?;
        self.modulus_of(a, b, &m, &n)
    }

    // The same, from the magnitudes too.
    fn modulus_of(
        &mut self,
        a: &[Lit],
        b: &[Lit],
        m: &[Lit],
        n: &[Lit],
    ) -> Result<Vec<Lit>, CircuitFault>
        ensures { Encodes (λ v. lits_of v.items) self.old
            (modulus_of (lits_of a.now) (lits_of b.now) (lits_of m.now) (lits_of n.now)) result
            self.new }
    {
        let (_quotient, rest) = self.divide(m, n)?;
        self.modulus_from(a, b, &rest)
    }

    // The same, from the remainder of the magnitudes.
    fn modulus_from(&mut self, a: &[Lit], b: &[Lit], rest: &[Lit]) -> Result<Vec<Lit>, CircuitFault>
        ensures { Encodes (λ v. lits_of v.items) self.old
            (modulus_from (lits_of a.now) (lits_of b.now) (lits_of rest.now)) result self.new }
    {
        let negative = self.negate(rest)?;
        let signed = self.select(top(a), &negative, rest)?;
        self.turned_modulus(a, b, rest, &signed)
    }

    // The same, from the remainder with the sign of the first number, too.
    fn turned_modulus(
        &mut self,
        a: &[Lit],
        b: &[Lit],
        rest: &[Lit],
        signed: &[Lit],
    ) -> Result<Vec<Lit>, CircuitFault>
        ensures { Encodes (λ v. lits_of v.items) self.old
            (turned_modulus (lits_of a.now) (lits_of b.now) (lits_of rest.now) (lits_of signed.now))
            result self.new }
    {
        let none = self.is_none(a.len(), rest)?;
        let differ = self.xor(top(a), top(b))?;
        let turn = self.and(differ, none.negated())?;
        self.plus_where(turn, signed, b)
    }

    // Whether all bits are false, of a number that is so wide.
    fn is_none(&mut self, width: usize, rest: &[Lit]) -> Result<Lit, CircuitFault>
        ensures { Encodes lit_of self.old
            (equal (lits_of rest.now) (replicate width no)) result self.new }
    {
        let zeros = repeated(self.alloc, no(), width)?;
        self.equal(rest, &zeros)
    }

    // The first number, with the second one added where the condition is true.
    fn plus_where(&mut self, condition: Lit, a: &[Lit], b: &[Lit]) -> Result<Vec<Lit>, CircuitFault>
        ensures { Encodes (λ v. lits_of v.items) self.old
            (plus_where (lit_of condition) (lits_of a.now) (lits_of b.now)) result self.new }
    {
        let turns = repeated(self.alloc, condition, b.len())?;
        let more = self.each(&Bitwise::And, &turns, b)?;
        self.sum(a, &more, no())
    }
}
