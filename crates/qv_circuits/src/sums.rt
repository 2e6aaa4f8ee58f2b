//! Sums, differences and comparisons.

ghost use Rattle.std.specs.Prelude.{MatchResult};
ghost use Rattle.qv_words.specs.Routine.{add, sum_of, neg_bits, sub, carry, ult, slt};
ghost use Rattle.qv_words.specs.Routine.{conjunction_of, disjunction_of, equal, sel};
ghost use Rattle.qv_circuits.specs.Adding.{lit_of, lits_of};
ghost use Rattle.qv_circuits.specs.Encoding.{Encodes};

use crate::bitwise::Bitwise;
use crate::encoder::Encoder;
use crate::faults::CircuitFault;
use crate::words::{negated_each, no, repeated, turned, yes};
use qv_cnf::Lit;

impl Encoder {
    // The sum with a carry, and the last carry.
    pub(crate) fn add(
        &mut self,
        a: &[Lit],
        b: &[Lit],
        carry: Lit,
    ) -> Result<(Vec<Lit>, Lit), CircuitFault>
        ensures { Encodes (λ r. (lits_of r.0.items, lit_of r.1)) self.old
            (add (lits_of a.now) (lits_of b.now) (lit_of carry)) result self.new }
    {
        let count = a.len().min(b.len());
        let mut sums = Vec::with_capacity(self.alloc, count)?;
        let mut over = carry;
        'places: for i in 0..count {
            let (sum, next) = self.full_adder(a[i], b[i], over)?;
            sums.push(sum)?;
            over = next;
        }
        Ok((sums, over))
    }

    // The sum with a carry.
    pub(crate) fn sum(&mut self, a: &[Lit], b: &[Lit], carry: Lit) -> Result<Vec<Lit>, CircuitFault>
        ensures { Encodes (λ v. lits_of v.items) self.old
            (sum_of (lits_of a.now) (lits_of b.now) (lit_of carry)) result self.new }
    {
        let (sums, _over) = self.add(a, b, carry)?;
        Ok(sums)
    }

    // The two's complement.
    pub(crate) fn negate(&mut self, a: &[Lit]) -> Result<Vec<Lit>, CircuitFault>
        ensures { Encodes (λ v. lits_of v.items) self.old (neg_bits (lits_of a.now))
            result self.new }
    {
        let alloc = self.alloc;
        let flipped = negated_each(alloc, a)?;
        let zeros = repeated(alloc, no(), a.len())?;
        self.sum(&flipped, &zeros, yes())
    }

    // The difference, and its last carry.
    pub(crate) fn subtract(&mut self, a: &[Lit], b: &[Lit]) -> Result<(Vec<Lit>, Lit), CircuitFault>
        ensures { Encodes (λ r. (lits_of r.0.items, lit_of r.1)) self.old
            (sub (lits_of a.now) (lits_of b.now)) result self.new }
    {
        let flipped = negated_each(self.alloc, b)?;
        self.add(a, &flipped, yes())
    }

    // The last carry of a difference, which begins with this one.
    fn carry(&mut self, a: &[Lit], b: &[Lit], first: Lit) -> Result<Lit, CircuitFault>
        ensures { Encodes lit_of self.old
            (carry (lits_of a.now) (lits_of b.now) (lit_of first)) result self.new }
    {
        let count = a.len().min(b.len());
        let mut over = first;
        'places: for i in 0..count {
            over = self.maj(a[i], b[i].negated(), over)?;
        }
        Ok(over)
    }

    // Whether a number is less than another.
    pub(crate) fn less(&mut self, a: &[Lit], b: &[Lit]) -> Result<Lit, CircuitFault>
        ensures { Encodes lit_of self.old (ult (lits_of a.now) (lits_of b.now)) result self.new }
    {
        let at_least = self.carry(a, b, yes())?;
        Ok(at_least.negated())
    }

    // The same of signed numbers.
    pub(crate) fn signed_less(&mut self, a: &[Lit], b: &[Lit]) -> Result<Lit, CircuitFault>
        ensures { Encodes lit_of self.old (slt (lits_of a.now) (lits_of b.now)) result self.new }
    {
        let alloc = self.alloc;
        let a = turned(alloc, a)?;
        let b = turned(alloc, b)?;
        self.less(&a, &b)
    }

    // Whether all literals are true.
    fn all(&mut self, lits: &[Lit]) -> Result<Lit, CircuitFault>
        ensures { Encodes lit_of self.old (conjunction_of (lits_of lits.now)) result self.new }
    {
        match lits {
            [] => Ok(yes()),
            [first, rest @ ..] => self.fold(&Bitwise::And, *first, rest),
        }
    }

    // Whether some literal is true.
    pub(crate) fn any(&mut self, lits: &[Lit]) -> Result<Lit, CircuitFault>
        ensures { Encodes lit_of self.old (disjunction_of (lits_of lits.now)) result self.new }
    {
        match lits {
            [] => Ok(no()),
            [first, rest @ ..] => self.fold(&Bitwise::Or, *first, rest),
        }
    }

    // Whether two words are equal.
    pub(crate) fn equal(&mut self, a: &[Lit], b: &[Lit]) -> Result<Lit, CircuitFault>
        ensures { Encodes lit_of self.old (equal (lits_of a.now) (lits_of b.now)) result self.new }
    {
        let differences = self.each(&Bitwise::Xor, a, b)?;
        let same = negated_each(self.alloc, &differences)?;
        self.all(&same)
    }

    // The first word where the condition is true, else the second.
    pub(crate) fn select(
        &mut self,
        condition: Lit,
        a: &[Lit],
        b: &[Lit],
    ) -> Result<Vec<Lit>, CircuitFault>
        ensures { Encodes (λ v. lits_of v.items) self.old
            (sel (lit_of condition) (lits_of a.now) (lits_of b.now)) result self.new }
    {
        self.each(&Bitwise::Choose(condition), a, b)
    }
}
