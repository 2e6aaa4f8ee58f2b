//! Whether sums, differences and products overflow.

ghost use Rattle.std.specs.Prelude.{MatchResult};
ghost use Rattle.qv_words.specs.OpCircuit.{sum_overflow, signed_sum_overflow, product_overflow};
ghost use Rattle.qv_words.specs.OpCircuit.{signed_product_overflow, signed_difference_overflow};
ghost use Rattle.qv_words.specs.OpCircuit.{signed_quotient_overflow};
ghost use Rattle.qv_circuits.specs.Adding.{lit_of, lits_of};
ghost use Rattle.qv_circuits.specs.Encoding.{Encodes};

use crate::bitwise::Bitwise;
use crate::encoder::Encoder;
use crate::faults::CircuitFault;
use crate::words::{behind, extended, front, least_signed, no, repeated, top, yes};
use qv_cnf::Lit;

impl Encoder {
    pub(crate) fn sum_overflows(&mut self, a: &[Lit], b: &[Lit]) -> Result<Lit, CircuitFault>
        ensures { Encodes lit_of self.old
            (sum_overflow (lits_of a.now) (lits_of b.now)) result self.new }
    {
        let (_sum, over) = self.add(a, b, no())?;
        Ok(over)
    }

    // The sign of the sum differs from that of both numbers.
    pub(crate) fn signed_sum_overflows(&mut self, a: &[Lit], b: &[Lit]) -> Result<Lit, CircuitFault>
        ensures { Encodes lit_of self.old
            (signed_sum_overflow (lits_of a.now) (lits_of b.now)) result self.new }
    {
        let sum = self.sum(a, b, no())?;
        let x = self.xor(top(a), top(&sum))?;
        let y = self.xor(top(b), top(&sum))?;
        self.and(x, y)
    }

    // A high bit of the product of twice the width is true.
    pub(crate) fn product_overflows(&mut self, a: &[Lit], b: &[Lit]) -> Result<Lit, CircuitFault>
        ensures { Encodes lit_of self.old
            (product_overflow (lits_of a.now) (lits_of b.now)) result self.new }
    {
        let alloc = self.alloc;
        let wide = extended(alloc, a, no(), a.len())?;
        let other = extended(alloc, b, no(), b.len())?;
        let product = self.multiply(&wide, &other)?;
        self.any(behind(&product, a.len()))
    }

    // A high bit of the product of twice the width isn't that of the sign.
    pub(crate) fn signed_product_overflows(
        &mut self,
        a: &[Lit],
        b: &[Lit],
    ) -> Result<Lit, CircuitFault>
        ensures { Encodes lit_of self.old
            (signed_product_overflow (lits_of a.now) (lits_of b.now)) result self.new }
    {
        let alloc = self.alloc;
        let wide = extended(alloc, a, top(a), a.len())?;
        let other = extended(alloc, b, top(b), b.len())?;
        let product = self.multiply(&wide, &other)?;
        let signs = repeated(alloc, top(front(&product, a.len())), a.len())?;
        let differences = self.each(&Bitwise::Xor, behind(&product, a.len()), &signs)?;
        self.any(&differences)
    }

    // The signs of the numbers differ, and that of the difference isn't the first's.
    pub(crate) fn signed_difference_overflows(
        &mut self,
        a: &[Lit],
        b: &[Lit],
    ) -> Result<Lit, CircuitFault>
        ensures { Encodes lit_of self.old
            (signed_difference_overflow (lits_of a.now) (lits_of b.now)) result self.new }
    {
        let (difference, _over) = self.subtract(a, b)?;
        let x = self.xor(top(a), top(b))?;
        let y = self.xor(top(a), top(&difference))?;
        self.and(x, y)
    }

    // The least signed number divided by minus one.
    pub(crate) fn signed_quotient_overflows(
        &mut self,
        a: &[Lit],
        b: &[Lit],
    ) -> Result<Lit, CircuitFault>
        ensures { Encodes lit_of self.old
            (signed_quotient_overflow (lits_of a.now) (lits_of b.now)) result self.new }
    {
        let alloc = self.alloc;
        let least = least_signed(alloc, a.len())?;
        let is_least = self.equal(a, &least)?;
        let ones = repeated(alloc, yes(), b.len())?;
        let is_minus_one = self.equal(b, &ones)?;
        self.and(is_least, is_minus_one)
    }
}
