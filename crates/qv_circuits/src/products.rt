//! Products.

ghost use Rattle.std.specs.Prelude.{MatchResult};
ghost use Rattle.qv_words.specs.Routine.{rows, mul};
ghost use Rattle.qv_circuits.specs.Adding.{lit_of, lits_of};
ghost use Rattle.qv_circuits.specs.Encoding.{Encodes};
ghost use Rattle.qv_circuits.specs.Steps.{next_row};

use crate::bitwise::Bitwise;
use crate::encoder::Encoder;
use crate::faults::CircuitFault;
use crate::words::{behind, front, no, repeated};
use qv_cnf::Lit;

impl Encoder {
    // The sum of the high bits and the row of one more bit.
    fn next_row(&mut self, a: &[Lit], high: &[Lit], bit: Lit) -> Result<Vec<Lit>, CircuitFault>
        ensures { Encodes (λ v. lits_of v.items) self.old
            (next_row (lits_of a.now) (lits_of high.now) (lit_of bit)) result self.new }
    {
        let copies = repeated(self.alloc, bit, high.len())?;
        let row = self.each(&Bitwise::And, front(a, high.len()), &copies)?;
        self.sum(high, &row, no())
    }

    // The rows of a product: the low bit is done, and the others become the sum with the next row.
    fn rows(&mut self, a: &[Lit], first: Vec<Lit>, bits: &[Lit]) -> Result<Vec<Lit>, CircuitFault>
        ensures { Encodes (λ v. lits_of v.items) self.old
            (rows (lits_of a.now) (lits_of first.items) (lits_of bits.now)) result self.new }
    {
        let alloc = self.alloc;
        let mut done = Vec::with_capacity(alloc, a.len())?;
        let mut sum = first;
        'rows: for bit in bits {
            let present = sum.as_slice();
            if present.is_empty() {
                return Ok(done);
            }
            let next = self.next_row(a, behind(present, 1), *bit)?;
            done.push(present[0])?;
            sum = next;
        }
        done.extend_from_slice(&sum)?;
        Ok(done)
    }

    // The product.
    pub(crate) fn multiply(&mut self, a: &[Lit], b: &[Lit]) -> Result<Vec<Lit>, CircuitFault>
        ensures { Encodes (λ v. lits_of v.items) self.old
            (mul (lits_of a.now) (lits_of b.now)) result self.new }
    {
        let alloc = self.alloc;
        if b.is_empty() {
            return Ok(Vec::new(alloc));
        }
        let copies = repeated(alloc, b[0], a.len())?;
        let first = self.each(&Bitwise::And, a, &copies)?;
        self.rows(a, first, behind(b, 1))
    }
}
