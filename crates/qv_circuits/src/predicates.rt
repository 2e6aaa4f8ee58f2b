//! Circuits of one bit over two words.

ghost use Rattle.std.specs.Prelude.{◌≡◌, if◌then◌else◌, MatchResult};
ghost use Rattle.qv_words.specs.Gate.{neg};
ghost use Rattle.qv_circuits.specs.Adding.{lit_of, lits_of};
ghost use Rattle.qv_circuits.specs.Encoding.{Encodes};
ghost use Rattle.qv_circuits.specs.Kinds.{test_circuit, tested};

use crate::encoder::Encoder;
use crate::faults::CircuitFault;
use qv_cnf::Lit;

// What is asked of two words.
#[derive(Clone, Copy)]
pub(crate) enum Predicate {
    Equal,
    Less,
    SignedLess,
    SumOverflows,
    SignedSumOverflows,
    ProductOverflows,
    SignedProductOverflows,
    SignedDifferenceOverflows,
    SignedQuotientOverflows,
}

// The literal, negated or not.
fn negated_if(negate: bool, lit: Lit) -> Lit
    ensures { lit_of result ≡ (if negate then neg (lit_of lit) else lit_of lit) }
{
    if negate { lit.negated() } else { lit }
}

impl Encoder {
    fn test(&mut self, test: Predicate, a: &[Lit], b: &[Lit]) -> Result<Lit, CircuitFault>
        ensures { Encodes lit_of self.old
            (test_circuit test (lits_of a.now) (lits_of b.now)) result self.new }
    {
        match test {
            Predicate::Equal => self.equal(a, b),
            Predicate::Less => self.less(a, b),
            Predicate::SignedLess => self.signed_less(a, b),
            Predicate::SumOverflows => self.sum_overflows(a, b),
            Predicate::SignedSumOverflows => self.signed_sum_overflows(a, b),
            Predicate::ProductOverflows => self.product_overflows(a, b),
            Predicate::SignedProductOverflows => self.signed_product_overflows(a, b),
            Predicate::SignedDifferenceOverflows => self.signed_difference_overflows(a, b),
            Predicate::SignedQuotientOverflows => self.signed_quotient_overflows(a, b),
        }
    }

    // The answer as the one bit of a word, negated or not.
    pub(crate) fn tested(
        &mut self,
        test: Predicate,
        a: &[Lit],
        b: &[Lit],
        negate: bool,
    ) -> Result<Vec<Lit>, CircuitFault>
        ensures { Encodes (λ v. lits_of v.items) self.old
            (tested negate (test_circuit test (lits_of a.now) (lits_of b.now))) result self.new }
    {
        let answer = self.test(test, a, b)?;
        let mut bits = Vec::with_capacity(self.alloc, 1)?;
        bits.push(negated_if(negate, answer))?;
        Ok(bits)
    }
}
