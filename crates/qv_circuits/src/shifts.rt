//! Shifts.

ghost use Rattle.std.specs.Prelude.{◌≡◌, IfOk, MatchResult};
ghost use Rattle.qv_words.specs.Routine.{moved, stages, stage_count, shift};
ghost use Rattle.qv_circuits.specs.Adding.{lit_of, lits_of};
ghost use Rattle.qv_circuits.specs.Encoding.{Encodes};
ghost use Rattle.qv_circuits.specs.Steps.{stage};

use crate::encoder::Encoder;
use crate::faults::CircuitFault;
use crate::words::{behind, front, joined, repeated};
use qv_cnf::Lit;
use std::alloc::{AllocError, Global};

// The bits moved by so many places, with the fill for those from outside.
fn moved(
    alloc: Global,
    left: bool,
    places: usize,
    fill: Lit,
    bits: &[Lit],
) -> Result<Vec<Lit>, AllocError>
    ensures { IfOk result (λ v.
        lits_of v.items ≡ moved left places (lit_of fill) (lits_of bits.now)) }
{
    let by = places.min(bits.len());
    let outside = repeated(alloc, fill, by)?;
    if left {
        joined(alloc, &outside, front(bits, bits.len() - by))
    } else {
        joined(alloc, behind(bits, by), &outside)
    }
}

/// How many bits of the amount matter by their place: the least k with 2^k at least the width.
pub fn stage_count(width: usize) -> usize
    ensures { result ≡ stage_count width }
{
    let mut count = 0;
    let mut places: u128 = 1;
    'stages: while places < width as u128 {
        places *= 2;
        count += 1;
    }
    count
}

impl Encoder {
    // One stage for each bit of the amount, each of which moves twice as far as that before.
    fn stages(
        &mut self,
        left: bool,
        fill: Lit,
        amount: &[Lit],
        bits: &[Lit],
    ) -> Result<Vec<Lit>, CircuitFault>
        ensures { Encodes (λ v. lits_of v.items) self.old
            (stages left (lit_of fill) 1 (lits_of amount.now) (lits_of bits.now)) result self.new }
    {
        let alloc = self.alloc;
        let mut present = joined(alloc, bits, &[])?;
        let mut places = 1usize;
        'stages: for bit in amount {
            present = self.stage(left, fill, places, *bit, &present)?;
            places = places.saturating_mul(2);
        }
        Ok(present)
    }

    // The bits, moved where the bit of the amount is true.
    fn stage(
        &mut self,
        left: bool,
        fill: Lit,
        places: usize,
        bit: Lit,
        bits: &[Lit],
    ) -> Result<Vec<Lit>, CircuitFault>
        ensures { Encodes (λ v. lits_of v.items) self.old
            (stage left (lit_of fill) places (lit_of bit) (lits_of bits.now)) result self.new }
    {
        let there = moved(self.alloc, left, places, fill, bits)?;
        self.select(bit, &there, bits)
    }

    // A shift: the stages, and the fill everywhere where a higher bit of the amount is true.
    pub(crate) fn shift(
        &mut self,
        left: bool,
        fill: Lit,
        a: &[Lit],
        b: &[Lit],
    ) -> Result<Vec<Lit>, CircuitFault>
        ensures { Encodes (λ v. lits_of v.items) self.old
            (shift left (lit_of fill) (lits_of a.now) (lits_of b.now)) result self.new }
    {
        let alloc = self.alloc;
        let count = stage_count(a.len());
        let bits = self.stages(left, fill, front(b, count), a)?;
        let far = self.any(behind(b, count))?;
        let fills = repeated(alloc, fill, a.len())?;
        self.select(far, &fills, &bits)
    }
}
