//! Gates bit by bit.

ghost use Rattle.std.specs.Prelude.{MatchResult};
ghost use Rattle.qv_words.specs.Routine.{each};
ghost use Rattle.qv_circuits.specs.Adding.{lit_of, lits_of};
ghost use Rattle.qv_circuits.specs.Bitwise.{gate_of, folded};
ghost use Rattle.qv_circuits.specs.Encoding.{Encodes};

use crate::encoder::Encoder;
use crate::faults::CircuitFault;
use qv_cnf::Lit;

// What a gate makes of two literals.
#[derive(Drop)]
pub(crate) enum Bitwise {
    And,
    Or,
    Xor,
    // The first where this literal is true, else the second.
    Choose(Lit),
}

impl Encoder {
    pub(crate) fn gate(&mut self, gate: &Bitwise, a: Lit, b: Lit) -> Result<Lit, CircuitFault>
        ensures { Encodes lit_of self.old (gate_of gate.now (lit_of a) (lit_of b)) result self.new }
    {
        match gate {
            Bitwise::And => self.and(a, b),
            Bitwise::Or => self.or(a, b),
            Bitwise::Xor => self.xor(a, b),
            Bitwise::Choose(c) => self.mux(*c, a, b),
        }
    }

    // The gate at each place of two lists, as far as both go.
    pub(crate) fn each(
        &mut self,
        gate: &Bitwise,
        a: &[Lit],
        b: &[Lit],
    ) -> Result<Vec<Lit>, CircuitFault>
        ensures { Encodes (λ v. lits_of v.items) self.old
            (each (gate_of gate.now) (lits_of a.now) (lits_of b.now)) result self.new }
    {
        let count = a.len().min(b.len());
        let mut bits = Vec::with_capacity(self.alloc, count)?;
        'places: for i in 0..count {
            let bit = self.gate(gate, a[i], b[i])?;
            bits.push(bit)?;
        }
        Ok(bits)
    }

    // The gate of the first literal and each of the others in turn.
    pub(crate) fn fold(
        &mut self,
        gate: &Bitwise,
        first: Lit,
        rest: &[Lit],
    ) -> Result<Lit, CircuitFault>
        ensures { Encodes lit_of self.old
            (folded (gate_of gate.now) (lit_of first) (lits_of rest.now)) result self.new }
    {
        let mut lit = first;
        'literals: for next in rest {
            lit = self.gate(gate, lit, *next)?;
        }
        Ok(lit)
    }
}
