//! Gates, written as clauses (Tseitin's encoding).

ghost use Rattle.std.specs.Prelude.{◌≡◌, ◌+◌, ◌*◌, ◌≤◌, ◌<◌, ◌^◌, suc, true, OnOk, IfOk, OnErr};
ghost use Rattle.std.specs.Prelude.{MatchResult};
ghost use Rattle.qv_words.specs.Gate.{and, or, xor, mux, maj};
ghost use Rattle.qv_cnf.specs.Listing.{next_id};
ghost use Rattle.qv_circuits.specs.Adding.{lit_of};
ghost use Rattle.qv_circuits.specs.Encoding.{Encodes, full_adder, lits_of_pair, with_one};
ghost use Rattle.qv_circuits.specs.Encoding.{with_variable};

use crate::faults::CircuitFault;
use qv_cnf::{ClauseList, Lit};
use std::alloc::{AllocError, Global};
use std::marker::Model;

/// A clause list with the next variable and the next id, to which gates are added.
#[derive(Drop)]
pub struct Encoder {
    pub(crate) alloc: Global,
    start: u64,
    id: u64,
    next: u32,
    limit: u32,
    list: ClauseList,
}

impl Model for Encoder {
    ghost use Rattle.std.specs.Prelude.{◌≡◌, ◌+◌, ◌*◌, ◌≤◌, ◌<◌, ◌^◌};
    ghost use Rattle.qv_cnf.specs.Listing.{next_id, cut_at, IsListing};
    ghost use Rattle.qv_circuits.specs.Encoding.{Encoding};

    ghost Value = { Encoding };

    ghost view = { λ a. record {
      next = a.next;
      limit = a.limit;
      id = a.id;
      list = a.list;
      base = cut_at a.start a.list;
    } };

    ghost invariant = { λ a. (next_id a.list.given ≤ a.id)
        × (a.start ≤ a.id)
        × (a.id ≤ 2 ^ 62 + 6 * a.next)
        × (1 ≤ a.next)
        × (a.next ≤ a.limit + 1)
        × (a.limit ≤ 2 ^ 30) };
}

impl Encoder {
    ghost use Rattle.qv_cnf.specs.Listing.{IsListing};

    /// At a list, with the next variable, the greatest that may be taken, and the next id.
    pub fn new(alloc: Global, list: ClauseList, next: u32, limit: u32, id: u64) -> Encoder
        requires listing { IsListing list }
        requires above { next_id list.given ≤ id }
        requires small { id ≤ 2 ^ 62 }
        requires some { 1 ≤ next }
        requires within { next ≤ limit + 1 }
        requires most { limit ≤ 2 ^ 30 }
        ensures { result
            ≡ record { next = next; limit = limit; id = id; list = list; base = list } }
    {
        Encoder {
            alloc,
            start: id,
            id,
            next,
            limit,
            list,
        }
    }

    /// The list, with the next variable and the next id.
    pub fn finish(self) -> (ClauseList, u32, u64)
        ensures list { result.0 ≡ self.list }
        ensures next { result.1 ≡ self.next }
        ensures id { result.2 ≡ self.id }
        ensures within { self.next ≤ self.limit + 1 }
    {
        let Encoder {
            alloc: _,
            start: _,
            id,
            next,
            limit: _,
            list,
        } = self;
        (list, next, id)
    }

    /// The list as it was at the start.
    pub fn undo(self) -> ClauseList
        ensures { result ≡ self.base }
    {
        let Encoder {
            alloc: _,
            start,
            id: _,
            next: _,
            limit: _,
            mut list,
        } = self;
        list.cut(start);
        list
    }

    // Takes the next variable.
    fn variable(&mut self) -> Result<Lit, CircuitFault>
        ensures ok { OnOk result (self.new ≡ with_variable self.old) }
        ensures variable { IfOk result (λ g.
            g ≡ record { variable = self.old.next; positive = true }) }
        ensures ids { OnOk result (self.new.id + 6 ≤ 2 ^ 62 + 6 * self.new.next) }
        ensures err { OnErr result (self.new ≡ self.old) }
        ensures over { OnErr result (self.old.limit < self.old.next) }
    {
        if self.next > self.limit {
            return Err(CircuitFault::TooManyVariables);
        }
        let lit = Lit::new(self.next as i32).unwrap();
        self.next += 1;
        Ok(lit)
    }

    // Adds a clause.
    fn clause(&mut self, lits: &[Lit]) -> Result<(), AllocError>
        requires { self.old.id < 2 ^ 62 + 6 * self.old.next }
        ensures ok { OnOk result (self.new ≡ with_one self.old lits.now) }
        ensures err { OnErr result (self.new ≡ self.old) }
    {
        self.list.add(self.id, lits)?;
        self.id += 1;
        Ok(())
    }

    // The conjunction of two literals.
    pub(crate) fn and(&mut self, a: Lit, b: Lit) -> Result<Lit, CircuitFault>
        ensures { Encodes lit_of self.old (and (lit_of a) (lit_of b)) result self.new }
    {
        let g = self.variable()?;
        self.clause(&[g.negated(), a])?;
        self.clause(&[g.negated(), b])?;
        self.clause(&[g, a.negated(), b.negated()])?;
        Ok(g)
    }

    // Whether two literals differ.
    pub(crate) fn xor(&mut self, a: Lit, b: Lit) -> Result<Lit, CircuitFault>
        ensures { Encodes lit_of self.old (xor (lit_of a) (lit_of b)) result self.new }
    {
        let g = self.variable()?;
        self.clause(&[g.negated(), a, b])?;
        self.clause(&[g.negated(), a.negated(), b.negated()])?;
        self.clause(&[g, a.negated(), b])?;
        self.clause(&[g, a, b.negated()])?;
        Ok(g)
    }

    // The first of two literals where the condition is true, else the second.
    pub(crate) fn mux(&mut self, c: Lit, a: Lit, b: Lit) -> Result<Lit, CircuitFault>
        ensures { Encodes lit_of self.old (mux (lit_of c) (lit_of a) (lit_of b)) result self.new }
    {
        let g = self.variable()?;
        self.clause(&[c.negated(), a.negated(), g])?;
        self.clause(&[c.negated(), a, g.negated()])?;
        self.clause(&[c, b.negated(), g])?;
        self.clause(&[c, b, g.negated()])?;
        Ok(g)
    }

    // Whether at least two of three literals are true.
    pub(crate) fn maj(&mut self, a: Lit, b: Lit, c: Lit) -> Result<Lit, CircuitFault>
        ensures { Encodes lit_of self.old (maj (lit_of a) (lit_of b) (lit_of c)) result self.new }
    {
        let g = self.variable()?;
        self.clause(&[a.negated(), b.negated(), g])?;
        self.clause(&[a.negated(), c.negated(), g])?;
        self.clause(&[b.negated(), c.negated(), g])?;
        self.clause(&[a, b, g.negated()])?;
        self.clause(&[a, c, g.negated()])?;
        self.clause(&[b, c, g.negated()])?;
        Ok(g)
    }

    // Whether one of two literals is true.
    pub(crate) fn or(&mut self, a: Lit, b: Lit) -> Result<Lit, CircuitFault>
        ensures { Encodes lit_of self.old (or (lit_of a) (lit_of b)) result self.new }
    {
        let both = self.and(a.negated(), b.negated())?;
        Ok(both.negated())
    }

    // The sum of three bits, and its carry.
    pub(crate) fn full_adder(&mut self, a: Lit, b: Lit, c: Lit) -> Result<(Lit, Lit), CircuitFault>
        ensures { Encodes lits_of_pair self.old (full_adder (lit_of a) (lit_of b) (lit_of c)) result
            self.new }
    {
        let x = self.xor(a, b)?;
        let sum = self.xor(x, c)?;
        let carry = self.maj(a, b, c)?;
        Ok((sum, carry))
    }
}
