//! A core that is asked again and again.

ghost use Rattle.std.specs.Prelude.{◌≡◌, ◌+◌, ◌<◌, ◌^◌};

use crate::judging::{Original, judged};
use crate::tally::Tally;
use qv_cnf::{Lit, Step};
use qv_sat::{Core, Outcome, SatFault};
use std::alloc::Global;

// No case comes near this id.
const FAR: u64 = 1 << 60;

/// Enough conflicts for each case that isn't to be spent.
pub(crate) const ENOUGH: u64 = 1000;

/// A core, the clauses that it was given, and how many conflicts were charged for it.
#[derive(Drop)]
pub(crate) struct Session {
    alloc: Global,
    core: Core,
    originals: Vec<Original>,
    next: u64,
    charged: u64,
    ghost above: { core.top < next },
}

/// What a core answered, and how many conflicts it was charged.
#[derive(Drop)]
pub(crate) struct Asked {
    pub(crate) answer: Result<Outcome, SatFault>,
    pub(crate) count: u64,
    /// The answer in a word, or what is wrong with it.
    pub(crate) word: &'static str,
}

impl Session {
    pub(crate) fn new(alloc: Global) -> Session {
        Session {
            alloc,
            core: Core::new(alloc),
            originals: Vec::new(alloc),
            next: 1,
            charged: 0,
        }
    }

    pub(crate) fn alloc(&self) -> Global {
        self.alloc
    }

    /// What a new core answers that has the same clauses, and a further clause for each of these
    /// literals: a word, and how many conflicts it was charged.
    pub(crate) fn ask_again(&self, units: &[Lit], limit: u64) -> Option<(&'static str, u64)> {
        let mut session = Session::new(self.alloc);
        session.ask_with(&self.originals, units, limit)
    }

    fn ask_with(
        &mut self,
        originals: &[Original],
        units: &[Lit],
        limit: u64,
    ) -> Option<(&'static str, u64)> {
        if self.add_originals(originals) && self.add_units(units) {
            self.ask_plainly(limit)
        } else {
            None
        }
    }

    fn add_originals(&mut self, originals: &[Original]) -> bool {
        for original in originals {
            if !self.add_copy(&original.lits) {
                return false;
            }
        }
        true
    }

    fn add_units(&mut self, units: &[Lit]) -> bool {
        for unit in units {
            if !self.add_copy(&[*unit]) {
                return false;
            }
        }
        true
    }

    fn add_copy(&mut self, lits: &[Lit]) -> bool {
        match Vec::from_slice(self.alloc, lits) {
            Ok(lits) => self.add(lits),
            Err(_) => false,
        }
    }

    /// Asks without assumptions: the answer in a word, and how many conflicts were charged.
    pub(crate) fn ask_plainly(&mut self, limit: u64) -> Option<(&'static str, u64)> {
        let asked = self.ask(&[], limit)?;
        Some((asked.word, asked.count))
    }

    /// Adds a clause.
    pub(crate) fn add(&mut self, lits: Vec<Lit>) -> bool {
        let id = self.next;
        if lits.is_empty() || id >= FAR || self.core.add(id, &lits).is_err() {
            return false;
        }
        self.next += 1;
        self.originals.push(Original { id, lits }).is_ok()
    }

    /// Adds a clause that is left aside under the variable of its last literal.
    pub(crate) fn set_aside(&mut self, lits: Vec<Lit>) -> bool {
        let id = self.next;
        let guard = match lits.last() {
            Some(lit) if id < FAR => lit.variable(),
            _ => return false,
        };
        if self.core.set_aside(id, &lits, guard).is_err() {
            return false;
        }
        self.next += 1;
        self.originals.push(Original { id, lits }).is_ok()
    }

    /// Leaves out the ids below this one.
    pub(crate) fn go_on_at(&mut self, id: u64) -> bool {
        let may = id >= self.next;
        if may {
            self.next = id;
        }
        may
    }

    /// How many clauses were given.
    pub(crate) fn given(&self) -> usize {
        self.originals.len()
    }

    /// Asks for values under the assumptions, and judges the answer.
    pub(crate) fn ask(&mut self, assumptions: &[Lit], limit: u64) -> Option<Asked> {
        if self.next >= FAR || limit >= FAR {
            return None;
        }
        let mut tally = Tally::new(limit);
        let (answer, count) = ask_core(&mut self.core, assumptions, &mut tally);
        self.next += count;
        self.charged = self.charged.saturating_add(count);
        let word = self.judge(assumptions, &answer, count == limit);
        Some(Asked {
            answer,
            count,
            word,
        })
    }

    fn judge(
        &self,
        assumptions: &[Lit],
        answer: &Result<Outcome, SatFault>,
        spent: bool,
    ) -> &'static str {
        let steps = self.core.steps();
        if additions(steps) != self.charged {
            return "wrong: steps that weren't charged";
        }
        if matches!(answer, Err(SatFault::Spent)) && !spent {
            return "wrong: spent too early";
        }
        judged(self.alloc, &self.originals, steps, assumptions, answer)
    }
}

// How many of the steps add a clause.
fn additions(steps: &[Step]) -> u64 {
    let mut count = 0u64;
    for step in steps {
        if let Step::Add { .. } = step {
            count = count.saturating_add(1);
        }
    }
    count
}

// Asks a core. Also gives how many conflicts were charged.
fn ask_core(
    core: &mut Core,
    assumptions: &[Lit],
    tally: &mut Tally,
) -> (Result<Outcome, SatFault>, u64)
    requires top { core.old.top < 2 ^ 60 }
    requires limit { tally.old.limit < 2 ^ 60 }
    ensures top { core.new.top ≡ core.old.top + result.1 }
    ensures few { result.1 < 2 ^ 60 }
{
    let before = tally.count();
    let answer = core.solve(assumptions, tally);
    let after = tally.count();
    let charged = after - before;
    (answer, charged)
}
