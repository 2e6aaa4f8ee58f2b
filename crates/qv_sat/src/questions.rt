//! Questions that a long search asks on its way: whether literals that may be equal are.

ghost use Rattle.std.specs.Prelude.{◌≡◌, ◌≤◌, ◌^◌, None, IfSome};
ghost use Rattle.qv_sat.specs.Deciding.{IsWithin};
ghost use Rattle.qv_watch.specs.Entries.{value_of};

use qv_cnf::Lit;
use qv_watch::Trail;
use std::alloc::Global;

// Behind how many conflicts of a core's life they are asked, and how many conflicts one may take.
const FIRST: u64 = 2_500;

const MOST: u64 = 20;

// Where so many more questions were left than answered, no others are asked.
const LEFT: u32 = 20;

// Pairs of literals, and the question of them that is asked now.
#[derive(Drop)]
pub(crate) struct Questions {
    // Each two literals, and behind them others that are decided next.
    pairs: Vec<Vec<Lit>>,
    // Two questions a pair: whether the first may be true and the second false, and the other way
    // round.
    place: usize,
    // At how many conflicts the question was begun, or nothing before the first one.
    begun: Option<u64>,
    is_answered: bool,
    // How many more were left than answered.
    left: u32,
}

impl Questions {
    pub(crate) fn new(alloc: Global) -> Questions {
        Questions {
            pairs: Vec::new(alloc),
            place: 0,
            begun: None,
            is_answered: false,
            left: 0,
        }
    }

    // From now on these pairs are asked about, and no others.
    pub(crate) fn suggest(&mut self, pairs: Vec<Vec<Lit>>) {
        self.pairs = pairs;
        self.place = 0;
        self.begun = None;
        self.is_answered = false;
        self.left = 0;
    }

    // Whether another question comes now.
    pub(crate) fn is_due(&self, conflicts: u64) -> bool {
        if self.left > LEFT || self.place / 2 >= self.pairs.len() {
            return false;
        }
        match self.begun {
            Some(begun) => self.is_answered || conflicts.saturating_sub(begun) >= MOST,
            None => conflicts >= FIRST,
        }
    }

    // Goes to the next question where that is due. The answer is whether it was.
    pub(crate) fn go_on(&mut self, conflicts: u64) -> bool {
        if !self.is_due(conflicts) {
            return false;
        }
        if self.begun.is_some() {
            self.place = self.place.saturating_add(1);
            self.left = if self.is_answered {
                self.left.saturating_sub(1)
            } else {
                self.left.saturating_add(1)
            };
        }
        self.begun = Some(conflicts);
        self.is_answered = false;
        true
    }

    // Which pair the question is of, if there is one and it's open.
    fn asked(&self) -> Option<&[Lit]> {
        if self.begun.is_none() || self.is_answered || self.left > LEFT {
            return None;
        }
        Some(self.pairs.get(self.place / 2)?)
    }

    // A literal of the pair as the question says it is: the first is true and the second false, or the
    // other way round.
    fn said(&self, place: usize, lit: Lit) -> Lit
        ensures { result.variable ≡ lit.variable }
    {
        if place < 2 && place % 2 != self.place % 2 {
            lit.negated()
        } else {
            lit
        }
    }

    // The next literal to decide so that the question is asked, of the variables up to this one. Where
    // one of its literals is false it is answered.
    pub(crate) fn next(&mut self, trail: &Trail, variables: u32) -> Option<Lit>
        ensures within { IfSome result (IsWithin variables) }
        ensures free { IfSome result (λ lit. value_of trail.now.entries lit ≡ None) }
    {
        let lits = self.asked()?;
        for (place, lit) in lits.iter().enumerate() {
            let lit = self.said(place, *lit);
            match trail.value(lit) {
                None if lit.variable() <= variables => return Some(lit),
                Some(false) if place < 2 => {
                    self.is_answered = true;
                    return None;
                }
                _ => {}
            }
        }
        None
    }
}
