//! Which variable is decided next, and with which sign.

ghost use Rattle.std.specs.Prelude.{◌≡◌, ◌≤◌, ◌^◌, None, true, All, IfSome, IfNone, OnOk, OnErr};
ghost use Rattle.std.specs.Prelude.{length};
ghost use Rattle.qv_sat_order.specs.Ranking.{no_ranking, with_held, with_room};
ghost use Rattle.qv_sat.specs.Choosing.{AllValued, Covers, CoversBut, Releases};
ghost use Rattle.qv_sat.specs.Deciding.{IsWithin};
ghost use Rattle.qv_watch.specs.Entries.{up_to, value_of};
ghost use Rattle.qv_watch.specs.TrailState.{IsTrail};

use super::questions::Questions;
use super::solver::greatest;
use qv_cnf::Lit;
use qv_sat_order::Order;
use qv_watch::Trail;
use std::alloc::{AllocError, Global};

// The variables that may be decided, the most active first.
#[derive(Drop)]
pub(crate) struct Chooser {
    pub(crate) order: Order,
    // The last value of each variable, from 1 on.
    pub(crate) signs: Vec<bool>,
    // Whether a clause of at least two literals has each of them as the greatest: so are the outputs
    // of gates, and inputs aren't.
    outputs: Vec<bool>,
    // Whether the variables are decided in turn, from the least, and not by the order: the first steps
    // of a design that was unrolled before the later ones. Then those up to `passed` have values.
    in_turn: bool,
    passed: u32,
    // Whether each variable isn't decided in turn: it stands in what is left aside.
    late: Vec<bool>,
    // What is decided before all others.
    pub(crate) questions: Questions,
}

impl Chooser {
    pub(crate) fn new(alloc: Global) -> Chooser
        ensures { result.order ≡ no_ranking }
    {
        Chooser {
            order: Order::new(alloc),
            signs: Vec::new(alloc),
            outputs: Vec::new(alloc),
            in_turn: false,
            passed: 0,
            late: Vec::new(alloc),
            questions: Questions::new(alloc),
        }
    }

    // Makes room for the variables from 1 to this one. Those that are new are true at first.
    pub(crate) fn room(&mut self, variables: u32) -> Result<(), AllocError>
        ensures ok { OnOk result (self.new.order ≡ with_room self.old.order variables) }
        ensures err { OnErr result (self.new.order ≡ self.old.order) }
    {
        let width = variables as usize;
        if self.signs.len() < width {
            self.signs.resize(width, true)?;
        }
        self.order.room(variables)
    }

    // Notes the clause's greatest variable as an output.
    pub(crate) fn note(&mut self, lits: &[Lit]) -> Result<(), AllocError>
        ensures { self.new.order ≡ self.old.order }
    {
        let width = greatest(lits) as usize;
        if self.outputs.len() < width {
            self.outputs.resize(width, false)?;
        }
        if lits.len() > 1 && width > 0 {
            self.outputs[width - 1] = true;
        }
        Ok(())
    }

    // From now on the variable isn't decided in turn.
    pub(crate) fn postpone(&mut self, variable: u32) -> Result<(), AllocError>
        ensures { self.new.order ≡ self.old.order }
    {
        let place = variable as usize;
        if self.late.len() <= place {
            self.late.resize(place + 1, false)?;
        }
        self.late[place] = true;
        Ok(())
    }

    // From now on every variable may be.
    pub(crate) fn take_all(&mut self)
        ensures { self.new.order ≡ self.old.order }
    {
        self.late.clear();
        self.passed = 0;
    }

    fn is_late(&self, variable: u32) -> bool {
        matches!(self.late.get(variable as usize), Some(true))
    }

    // Gives all inputs one value as their last, and all outputs one.
    pub(crate) fn aim(&mut self, inputs: bool, outputs: bool)
        ensures { self.new.order ≡ self.old.order }
    {
        'places: for place in 0..self.signs.len() {
            let is_output = place < self.outputs.len() && self.outputs[place];
            self.signs[place] = if is_output { outputs } else { inputs };
        }
    }

    // Gives back the variable of a literal that was true.
    pub(crate) fn release(&mut self, lit: Lit)
        requires { lit.variable ≤ length self.old.order.held }
        ensures held { self.new.order ≡ with_held self.old.order lit.variable true }
        ensures from { 1 ≤ lit.variable }
    {
        let variable = lit.variable();
        let place = variable as usize - 1;
        if place < self.signs.len() {
            self.signs[place] = lit.is_positive();
        }
        self.passed = self.passed.min(variable - 1);
        self.order.insert(variable);
    }

    // Makes the variables more active that a conflict met, and lets those of earlier ones fade.
    pub(crate) fn bump(&mut self, met: &[u32])
        requires { All (λ v. (1 ≤ v) × (v ≤ length self.old.order.held)) met.now }
        ensures { self.new.order.held ≡ self.old.order.held }
    {
        for variable in met {
            self.order.bump(*variable);
        }
        self.order.decay();
    }

    // From now on variables are decided in turn, or by the order. The answer is whether that is new.
    pub(crate) fn turn(&mut self, in_turn: bool) -> bool
        ensures { self.new.order ≡ self.old.order }
    {
        let is_new = self.in_turn != in_turn;
        self.in_turn = in_turn;
        if is_new {
            self.passed = 0;
        }
        is_new
    }

    // Asks the next question where one is due. The answer is whether one was.
    pub(crate) fn ask(&mut self, conflicts: u64) -> bool
        ensures { self.new.order ≡ self.old.order }
    {
        self.questions.go_on(conflicts)
    }

    // What a question asks; or the first variable without a value, with its last sign: the next one in
    // turn, or the most active, which is then no longer held.
    pub(crate) fn next(&mut self, trail: &Trail) -> Option<Lit>
        requires most { length self.old.order.held ≤ 2 ^ 30 }
        requires covers { Covers self.old.order.held trail.now.entries }
        ensures long { length self.new.order.held ≡ length self.old.order.held }
        ensures within { IfSome result (IsWithin (length self.old.order.held)) }
        ensures free { IfSome result (λ lit. value_of trail.now.entries lit ≡ None) }
        ensures but { IfSome result (λ lit.
            CoversBut lit.variable self.new.order.held trail.now.entries) }
        ensures none { IfNone result (AllValued self.new.order.held trail.now.entries) }
    {
        if let Some(lit) = self.next_asked(trail) {
            return Some(lit);
        }
        while let Some(variable) = self.order.pop() {
            let lit = self.signed(variable);
            if trail.value(lit).is_none() {
                return Some(lit);
            }
        }
        None
    }

    // The next literal of a question, or else the next one in turn, if that is how variables are
    // decided now. It stays held.
    fn next_asked(&mut self, trail: &Trail) -> Option<Lit>
        requires { length self.old.order.held ≤ 2 ^ 30 }
        ensures order { self.new.order ≡ self.old.order }
        ensures within { IfSome result (IsWithin (length self.old.order.held)) }
        ensures free { IfSome result (λ lit. value_of trail.now.entries lit ≡ None) }
    {
        let variables = self.order.variables();
        if let Some(lit) = self.questions.next(trail, variables) {
            return Some(lit);
        }
        if self.in_turn {
            self.next_in_turn(trail)
        } else {
            None
        }
    }

    // The least variable without a value behind those that have one, with its last sign. It stays held.
    fn next_in_turn(&mut self, trail: &Trail) -> Option<Lit>
        requires { length self.old.order.held ≤ 2 ^ 30 }
        ensures order { self.new.order ≡ self.old.order }
        ensures within { IfSome result (IsWithin (length self.old.order.held)) }
        ensures free { IfSome result (λ lit. value_of trail.now.entries lit ≡ None) }
    {
        let last = self.order.variables();
        self.passed = self.passed.min(last);
        'up: while self.passed < last {
            self.passed += 1;
            let lit = self.signed(self.passed);
            if trail.value(lit).is_none() && !self.is_late(self.passed) {
                return Some(lit);
            }
        }
        None
    }

    // The variable with its last sign.
    fn signed(&self, variable: u32) -> Lit
        requires from { 1 ≤ variable }
        requires to { variable ≤ 2 ^ 30 }
        ensures { result.variable ≡ variable }
    {
        let number = variable as i32;
        let place = variable as usize - 1;
        if place < self.signs.len() && self.signs[place] {
            Lit::new(number).unwrap()
        } else {
            Lit::new(-number).unwrap()
        }
    }

    // Gives back the variables of the literals above a level.
    fn release_above(&mut self, trail: &Trail, level: u32)
        requires trail { IsTrail trail.now }
        requires covers { Covers self.old.order.held trail.now.entries }
        ensures { Releases level trail.now.entries self.old.order.held self.new.order.held }
    {
        let order = trail.order();
        let mut left = order.len();
        'above: while left > 0 && trail.level_of(order[left - 1]) > level {
            left -= 1;
            self.release(order[left]);
        }
    }

    // Takes back the literals above a level.
    pub(crate) fn take_back(&mut self, trail: &mut Trail, level: u32)
        requires trail { IsTrail trail.old }
        requires level { level ≤ trail.old.level }
        requires covers { Covers self.old.order.held trail.old.entries }
        ensures back { trail.new ≡ record trail.old {
          entries = up_to level trail.old.entries;
          level = level;
          answer = None;
        } }
        ensures covers { Covers self.new.order.held trail.new.entries }
        ensures long { length self.new.order.held ≡ length self.old.order.held }
    {
        self.release_above(trail, level);
        trail.back_to(level);
    }
}
