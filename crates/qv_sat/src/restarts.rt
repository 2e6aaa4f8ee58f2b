//! When a search restarts.

ghost use Rattle.std.specs.Prelude.{◌≡◌, ◌≤◌, List, length};
ghost use Rattle.qv_cnf.specs.Literal.{Literal};
ghost use Rattle.qv_sat.specs.Choosing.{Covers};
ghost use Rattle.qv_sat.specs.Deciding.{AssumedFirst};

use crate::choosing::Chooser;
use crate::levels::level_of;
use qv_cnf::Lit;
use qv_watch::{Propagated, Trail};

// At least so many conflicts come between two restarts, and one for each SHARE literals that are
// true: what a restart takes back is propagated anew.
const APART: u64 = 10;

const SHARE: u64 = 100;

// From and up to how many conflicts variables are decided in turn.
const FIRST_IN_TURN: u64 = 500;

const END_OF_TURN: u64 = 2_500;

// The slow average goes over no more conflicts than these.
const LONGEST: u64 = 1 << 13;

// Averages of the LBDs of learnt clauses, in units of 2^-32. A restart is due where that of the
// last conflicts is over 110 percent of that of many.
#[derive(Drop)]
pub(crate) struct Restarts {
    pub(crate) conflicts: u64,
    // How many restarts there were, and how many conflicts at the last.
    pub(crate) count: u64,
    last: u64,
    // How many literals conflicts took back, while variables were decided in turn and else.
    in_turn: u64,
    else_taken: u64,
    fast: u64,
    slow: u64,
    // Over how many conflicts the slow average goes.
    window: u64,
}

impl Restarts {
    pub(crate) fn new() -> Restarts {
        Restarts {
            conflicts: 0,
            count: 0,
            last: 0,
            in_turn: 0,
            else_taken: 0,
            fast: 0,
            slow: 0,
            window: 2,
        }
    }

    // Notes the LBD of the clause that was learnt from a conflict.
    pub(crate) fn note(&mut self, lbd: u32) {
        let one = u64::from(lbd) << 32;
        self.conflicts = self.conflicts.saturating_add(1);
        if self.conflicts == 1 {
            self.fast = one;
            self.slow = one;
        }
        if self.window < LONGEST && 2 * self.window <= self.conflicts {
            self.window *= 2;
        }
        self.fast = average(self.fast, one, 32);
        self.slow = average(self.slow, one, self.window);
    }

    // Whether a restart is due where so many literals are true.
    pub(crate) fn is_due(&self, trues: usize) -> bool {
        self.conflicts.saturating_sub(self.last) >= (trues as u64 / SHARE).max(APART)
            && self.fast > (self.slow / 100).saturating_mul(110)
    }

    // Notes how many literals a conflict takes back.
    pub(crate) fn weigh(&mut self, taken: usize) {
        let taken = taken as u64;
        if self.is_in_turn() {
            self.in_turn = self.in_turn.saturating_add(taken);
        } else {
            self.else_taken = self.else_taken.saturating_add(taken);
        }
    }

    // Whether variables are decided in turn now: while that takes back no more than twice what was
    // taken back else.
    fn is_in_turn(&self) -> bool {
        FIRST_IN_TURN <= self.conflicts
            && self.conflicts < END_OF_TURN
            && self.in_turn <= self.else_taken.saturating_mul(2)
    }

    // Notes a restart.
    pub(crate) fn begin(&mut self) {
        self.count = self.count.saturating_add(1);
        self.last = self.conflicts;
    }
}

// The average over as many numbers as a window has, with one more.
fn average(old: u64, one: u64, window: u64) -> u64 {
    let window = window.max(1);
    old.saturating_sub(old / window)
        .saturating_add(one / window)
}

// Goes back to the assumptions where a restart is due, or variables are decided in another way from
// now on, or another question is asked, and no clause is unit or false. The answer is whether none is.
pub(crate) fn restart_if_due(
    restarts: &mut Restarts,
    trail: &mut Trail,
    chooser: &mut Chooser,
    assumptions: &[Lit],
) -> bool
    requires room { trail.old.room ≤ length chooser.old.order.held }
    requires covers { Covers chooser.old.order.held trail.old.entries }
    ensures room { trail.new.room ≡ trail.old.room }
    ensures clauses { trail.new.clauses ≡ trail.old.clauses }
    ensures long { length chooser.new.order.held ≡ length chooser.old.order.held }
    ensures covers { Covers chooser.new.order.held trail.new.entries }
    ensures first { (assumptions : List Literal) → AssumedFirst assumptions trail.old.entries →
        AssumedFirst assumptions trail.new.entries }
{
    if !settles(trail, chooser) {
        return false;
    }
    let turned = chooser.turn(restarts.is_in_turn());
    let asks = chooser.ask(restarts.conflicts);
    if turned || asks || restarts.is_due(trail.order().len()) {
        restarts.begin();
        let level = assumed_level(trail, assumptions);
        back_to(trail, chooser, level);
    }
    true
}

// Propagates. The answer is whether no clause is unit or false then.
fn settles(trail: &mut Trail, chooser: &Chooser) -> bool
    requires room { trail.old.room ≤ length chooser.now.order.held }
    requires covers { Covers chooser.now.order.held trail.old.entries }
    ensures room { trail.new.room ≡ trail.old.room }
    ensures clauses { trail.new.clauses ≡ trail.old.clauses }
    ensures covers { Covers chooser.now.order.held trail.new.entries }
    ensures first { (assumptions : List Literal) → AssumedFirst assumptions trail.old.entries →
        AssumedFirst assumptions trail.new.entries }
{
    let _chooser = chooser;
    trail.propagate() == Propagated::Quiet
}

// Goes back to a level, if the trail is above it.
fn back_to(trail: &mut Trail, chooser: &mut Chooser, level: u32)
    requires covers { Covers chooser.old.order.held trail.old.entries }
    ensures room { trail.new.room ≡ trail.old.room }
    ensures clauses { trail.new.clauses ≡ trail.old.clauses }
    ensures long { length chooser.new.order.held ≡ length chooser.old.order.held }
    ensures covers { Covers chooser.new.order.held trail.new.entries }
    ensures first { (assumptions : List Literal) → AssumedFirst assumptions trail.old.entries →
        AssumedFirst assumptions trail.new.entries }
{
    if level < trail.level() {
        chooser.take_back(trail, level);
    }
}

// The greatest level of an assumption.
fn assumed_level(trail: &Trail, assumptions: &[Lit]) -> u32 {
    let mut level = 0;
    for lit in assumptions {
        level = level_of(trail, *lit).max(level);
    }
    level
}
