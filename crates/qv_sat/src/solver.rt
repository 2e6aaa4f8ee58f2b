//! The inside of a core, and how it learns.

ghost use Rattle.std.specs.Prelude.{◌≡◌, ◌≢◌, ◌+◌, ◌<◌, ◌≤◌, ◌^◌, true, false, List, [], Some};
ghost use Rattle.std.specs.Prelude.{All, Any, map, pos, length, Ok, None, IfOk, IfSome, IfNone, OnOk};
ghost use Rattle.std.specs.Prelude.{OnErr};
ghost use Rattle.qv_cnf.specs.Literal.{Literal};
ghost use Rattle.qv_cnf.specs.LratLine.{lines_of};
ghost use Rattle.qv_learn.specs.Learning.{AreMet};
ghost use Rattle.qv_watch.specs.TrailState.{IsTrail};
ghost use Rattle.qv_sat.specs.Answering.{IsFailed, IsFound, OnEmptyCore, OnFound, OnSomeCore};
ghost use Rattle.qv_sat.specs.Answering.{OnUnsat};
ghost use Rattle.qv_sat.specs.CoreState.{with_base, HasNoConflict, Trims};
ghost use Rattle.qv_sat.specs.Deciding.{AnswersOn, AssumedFirst, IsWithin};
ghost use Rattle.qv_sat.specs.Holding.{core_of, Held, IsCovered, IsWide};
ghost use Rattle.qv_sat.specs.Aside.{HasNoGuard};
ghost use Rattle.qv_sat.specs.Learnt.{IsLearnt};
ghost use Rattle.qv_sat.specs.Reaching.{IsReached};
ghost use Rattle.qv_sat.specs.Spending.{left, MaySpend, Spends};

use super::analysing::analyse;
use super::aside::Aside;
use super::choosing::Chooser;
use super::database::Database;
use super::deciding::{Reached, descend};
use super::outcomes::{Outcome, SatFault};
use super::reduce::{detach_all, idle};
use super::restarts::{Restarts, restart_if_due};
use super::work::Policy;
use qv_cnf::{Budget, ClauseList, Lit, Step};
use qv_learn::{Learner, Learnt};
use qv_watch::{Propagated, Trail};
use std::alloc::{AllocError, Global};

// Clauses, and what was learnt from them. All of them but those aside are attached to the trail.
#[derive(Drop)]
pub(crate) struct Solver {
    pub(crate) alloc: Global,
    pub(crate) base: ClauseList,
    pub(crate) steps: Vec<Step>,
    pub(crate) trail: Trail,
    pub(crate) learner: Learner,
    pub(crate) chooser: Chooser,
    // The greatest id so far, or 0.
    pub(crate) top: u64,
    // The greatest variable so far, or 0.
    pub(crate) variables: u32,
    // Whether a clause without literals was learnt.
    pub(crate) refuted: bool,
    pub(crate) restarts: Restarts,
    pub(crate) database: Database,
    pub(crate) aside: Aside,
}

impl Solver {
    pub(crate) fn new(alloc: Global) -> Solver
        ensures held { Held result }
        ensures covered { IsCovered result }
        ensures base { result.base.live ≡ [] }
        ensures steps { result.steps.items ≡ [] }
        ensures top { result.top ≡ 0 }
    {
        Solver {
            alloc,
            base: ClauseList::new(alloc),
            steps: Vec::new(alloc),
            trail: Trail::new(alloc),
            learner: Learner::new(alloc),
            chooser: Chooser::new(alloc),
            top: 0,
            variables: 0,
            refuted: false,
            restarts: Restarts::new(),
            database: Database::new(alloc),
            aside: Aside::new(alloc),
        }
    }

    // Takes back what was assumed.
    pub(crate) fn backtrack(&mut self)
        requires held { Held self.old }
        requires covered { IsCovered self.old }
        ensures held { Held self.new }
        ensures covered { IsCovered self.new }
        ensures core { core_of self.new ≡ core_of self.old }
        ensures refuted { self.new.refuted ≡ self.old.refuted }
        ensures level { self.new.trail.level ≡ 0 }
        ensures first { (assumptions : List Literal) →
            AssumedFirst assumptions self.new.trail.entries }
        ensures variables { self.new.variables ≡ self.old.variables }
        ensures wide { IsWide self.old → IsWide self.new }
        ensures aside { self.new.aside ≡ self.old.aside }
    {
        if self.trail.level() > 0 {
            self.chooser.take_back(&mut self.trail, 0);
        }
    }

    // Where no clause is unit or false, restarts and reduces, if that is due.
    fn pause(&mut self, assumptions: &[Lit]) -> Result<(), AllocError>
        requires held { Held self.old }
        requires covered { IsCovered self.old }
        requires wide { IsWide self.old }
        ensures held { Held self.new }
        ensures covered { IsCovered self.new }
        ensures wide { IsWide self.new }
        ensures trims { Trims (core_of self.old) (core_of self.new) }
        ensures refuted { self.new.refuted ≡ self.old.refuted }
        ensures variables { self.new.variables ≡ self.old.variables }
        ensures first { (assumptions : List Literal) →
            AssumedFirst assumptions self.old.trail.entries →
            AssumedFirst assumptions self.new.trail.entries }
        ensures aside { self.new.aside ≡ self.old.aside }
    {
        let conflicts = self.restarts.conflicts;
        let is_full = self.database.is_due(conflicts);
        let asks = self.chooser.questions.is_due(conflicts);
        if !is_full && !asks && !self.restarts.is_due(self.trail.order().len()) {
            return Ok(());
        }
        let is_settled = restart_if_due(
            &mut self.restarts,
            &mut self.trail,
            &mut self.chooser,
            assumptions,
        );
        if is_full && is_settled {
            self.reduce(conflicts)?;
        }
        Ok(())
    }

    // Takes away the learnt clauses of least use that are no reasons, in one step.
    fn reduce(&mut self, conflicts: u64) -> Result<(), AllocError>
        requires held { Held self.old }
        ensures held { Held self.new }
        ensures trims { Trims (core_of self.old) (core_of self.new) }
        ensures err { OnErr result (core_of self.new ≡ core_of self.old) }
        ensures entries { self.new.trail.entries ≡ self.old.trail.entries }
        ensures chooser { self.new.chooser ≡ self.old.chooser }
        ensures refuted { self.new.refuted ≡ self.old.refuted }
        ensures variables { self.new.variables ≡ self.old.variables }
        ensures aside { self.new.aside ≡ self.old.aside }
    {
        let chosen = self.database.reduced(&self.trail, conflicts)?;
        let ids = idle(self.alloc, &self.base, &self.trail, &chosen)?;
        if ids.is_empty() {
            return Ok(());
        }
        self.steps.reserve(1)?;
        detach_all(&mut self.trail, &ids);
        self.steps.push_reserved(Step::Delete { id: self.top, ids });
        Ok(())
    }

    // Makes room for the literals' variables.
    pub(crate) fn make_room(&mut self, lits: &[Lit]) -> Result<(), AllocError>
        requires held { Held self.old }
        requires covered { IsCovered self.old }
        ensures held { Held self.new }
        ensures covered { IsCovered self.new }
        ensures core { core_of self.new ≡ core_of self.old }
        ensures refuted { self.new.refuted ≡ self.old.refuted }
        ensures level { self.new.trail.level ≡ self.old.trail.level }
        ensures entries { self.new.trail.entries ≡ self.old.trail.entries }
        ensures clauses { self.new.trail.clauses ≡ self.old.trail.clauses }
        ensures given { self.new.base.given ≡ self.old.base.given }
        ensures within { OnOk result (All (IsWithin self.new.variables) lits.now) }
    {
        let variables = greatest(lits).max(self.variables);
        self.trail.room(variables)?;
        self.variables = variables;
        Ok(())
    }

    // Makes room for the choice among the variables.
    pub(crate) fn make_choice(&mut self) -> Result<(), AllocError>
        requires held { Held self.old }
        requires covered { IsCovered self.old }
        ensures held { Held self.new }
        ensures covered { IsCovered self.new }
        ensures core { core_of self.new ≡ core_of self.old }
        ensures refuted { self.new.refuted ≡ self.old.refuted }
        ensures entries { self.new.trail.entries ≡ self.old.trail.entries }
        ensures variables { self.new.variables ≡ self.old.variables }
        ensures wide { OnOk result (IsWide self.new) }
    {
        self.chooser.room(self.variables)
    }

    // Adds a clause of the base. Nothing is assumed.
    pub(crate) fn add(&mut self, id: u64, lits: &[Lit]) -> Result<(), AllocError>
        requires held { Held self.old }
        requires covered { IsCovered self.old }
        requires above { self.old.top < id }
        requires few { id < 2 ^ 62 }
        requires some { lits.now ≢ [] }
        requires level { self.old.trail.level ≡ 0 }
        ensures held { Held self.new }
        ensures covered { IsCovered self.new }
        ensures ok { OnOk result (core_of self.new ≡ with_base (core_of self.old) id lits.now) }
        ensures err { OnErr result (core_of self.new ≡ core_of self.old) }
    {
        self.make_room(lits)?;
        self.chooser.note(lits)?;
        self.base.add(id, lits)?;
        if let Err(fault) = self.trail.attach(id, lits) {
            self.base.cut(id);
            return Err(fault);
        }
        self.top = id;
        Ok(())
    }

    // Adds a clause of the base that is left aside, with a variable that guards it. Nothing is
    // assumed.
    pub(crate) fn set_aside(&mut self, id: u64, lits: &[Lit], guard: u32) -> Result<(), AllocError>
        requires held { Held self.old }
        requires covered { IsCovered self.old }
        requires above { self.old.top < id }
        requires few { id < 2 ^ 62 }
        requires some { lits.now ≢ [] }
        requires guard { Any (λ l. l.variable ≡ guard) lits.now }
        ensures held { Held self.new }
        ensures covered { IsCovered self.new }
        ensures ok { OnOk result (core_of self.new ≡ with_base (core_of self.old) id lits.now) }
        ensures err { OnErr result (core_of self.new ≡ core_of self.old) }
    {
        self.make_room(lits)?;
        self.chooser.note(lits)?;
        self.chooser.postpone(guard)?;
        self.aside.guard(guard)?;
        self.base.add(id, lits)?;
        self.aside.ids.push_reserved(id);
        self.top = id;
        Ok(())
    }

    // Goes back, and attaches the clauses that were left aside.
    fn attach_aside(&mut self) -> Result<(), AllocError>
        requires held { Held self.old }
        requires covered { IsCovered self.old }
        requires wide { IsWide self.old }
        ensures held { Held self.new }
        ensures covered { IsCovered self.new }
        ensures wide { IsWide self.new }
        ensures core { core_of self.new ≡ core_of self.old }
        ensures refuted { self.new.refuted ≡ self.old.refuted }
        ensures variables { self.new.variables ≡ self.old.variables }
        ensures first { (assumptions : List Literal) →
            AssumedFirst assumptions self.new.trail.entries }
        ensures none { OnOk result (self.new.aside.ids.items ≡ []) }
    {
        self.backtrack();
        self.chooser.take_all();
        'aside: while !self.aside.is_empty() {
            self.attach_last()?;
        }
        Ok(())
    }

    // Attaches the last of them. Nothing is assumed.
    fn attach_last(&mut self) -> Result<(), AllocError>
        requires held { Held self.old }
        requires level { self.old.trail.level ≡ 0 }
        requires some { self.old.aside.ids.items ≢ [] }
        ensures held { Held self.new }
        ensures core { core_of self.new ≡ core_of self.old }
        ensures refuted { self.new.refuted ≡ self.old.refuted }
        ensures variables { self.new.variables ≡ self.old.variables }
        ensures chooser { self.new.chooser ≡ self.old.chooser }
        ensures entries { self.new.trail.entries ≡ self.old.trail.entries }
        ensures level { self.new.trail.level ≡ 0 }
        ensures fewer { OnOk result (length self.new.aside.ids.items
            < length self.old.aside.ids.items) }
    {
        let last = self.aside.ids.len() - 1;
        let id = self.aside.ids[last];
        let Some(lits) = self.base.get(id) else {
            unreachable!()
        };
        self.trail.attach(id, lits)?;
        self.aside.ids.truncate(last);
        Ok(())
    }

    // Learns from a conflict. Where what would be learnt may contain a clause that was left aside, all
    // these are attached instead.
    pub(crate) fn learn<B: Budget>(&mut self, conflict: u64, budget: &mut B) -> Result<(), SatFault>
        requires ready { MaySpend B.Budget budget.old self.old }
        requires covered { IsCovered self.old }
        requires wide { IsWide self.old }
        requires trail { IsTrail self.old.trail }
        requires conflict { self.old.trail.answer ≡ Some (Propagated.Conflict conflict) }
        ensures spends { Spends B.Budget budget.old budget.new self.old self.new result }
        ensures covered { IsCovered self.new }
        ensures wide { IsWide self.new }
        ensures ready { OnOk result (self.new.refuted ≡ false →
            MaySpend B.Budget budget.new self.new) }
        ensures less { OnOk result (left B.Budget budget.new self.new
            < left B.Budget budget.old self.old) }
        ensures first { (assumptions : List Literal) →
            AssumedFirst assumptions self.old.trail.entries →
            AssumedFirst assumptions self.new.trail.entries }
        ensures variables { self.new.variables ≡ self.old.variables }
    {
        let learnt = analyse(&mut self.learner, &self.trail, conflict)?;
        if self.aside.may_be_in(&learnt.lits) {
            self.attach_aside()?;
            return Ok(());
        }
        self.keep(learnt, budget)
    }

    // Adds a clause that was learnt, and goes back to the level at which it is unit. It is charged for
    // before it is added, and its memory is taken before that.
    fn keep<B: Budget>(&mut self, learnt: Learnt, budget: &mut B) -> Result<(), SatFault>
        requires ready { MaySpend B.Budget budget.old self.old }
        requires covered { IsCovered self.old }
        requires wide { IsWide self.old }
        requires trail { IsTrail self.old.trail }
        requires learnt { IsLearnt self.old.trail learnt.lits.items learnt.hints.items
            learnt.level }
        requires met { AreMet self.old.trail learnt.hints.items self.old.learner }
        requires apart { HasNoGuard self.old.aside learnt.lits.items }
        ensures spends { Spends B.Budget budget.old budget.new self.old self.new result }
        ensures covered { IsCovered self.new }
        ensures wide { IsWide self.new }
        ensures charged { OnOk result (B.count budget.new ≡ B.count budget.old + 1) }
        ensures learnt { OnOk result (self.new.top ≡ self.old.top + 1) }
        ensures first { (assumptions : List Literal) →
            AssumedFirst assumptions self.old.trail.entries →
            AssumedFirst assumptions self.new.trail.entries }
        ensures variables { self.new.variables ≡ self.old.variables }
        ensures aside { self.new.aside ≡ self.old.aside }
    {
        let id = self.top + 1;
        let hints = signed(self.alloc, &learnt.hints)?;
        self.steps.reserve(1)?;
        let lbd = self
            .database
            .note(&self.trail, id, &learnt.lits, &learnt.hints)?;
        self.restarts.note(lbd);
        self.chooser.bump(self.learner.met());
        let trues = self.trail.order().len();
        self.chooser.take_back(&mut self.trail, learnt.level);
        self.restarts
            .weigh(trues.saturating_sub(self.trail.order().len()));
        self.trail.attach(id, &learnt.lits)?;
        let charge = budget.conflict(&self.base, &self.steps, id, &learnt.lits, &learnt.hints);
        if let Err(spent) = charge {
            self.trail.detach(id);
            return Err(SatFault::from(spent));
        }
        self.top = id;
        self.refuted = learnt.lits.is_empty();
        let Learnt { lits, .. } = learnt;
        self.steps.push_reserved(Step::Add { id, lits, hints });
        Ok(())
    }

    // How the search went so far.
    pub(crate) fn policy(&self) -> Policy {
        Policy {
            restarts: self.restarts.count,
            reductions_above_zero: self.database.above_zero,
        }
    }

    // An answer, if it's one for all clauses.
    fn whole(&self, outcome: Outcome) -> Option<Outcome>
        ensures same { IfSome result (λ o. o ≡ outcome) }
        ensures none { IfSome result (λ _. self.now.aside.ids.items ≡ []) }
        ensures some { IfNone result (self.now.aside.ids.items ≢ []) }
    {
        if self.aside.is_empty() {
            Some(outcome)
        } else {
            drop(outcome);
            None
        }
    }

    // Descends once. Where a clause becomes false on the way, nothing is learnt: all is taken back, and
    // inputs and outputs get these values as their last.
    fn attempt(
        &mut self,
        assumptions: &[Lit],
        inputs: bool,
        outputs: bool,
    ) -> Result<Option<Outcome>, AllocError>
        requires held { Held self.old }
        requires covered { IsCovered self.old }
        requires wide { IsWide self.old }
        requires within { All (IsWithin self.old.variables) assumptions.now }
        requires first { AssumedFirst assumptions.now self.old.trail.entries }
        ensures held { Held self.new }
        ensures covered { IsCovered self.new }
        ensures wide { IsWide self.new }
        ensures core { core_of self.new ≡ core_of self.old }
        ensures refuted { self.new.refuted ≡ self.old.refuted }
        ensures variables { self.new.variables ≡ self.old.variables }
        ensures first { OnOk result (AssumedFirst assumptions.now self.new.trail.entries) }
        ensures answer { IfOk result (λ o. IfSome o
            (AnswersOn self.new.trail.clauses assumptions.now self.new.variables)) }
        ensures none { IfOk result (λ o. IfSome o (λ _. self.new.aside.ids.items ≡ [])) }
    {
        let reached = descend(
            self.alloc,
            &mut self.trail,
            &mut self.chooser,
            assumptions,
            self.variables,
        )?;
        if let Reached::Answer(outcome) = reached {
            return Ok(self.whole(outcome));
        }
        self.backtrack();
        self.chooser.aim(inputs, outputs);
        Ok(None)
    }

    // Before the first conflict that is learnt from: descents with the last values as they stand, with
    // outputs false and inputs true, and with all false. Behind them all are true.
    fn guess(&mut self, assumptions: &[Lit]) -> Result<Option<Outcome>, AllocError>
        requires held { Held self.old }
        requires covered { IsCovered self.old }
        requires wide { IsWide self.old }
        requires within { All (IsWithin self.old.variables) assumptions.now }
        requires first { AssumedFirst assumptions.now self.old.trail.entries }
        ensures held { Held self.new }
        ensures covered { IsCovered self.new }
        ensures wide { IsWide self.new }
        ensures core { core_of self.new ≡ core_of self.old }
        ensures refuted { self.new.refuted ≡ self.old.refuted }
        ensures variables { self.new.variables ≡ self.old.variables }
        ensures first { OnOk result (AssumedFirst assumptions.now self.new.trail.entries) }
        ensures answer { IfOk result (λ o. IfSome o
            (AnswersOn self.new.trail.clauses assumptions.now self.new.variables)) }
        ensures none { IfOk result (λ o. IfSome o (λ _. self.new.aside.ids.items ≡ [])) }
    {
        if self.restarts.conflicts > 0 {
            return Ok(None);
        }
        if let Some(outcome) = self.attempt(assumptions, true, false)? {
            return Ok(Some(outcome));
        }
        if let Some(outcome) = self.attempt(assumptions, false, false)? {
            return Ok(Some(outcome));
        }
        self.attempt(assumptions, true, true)
    }

    // Searches under the assumptions, from where the trail is.
    pub(crate) fn search<B: Budget>(
        &mut self,
        assumptions: &[Lit],
        budget: &mut B,
    ) -> Result<Outcome, SatFault>
        requires ready { MaySpend B.Budget budget.old self.old }
        requires covered { IsCovered self.old }
        requires wide { IsWide self.old }
        requires within { All (IsWithin self.old.variables) assumptions.now }
        requires first { AssumedFirst assumptions.now self.old.trail.entries }
        ensures spends { Spends B.Budget budget.old budget.new self.old self.new result }
        ensures covered { IsCovered self.new }
        ensures found { IfOk result (λ outcome.
            OnFound outcome (IsFound self.old.base.live assumptions.now)) }
        ensures unsat { IfOk result (λ outcome.
            OnUnsat outcome (IsFailed self.old.base.live assumptions.now)) }
        ensures refuted { OnEmptyCore result (self.new.refuted ≡ true) }
        ensures no_conflict { OnSomeCore result (HasNoConflict (core_of self.new)) }
    {
        if let Some(outcome) = self.guess(assumptions)? {
            return Ok(outcome);
        }
        self.learn_on(assumptions, budget)
    }

    // Descends and learns in turn, until there is an answer.
    fn learn_on<B: Budget>(
        &mut self,
        assumptions: &[Lit],
        budget: &mut B,
    ) -> Result<Outcome, SatFault>
        requires ready { MaySpend B.Budget budget.old self.old }
        requires covered { IsCovered self.old }
        requires wide { IsWide self.old }
        requires within { All (IsWithin self.old.variables) assumptions.now }
        requires first { AssumedFirst assumptions.now self.old.trail.entries }
        ensures spends { Spends B.Budget budget.old budget.new self.old self.new result }
        ensures covered { IsCovered self.new }
        ensures found { IfOk result (λ outcome.
            OnFound outcome (IsFound self.old.base.live assumptions.now)) }
        ensures unsat { IfOk result (λ outcome.
            OnUnsat outcome (IsFailed self.old.base.live assumptions.now)) }
        ensures refuted { OnEmptyCore result (self.new.refuted ≡ true) }
        ensures no_conflict { OnSomeCore result (HasNoConflict (core_of self.new)) }
    {
        loop {
            let reached = descend(
                self.alloc,
                &mut self.trail,
                &mut self.chooser,
                assumptions,
                self.variables,
            )?;
            if let Some(outcome) = self.settle(reached, assumptions, budget)? {
                return Ok(outcome);
            }
            if self.refuted {
                let core = Vec::new(self.alloc);
                return Ok(Outcome::Unsat { core });
            }
            self.pause(assumptions)?;
        }
    }

    // Learns from a conflict, and gives an answer that holds of all clauses. Where some were left
    // aside, they are attached at an answer.
    fn settle<B: Budget>(
        &mut self,
        reached: Reached,
        assumptions: &[Lit],
        budget: &mut B,
    ) -> Result<Option<Outcome>, SatFault>
        requires ready { MaySpend B.Budget budget.old self.old }
        requires covered { IsCovered self.old }
        requires wide { IsWide self.old }
        requires trail { IsTrail self.old.trail }
        requires reached { IsReached self.old.trail assumptions.now self.old.variables reached }
        ensures spends { Spends B.Budget budget.old budget.new self.old self.new result }
        ensures covered { IsCovered self.new }
        ensures wide { IsWide self.new }
        ensures ready { OnOk result (self.new.refuted ≡ false →
            MaySpend B.Budget budget.new self.new) }
        ensures less { result ≡ Ok None →
            left B.Budget budget.new self.new < left B.Budget budget.old self.old }
        ensures answer { IfOk result (λ o. IfSome o
            (AnswersOn self.new.trail.clauses assumptions.now self.new.variables)) }
        ensures none { IfOk result (λ o. IfSome o (λ _. self.new.aside.ids.items ≡ [])) }
        ensures first { (assumptions : List Literal) →
            AssumedFirst assumptions self.old.trail.entries →
            AssumedFirst assumptions self.new.trail.entries }
        ensures variables { self.new.variables ≡ self.old.variables }
    {
        let outcome = match reached {
            Reached::Answer(outcome) => outcome,
            Reached::Conflict(id) => {
                self.learn(id, budget)?;
                return Ok(None);
            }
        };
        if let Some(outcome) = self.whole(outcome) {
            return Ok(Some(outcome));
        }
        self.attach_aside()?;
        Ok(None)
    }
}

// The greatest variable of the literals, or 0.
pub(crate) fn greatest(lits: &[Lit]) -> u32
    ensures within { All (IsWithin result) lits.now }
    ensures most { result ≤ 2 ^ 30 }
{
    let mut variables = 0u32;
    for lit in lits {
        variables = variables.max(lit.variable());
    }
    variables
}

// The ids as hints, with no memory beyond what they take.
fn signed(alloc: Global, ids: &[u64]) -> Result<Vec<i64>, AllocError>
    requires { All (λ id. id < 2 ^ 62) ids.now }
    ensures { IfOk result (λ hints. hints.items ≡ map pos ids.now) }
{
    let mut hints = Vec::with_capacity(alloc, ids.len())?;
    for id in ids {
        hints.push(*id as i64)?;
    }
    Ok(hints)
}
