//! The core.

ghost use Rattle.std.specs.Prelude.{◌≡◌, ◌≢◌, ◌+◌, ◌-◌, ◌<◌, ◌≤◌, ◌^◌, ◌↔◌, [], Any, Err, IfOk};
ghost use Rattle.std.specs.Prelude.{IsTrue, OnOk, OnErr};
ghost use Rattle.qv_cnf.specs.Derivation.{additions};
ghost use Rattle.qv_cnf.specs.LratLine.{lines_of};
ghost use Rattle.qv_cnf.specs.Refutation.{Refutes};
ghost use Rattle.qv_sat.specs.Answering.{IsFailed, IsFound, OnEmptyCore, OnFound, OnSomeCore};
ghost use Rattle.qv_sat.specs.Answering.{OnUnsat};
ghost use Rattle.qv_sat.specs.Feeding.{ComesFirst, IsAccepted, IsRefuted};

use super::outcomes::{Outcome, SatFault};
use super::solver::Solver;
use super::work::{Policy, Work, work_in};
use qv_cnf::{Budget, Lit, Step};
use std::alloc::{AllocError, Global};
use std::marker::Model;

/// Clauses, and the clauses that were learnt from them. The steps are a refutation as far as it
/// goes: a checker that is given the clauses and the steps in the order of their ids accepts each.
#[derive(Drop)]
pub struct Core {
    solver: Solver,
}

impl Model for Core {
    ghost use Rattle.qv_sat.specs.CoreState.{CoreState};

    ghost Value = { CoreState };

    ghost use Rattle.qv_sat.specs.Holding.{core_of, IsKept};

    ghost view = { λ a. core_of a.solver };

    ghost invariant = { λ a. IsKept a.solver };
}

impl Core {
    ghost use Rattle.qv_sat.specs.CoreState.{deletions, empty_core, with_base, GoesOn, IsCore};
    ghost use Rattle.qv_sat.specs.CoreState.{HasNoConflict, MayGoOn};

    /// No clause and no step.
    pub fn new(alloc: Global) -> Core
        ensures { result ≡ empty_core }
    {
        Core {
            solver: Solver::new(alloc),
        }
    }

    /// Adds a clause.
    pub fn add(&mut self, id: u64, lits: &[Lit]) -> Result<(), AllocError>
        requires above { self.old.top < id }
        requires few { id < 2 ^ 62 }
        requires some { lits.now ≢ [] }
        ensures ok { OnOk result (self.new ≡ with_base self.old id lits.now) }
        ensures err { OnErr result (self.new ≡ self.old) }
    {
        self.solver.backtrack();
        self.solver.add(id, lits)
    }

    /// Adds a clause that a search needn't look at until it ends, if the variable is one of the
    /// clause's. It pays where that variable stands in no clause that is looked at.
    pub fn set_aside(&mut self, id: u64, lits: &[Lit], guard: u32) -> Result<(), AllocError>
        requires above { self.old.top < id }
        requires few { id < 2 ^ 62 }
        requires some { lits.now ≢ [] }
        ensures ok { OnOk result (self.new ≡ with_base self.old id lits.now) }
        ensures err { OnErr result (self.new ≡ self.old) }
    {
        self.solver.backtrack();
        if names(lits, guard) {
            self.solver.set_aside(id, lits, guard)
        } else {
            self.solver.add(id, lits)
        }
    }

    /// Says of pairs of literals that each may be one literal. A long search looks whether they are,
    /// which the answers don't show.
    pub fn suggest(&mut self, pairs: Vec<Vec<Lit>>)
        ensures { self.new ≡ self.old }
    {
        self.solver.chooser.questions.suggest(pairs);
    }

    /// Whether some values make every clause and every assumption true. Each clause that is learnt
    /// on the way is charged to the budget. After a fault the core may be asked again.
    pub fn solve<B: Budget>(
        &mut self,
        assumptions: &[Lit],
        budget: &mut B,
    ) -> Result<Outcome, SatFault>
        requires may { B.may_charge budget.old self.old.base self.old.steps }
        requires ids { self.old.top + (B.limit budget.old - B.count budget.old) < 2 ^ 62 }

        // The base stays, and steps come behind the others, under the ids that follow.
        ensures goes_on { GoesOn self.old self.new }

        // As many conflicts were charged as additions came, and nothing else changed in the budget.
        ensures count { B.count budget.new + additions self.old.steps ≡
            B.count budget.old + additions self.new.steps }
        ensures same { B.same_but_count budget.old budget.new }

        // So the greatest id rises by one with each charge, and never falls.
        ensures top { self.new.top + B.count budget.old ≡ self.old.top + B.count budget.new }
        ensures rises { self.old.top ≤ self.new.top }
        ensures may { B.may_charge budget.new self.new.base self.new.steps }

        ensures found { IfOk result (λ outcome.
            OnFound outcome (IsFound self.old.base assumptions.now)) }
        ensures unsat { IfOk result (λ outcome.
            OnUnsat outcome (IsFailed self.old.base assumptions.now)) }

        // A core that isn't empty comes only where unit propagation alone meets no false clause. So
        // a conflict at level 0 is charged, as a step that adds a clause without literals, whatever
        // is assumed.
        ensures no_conflict { OnSomeCore result (HasNoConflict self.new) }

        // Where the core is empty, a checker is refuted.
        ensures refuted { OnEmptyCore result (IsRefuted self.new.base self.new.steps) }

        // Clauses that came before the first step still do, and where the core is empty the steps
        // refute them.
        ensures first { ComesFirst self.old.base self.old.steps →
            ComesFirst self.new.base self.new.steps }
        ensures refutes { ComesFirst self.old.base self.old.steps →
            OnEmptyCore result (Refutes self.new.base self.new.steps) }
        ensures spent { result ≡ Err SatFault.Spent → B.count budget.new ≡ B.limit budget.new }

        // And only where there was a conflict to be charged for.
        ensures offered { result ≡ Err SatFault.Spent → MayGoOn self.new }
    {
        self.solver.backtrack();
        if self.solver.refuted {
            let core = Vec::new(self.solver.alloc);
            return Ok(Outcome::Unsat { core });
        }
        self.solver.make_room(assumptions)?;
        self.solver.make_choice()?;
        self.solver.search(assumptions, budget)
    }

    /// The steps so far.
    pub fn steps(&self) -> &[Step]
        ensures steps { lines_of result.now ≡ self.now.steps }

        // They are a derivation over the base, and each hint of an addition names a clause that is
        // live there.
        ensures core { IsCore self.now }

        // A checker that is given the clauses and the steps in the order of their ids accepts each.
        ensures accepted { IsAccepted self.now.base self.now.steps }
    {
        &self.solver.steps
    }

    /// How much was done so far, as the steps say it.
    pub fn work(&self) -> Work
        ensures conflicts { result.conflicts ≡ additions self.now.steps }
        ensures reductions { result.reductions ≡ deletions self.now.steps }
    {
        work_in(&self.solver.steps)
    }

    /// How the search went so far, for measurements.
    pub fn policy(&self) -> Policy {
        self.solver.policy()
    }
}

// Whether some literal is of the variable.
fn names(lits: &[Lit], variable: u32) -> bool
    ensures { IsTrue result ↔ Any (λ l. l.variable ≡ variable) lits.now }
{
    lits.iter().any(|lit| lit.variable() == variable)
}
