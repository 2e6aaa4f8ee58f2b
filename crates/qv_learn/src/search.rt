//! The search of what a conflict comes of.

ghost use Rattle.std.specs.Bool.{OnFalse, OnTrue};
ghost use Rattle.std.specs.Prelude.{◌≡◌, ◌≢◌, ◌⊎◌, ℕ, ◌≤◌, List, true, [], ◌∷◌, ◌++◌, Some, None};
ghost use Rattle.std.specs.Prelude.{IsSome, IfOk, IfSome, IfNone, OnOk, max, reverse};
ghost use Rattle.std.specs.Option.{option_to_list};
ghost use Rattle.qv_cnf.specs.Listing.{clause_named};
ghost use Rattle.qv_cnf.specs.Literal.{Literal, negated};
ghost use Rattle.qv_learn.specs.Searching.{IsAntecedent, IsImplied, IsSpare, PutsVisits};
ghost use Rattle.qv_watch.specs.Entries.{value_of};
ghost use Rattle.qv_watch.specs.TrailState.{IsTrail};

use super::analysis::Learnt;
use super::marks::Marks;
use qv_cnf::Lit;
use qv_watch::Trail;
use std::alloc::{AllocError, Global};
use std::marker::Model;

// What a search has still to do with a true literal.
#[derive(Clone, Copy, Debug, PartialEq, Eq)]
pub(crate) enum Task {
    // See whether it was met, and if not, keep it or resolve it.
    Visit(Lit),
    // Take its reason as a hint, all other literals of which were met.
    Leave(Lit),
}

// A depth-first search of what a conflict comes of, back to the first unique implication point and
// to the literals of lower levels.
#[derive(Drop)]
pub(crate) struct Search {
    // The next one last.
    tasks: Vec<Task>,
    // The variables that were met.
    marks: Marks,
    // The clause so far.
    lits: Vec<Lit>,
    // The clauses that were resolved, each behind those that it is resolved with.
    hints: Vec<u64>,
    // The greatest level of the clause's literals below the present level, or 0.
    level: u32,
}

impl Model for Search {
    ghost use Rattle.std.specs.Prelude.{reverse};
    ghost use Rattle.qv_learn.specs.Searching.{Searched};

    ghost Value = { Searched };

    ghost view = { λ a. record {
      tasks = reverse a.tasks.items;
      marks = a.marks;
      lits = a.lits.items;
      hints = a.hints.items;
      level = a.level;
    } };
}

impl Search {
    ghost use Rattle.qv_learn.specs.Frontiers.{HasPoint};
    ghost use Rattle.qv_learn.specs.Learning.{level_at};
    ghost use Rattle.qv_learn.specs.Refuting.{literal_of_task, LeavesWithReason};
    ghost use Rattle.qv_learn.specs.Searching.{nothing_searched, Starts, Turns};
    ghost use Rattle.qv_watch.specs.Entries.{reason_of, value_of};

    // With nothing to do.
    pub(crate) fn new(alloc: Global) -> Search {
        Search {
            tasks: Vec::new(alloc),
            marks: Marks::new(alloc),
            lits: Vec::new(alloc),
            hints: Vec::new(alloc),
            level: 0,
        }
    }

    // Begins anew, with the conflict's clause to be visited, and the point met.
    pub(crate) fn start(
        &mut self,
        trail: &Trail,
        conflict: u64,
        point: Option<Lit>,
        between: &Marks,
    ) -> Result<(), AllocError>
        requires attached { IsSome (clause_named conflict trail.now.clauses) }
        requires none { trail.now.level ≡ 0 → point ≡ None }
        requires point { 1 ≤ trail.now.level → (set : List ℕ) ×
            HasPoint trail.now conflict (option_to_list point) set between.now }
        ensures { OnOk result
            (Starts trail.now conflict (option_to_list point) between.now self.new) }
    {
        let _between = between;
        self.clear();
        push_visits(&mut self.tasks, trail.clause(conflict).unwrap(), 0)?;
        if let Some(lit) = point {
            self.marks.mark(lit.variable())?;
            self.lits.push(lit.negated())?;
        }
        Ok(())
    }

    // The variables that were met.
    pub(crate) fn met(&self) -> &[u32]
        ensures { result.now ≡ self.now.marks }
    {
        self.marks.list()
    }

    // Takes everything away.
    fn clear(&mut self)
        ensures { self.new ≡ nothing_searched }
    {
        self.tasks.clear();
        self.marks.clear();
        self.lits.clear();
        self.hints.clear();
        self.level = 0;
    }

    // The next task, which is taken away.
    pub(crate) fn next(&mut self) -> Option<Task>
        ensures first { self.old ≡ record self.new {
          tasks = option_to_list result ++ self.new.tasks;
        } }
        ensures none { IfNone result (self.new.tasks ≡ []) }
    {
        self.tasks.pop()
    }

    // Does a task that was the next.
    #[tactic(auto, using(crate::proofs::Turning::turn_leaves))]
    pub(crate) fn turn(
        &mut self,
        trail: &Trail,
        between: &Marks,
        task: Task,
    ) -> Result<(), AllocError>
        requires is_true { value_of trail.now.entries (literal_of_task task) ≡ Some true }
        requires came { LeavesWithReason trail.now task }
        ensures { OnOk result (Turns trail.now between.now
            (record self.old { tasks = task ∷ self.old.tasks }) self.new) }
    {
        match task {
            Task::Visit(lit) => self.visit(trail, between, lit),
            Task::Leave(lit) => self.leave(trail, lit),
        }
    }

    // The clause that was learnt from the conflict, when no task is left, with no memory beyond
    // what it takes.
    pub(crate) fn finish(&mut self, alloc: Global, conflict: u64) -> Result<Learnt, AllocError>
        ensures { IfOk result (λ learnt. (learnt.lits.items ≡ self.old.lits) ×
            (learnt.hints.items ≡ self.old.hints ++ conflict ∷ []) ×
            (learnt.level ≡ self.old.level) × (self.new.marks ≡ self.old.marks)) }
    {
        self.hints.push(conflict)?;
        Ok(Learnt {
            lits: Vec::from_slice(alloc, &self.lits)?,
            hints: Vec::from_slice(alloc, &self.hints)?,
            level: self.level,
        })
    }

    // Keeps a true literal that wasn't met, or opens it.
    #[tactic(auto, using(crate::proofs::Turning::turn_opens, crate::proofs::Turning::turn_keeps, crate::proofs::Turning::antecedent_named))]
    fn visit(&mut self, trail: &Trail, between: &Marks, lit: Lit) -> Result<(), AllocError>
        requires { value_of trail.now.entries lit ≡ Some true }
        ensures { OnOk result (Turns trail.now between.now
            (record self.old { tasks = Task.Visit lit ∷ self.old.tasks }) self.new) }
    {
        if !self.marks.mark(lit.variable())? {
            return Ok(());
        }
        match antecedent_of(trail, between, lit) {
            Some(id) => self.open(trail, lit, id),
            None => self.keep(trail, lit),
        }
    }

    // The other literals of the reason are to be visited, and then the literal is to be left.
    fn open(&mut self, trail: &Trail, lit: Lit, id: u64) -> Result<(), AllocError>
        requires { IsSome (clause_named id trail.now.clauses) }
        ensures same { OnOk result (self.new ≡ record self.old { tasks = self.new.tasks }) }
        ensures visits { OnOk result ((lits : List Literal) ×
            (clause_named id trail.now.clauses ≡ Some lits) × PutsVisits lit.variable lits
            (Task.Leave lit ∷ self.old.tasks) self.new.tasks) }
    {
        self.tasks.push(Task::Leave(lit))?;
        push_visits(&mut self.tasks, trail.clause(id).unwrap(), lit.variable())
    }

    // The literal isn't resolved, so its negation stands in the clause.
    fn keep(&mut self, trail: &Trail, lit: Lit) -> Result<(), AllocError>
        requires { value_of trail.now.entries lit ≡ Some true }
        ensures { OnOk result (self.new ≡ record self.old {
          lits = self.old.lits ++ negated lit ∷ [];
          level = max self.old.level (level_at trail.now.entries lit);
        }) }
    {
        self.level = self.level.max(trail.level_of(lit));
        self.lits.push(lit.negated())?;
        Ok(())
    }

    // The reason of the literal is the next hint.
    fn leave(&mut self, trail: &Trail, lit: Lit) -> Result<(), AllocError>
        requires { IsSome (reason_of trail.now.entries lit) }
        ensures { OnOk result ((id : ℕ) × (reason_of trail.now.entries lit ≡ Some id) ×
            (self.new ≡ record self.old { hints = self.old.hints ++ id ∷ [] })) }
    {
        self.hints.push(trail.reason(lit).unwrap())?;
        Ok(())
    }
}

// The clause that a true literal is resolved with: its reason, unless the literal is of a level
// between and has to stand in the clause.
fn antecedent_of(trail: &Trail, between: &Marks, lit: Lit) -> Option<u64>
    requires { value_of trail.now.entries lit ≡ Some true }
    ensures antecedent { IsAntecedent trail.now between.now lit result }
    ensures trail { IsTrail trail.now }
{
    let level = trail.level_of(lit);
    let present = trail.level();
    let id = trail.reason(lit)?;
    if level == 0 || level == present || is_implied(trail, between, lit, id) {
        Some(id)
    } else {
        None
    }
}

// Whether the literal may be left out by the clause of this id: each other literal of it is of a
// variable that was noted, or false since level 0.
fn is_implied(trail: &Trail, between: &Marks, lit: Lit, id: u64) -> bool
    ensures implied { OnTrue result (IsImplied trail.now between.now lit id) }
    ensures not { OnFalse result (IsImplied trail.now between.now lit id → ⊥) }
{
    let Some(lits) = trail.clause(id) else {
        return false;
    };
    for other in lits {
        if other.variable() != lit.variable() && !needs_none(trail, between, *other) {
            return false;
        }
    }
    true
}

// Whether the literal is of a variable that was noted, or false since level 0.
fn needs_none(trail: &Trail, between: &Marks, lit: Lit) -> bool
    ensures none { OnTrue result (IsSpare trail.now between.now lit) }
    ensures some { OnFalse result (IsSpare trail.now between.now lit → ⊥) }
{
    between.has(lit.variable()) || (trail.value(lit) == Some(false) && trail.level_of(lit) == 0)
}

// The negations of the clause's literals are to be visited, but those of this variable.
fn push_visits(tasks: &mut Vec<Task>, lits: &[Lit], own: u32) -> Result<(), AllocError>
    ensures { OnOk result (PutsVisits own lits.now (reverse tasks.old.items)
        (reverse tasks.new.items)) }
{
    for lit in lits {
        if lit.variable() != own {
            tasks.push(Task::Visit(lit.negated()))?;
        }
    }
    Ok(())
}
