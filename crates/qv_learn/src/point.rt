//! The first unique implication point of a conflict.

ghost use Rattle.std.specs.Prelude.{◌≡◌, ◌≤◌, ℕ, List, [], ◌∷◌, true, Some, All, IfOk, IfSome};
ghost use Rattle.std.specs.Prelude.{IsSome, OnOk};
ghost use Rattle.qv_cnf.specs.Literal.{Literal};
ghost use Rattle.qv_cnf.specs.Refutation.{among};
ghost use Rattle.qv_learn.specs.Frontiers.{HasPoint, IsAlone, IsFrontier, IsPending, MayReach};
ghost use Rattle.qv_learn.specs.Frontiers.{Places, Reaches, Resolves};
ghost use Rattle.qv_learn.specs.Learning.{level_at};
ghost use Rattle.qv_watch.specs.Entries.{value_of};
ghost use Rattle.qv_watch.specs.TrailState.{IsTrail};

use super::marks::Marks;
use qv_cnf::Lit;
use qv_watch::{Propagated, Trail};
use std::alloc::{AllocError, Global};

// Where the search stands. A literal that was reached is true and of the present level, and the
// conflict comes of it.
#[derive(Drop)]
pub(crate) struct Frontier {
    // The variables of the literals that were reached.
    pub(crate) marks: Marks,
    // The reached literals that are still to be resolved.
    pub(crate) pending: Vec<Lit>,
    // The reached literal that came first on the trail.
    pub(crate) lowest: Lit,
    // The variables of levels between 0 and the present one that the clauses have.
    pub(crate) between: Marks,
}

// The first unique implication point of a conflict above level 0.
// It looks at the conflict's clause and at the reasons of the literals that it resolves, once at
// each, and at nothing else of the trail.
pub(crate) fn first_point(
    frontier: &mut Frontier,
    trail: &Trail,
    conflict: u64,
) -> Result<Lit, AllocError>
    requires conflict { trail.now.answer ≡ Some (Propagated.Conflict conflict) }
    requires above_zero { 1 ≤ trail.now.level }
    ensures { IfOk result (λ u. (set : List ℕ) ×
        HasPoint trail.now conflict (u ∷ []) set frontier.new.between) }
{
    let present = trail.level();
    let clause = trail.clause(conflict).unwrap();
    let start = first_of_level(trail, clause, present).unwrap();
    frontier.start(start.negated())?;
    frontier.reach_all(trail, clause)?;
    while let Some(lit) = frontier.pending.pop() {
        frontier.resolve(trail, lit)?;
    }
    Ok(frontier.lowest)
}

// The first of the literals that is of that level.
fn first_of_level(trail: &Trail, lits: &[Lit], level: u32) -> Option<Lit>
    requires { All (λ l. IsSome (value_of trail.now.entries l)) lits.now }
    ensures found { IfSome result (λ l. (among lits.now l ≡ true) ×
        (level_at trail.now.entries l ≡ level)) }
    ensures some { (l : Literal) → among lits.now l ≡ true → level_at trail.now.entries l ≡ level →
        IsSome result }
{
    for lit in lits {
        if trail.level_of(*lit) == level {
            return Some(*lit);
        }
    }
    None
}

impl Frontier {
    // With nothing reached.
    pub(crate) fn new(alloc: Global) -> Frontier {
        Frontier {
            marks: Marks::new(alloc),
            pending: Vec::new(alloc),
            lowest: Lit::default(),
            between: Marks::new(alloc),
        }
    }

    // Begins anew, with this literal alone reached.
    fn start(&mut self, lit: Lit) -> Result<(), AllocError>
        ensures { OnOk result (IsAlone lit self.new) }
    {
        self.marks.clear();
        self.between.clear();
        self.pending.clear();
        self.lowest = lit;
        self.marks.mark(lit.variable())?;
        Ok(())
    }

    // Resolves a pending literal: reaches the others of its reason.
    fn resolve(&mut self, trail: &Trail, lit: Lit) -> Result<(), AllocError>
        requires trail { IsTrail trail.now }
        requires frontier { IsFrontier trail.now self.old }
        requires pending { IsPending trail.now self.old.marks self.old.lowest lit }
        ensures { OnOk result (Resolves trail.now lit self.old self.new) }
    {
        let id = trail.reason(lit).unwrap();
        let reason = trail.clause(id).unwrap();
        self.reach_all(trail, reason)
    }

    // Reaches the negations of the clause's literals.
    fn reach_all(&mut self, trail: &Trail, clause: &[Lit]) -> Result<(), AllocError>
        requires trail { IsTrail trail.now }
        requires frontier { IsFrontier trail.now self.old }
        requires may { All (MayReach trail.now self.old.marks) clause.now }
        ensures { OnOk result (Reaches trail.now clause.now self.old self.new) }
    {
        for lit in clause {
            self.reach(trail, *lit)?;
        }
        Ok(())
    }

    // Reaches the negation of a literal of the present level, and notes the variable of one of a
    // level between.
    fn reach(&mut self, trail: &Trail, lit: Lit) -> Result<(), AllocError>
        requires trail { IsTrail trail.now }
        requires frontier { IsFrontier trail.now self.old }
        requires may { MayReach trail.now self.old.marks lit }
        ensures { OnOk result (Reaches trail.now (lit ∷ []) self.old self.new) }
    {
        let level = trail.level_of(lit);
        if level == trail.level() {
            return self.reach_present(trail, lit);
        }
        if level > 0 {
            self.between.mark(lit.variable())?;
        }
        Ok(())
    }

    // Reaches the negation of a literal of the present level, unless its variable is marked.
    fn reach_present(&mut self, trail: &Trail, lit: Lit) -> Result<(), AllocError>
        requires trail { IsTrail trail.now }
        requires frontier { IsFrontier trail.now self.old }
        requires may { MayReach trail.now self.old.marks lit }
        requires level { level_at trail.now.entries lit ≡ trail.now.level }
        ensures { OnOk result (Reaches trail.now (lit ∷ []) self.old self.new) }
    {
        if self.marks.mark(lit.variable())? {
            self.place(trail, lit.negated())?;
        }
        Ok(())
    }

    // Makes a literal the lowest, or pending where the lowest came before it.
    fn place(&mut self, trail: &Trail, lit: Lit) -> Result<(), AllocError>
        requires trail { IsTrail trail.now }
        requires value { IsSome (value_of trail.now.entries lit) }
        requires lowest { IsSome (value_of trail.now.entries self.old.lowest) }
        ensures { OnOk result (Places trail.now lit self.old self.new) }
    {
        if trail.position(lit) < trail.position(self.lowest) {
            self.pending.push(self.lowest)?;
            self.lowest = lit;
        } else {
            self.pending.push(lit)?;
        }
        Ok(())
    }
}
