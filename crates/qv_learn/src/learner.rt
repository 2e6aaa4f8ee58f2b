//! What learns from conflicts.

ghost use Rattle.std.specs.Prelude.{◌≡◌, ◌≢◌, ◌<◌, ◌≤◌, ◌⊎◌, ℕ, List, ◌∷◌, ◌++◌, true, false, []};
ghost use Rattle.std.specs.Prelude.{Some, None, IsSome, All, AllPairs, IfOk, map, pos};
ghost use Rattle.std.specs.Option.{option_to_list};
ghost use Rattle.qv_cnf.specs.Derivation.{spares_hint, spares_literal};
ghost use Rattle.qv_cnf.specs.Listing.{clause_named};
ghost use Rattle.qv_cnf.specs.Literal.{Literal};
ghost use Rattle.qv_cnf.specs.Refutation.{among, IsRup};
ghost use Rattle.qv_learn.specs.Analysing.{IsAnalysed};
ghost use Rattle.qv_learn.specs.Frontiers.{HasPoint};
ghost use Rattle.qv_learn.specs.Learning.{level_at, AreMet, Asserts, LearnsPoint, MayBeLeftOut};
ghost use Rattle.qv_learn.specs.Learning.{MayStand};
ghost use Rattle.qv_watch.specs.Entries.{value_of};
ghost use Rattle.qv_watch.specs.TrailState.{IsTrail};

use super::analysis::Learnt;
use super::point::{Frontier, first_point};
use super::search::Search;
use qv_cnf::Lit;
use qv_watch::{Propagated, Trail};
use std::alloc::{AllocError, Global};
use std::marker::Model;

/// Learns from conflicts, one after another, with memory that is used again: a flag a variable and
/// the stacks of the search. So a conflict takes memory for the learnt clause and its hints alone.
#[derive(Drop)]
pub struct Learner {
    alloc: Global,
    frontier: Frontier,
    search: Search,
}

impl Model for Learner {
    ghost use Rattle.std.specs.Prelude.{List, ℕ};

    ghost Value = { List ℕ };

    ghost view = { λ a. a.search.marks };
}

impl Learner {
    /// With no memory yet.
    pub fn new(alloc: Global) -> Learner {
        Learner {
            alloc,
            frontier: Frontier::new(alloc),
            search: Search::new(alloc),
        }
    }

    /// Learns a clause from the conflict that propagation answered last. It is false on the trail,
    /// and follows from attached clauses.
    /// At level 0 it has no literals; above level 0 one of its literals is of the present level:
    /// the negation of the first unique implication point (Zhang, Madigan, Moskewicz and Malik,
    /// Efficient conflict driven learning in a Boolean satisfiability solver, 2001). The work is
    /// linear in the literals of the clauses that are resolved, however long the trail is. After
    /// an `Err` it may be used again.
    pub fn analyse(&mut self, trail: &Trail, conflict: u64) -> Result<Learnt, AllocError>
        requires { trail.now.answer ≡ Some (Propagated.Conflict conflict) }

        // What it has of the conflict are the variables that it met.
        ensures met { IfOk result (λ learnt.
            AreMet trail.now learnt.hints.items self.new) }

        // It follows by its hints.
        ensures rup { IfOk result (λ learnt.
            IsRup trail.now.clauses learnt.lits.items (map pos learnt.hints.items)) }
        ensures attached { IfOk result (λ learnt.
            All (λ id. IsSome (clause_named id trail.now.clauses)) learnt.hints.items) }

        // Each of its literals is needed for that, and each of its hints.
        ensures literals_needed { IfOk result (λ learnt. spares_literal trail.now.clauses
            learnt.lits.items (map pos learnt.hints.items) ≡ false) }
        ensures hints_needed { IfOk result (λ learnt. spares_hint trail.now.clauses
            learnt.lits.items (map pos learnt.hints.items) ≡ false) }

        // The conflict's clause is the last hint, so each hint is looked at.
        ensures last { IfOk result
            (λ learnt. (before : List ℕ) × (learnt.hints.items ≡ before ++ conflict ∷ [])) }

        // Its literals are false, each of another variable, none since level 0.
        ensures falsified { IfOk result (λ learnt.
            All (λ l. value_of trail.now.entries l ≡ Some false) learnt.lits.items) }
        ensures apart { IfOk result (λ learnt.
            AllPairs (λ l m. l.variable ≢ m.variable) learnt.lits.items) }
        ensures above_zero { IfOk result (λ learnt.
            All (λ l. 1 ≤ level_at trail.now.entries l) learnt.lits.items) }
        ensures at_zero { trail.now.level ≡ 0 → IfOk result (λ learnt. (learnt.lits.items ≡ []) ×
            (learnt.level ≡ 0)) }
        ensures asserts { 1 ≤ trail.now.level → IfOk result (λ learnt.
            Asserts trail.now learnt.lits.items learnt.level) }

        // Below the present level it has the literals of the clauses that were resolved, or fewer.
        ensures others { IfOk result (λ learnt.
            All (λ l. level_at trail.now.entries l < trail.now.level →
            MayStand trail.now conflict learnt.hints.items l) learnt.lits.items) }
        ensures left_out { IfOk result (λ learnt. (l : Literal) →
            MayStand trail.now conflict learnt.hints.items l → (among learnt.lits.items l ≡ true) ⊎
            MayBeLeftOut trail.now conflict learnt.hints.items l) }
        ensures minimal { IfOk result (λ learnt.
            All (λ l. level_at trail.now.entries l < trail.now.level →
            MayBeLeftOut trail.now conflict learnt.hints.items l → ⊥) learnt.lits.items) }

        // The literal of the present level is the negation of the first unique implication point.
        ensures first_point { 1 ≤ trail.now.level → IfOk result (λ learnt.
            LearnsPoint trail.now conflict learnt.lits.items) }
    {
        learn(
            self.alloc,
            &mut self.frontier,
            &mut self.search,
            trail,
            conflict,
        )
    }

    /// The variables that the last analysis met: those of the clauses that the hints name.
    pub fn met(&self) -> &[u32]
        ensures { result.now ≡ self.now }
    {
        self.search.met()
    }
}

// Finds the first unique implication point, and then what the conflict comes of.
fn learn(
    alloc: Global,
    frontier: &mut Frontier,
    search: &mut Search,
    trail: &Trail,
    conflict: u64,
) -> Result<Learnt, AllocError>
    requires { trail.now.answer ≡ Some (Propagated.Conflict conflict) }
    ensures learnt { IfOk result (λ learnt.
        IsAnalysed trail.now conflict learnt.lits.items learnt.hints.items learnt.level) }
    ensures met { IfOk result (λ learnt.
        AreMet trail.now learnt.hints.items search.new.marks) }
{
    let point = point_of(frontier, trail, conflict)?;
    search.start(trail, conflict, point, &frontier.between)?;
    while let Some(task) = search.next() {
        search.turn(trail, &frontier.between, task)?;
    }
    search.finish(alloc, conflict)
}

// The first unique implication point, above level 0.
fn point_of(
    frontier: &mut Frontier,
    trail: &Trail,
    conflict: u64,
) -> Result<Option<Lit>, AllocError>
    requires { trail.now.answer ≡ Some (Propagated.Conflict conflict) }
    ensures trail { IsTrail trail.now }
    ensures none { trail.now.level ≡ 0 → IfOk result (λ point. point ≡ None) }
    ensures point { 1 ≤ trail.now.level → IfOk result (λ point. (set : List ℕ) ×
        HasPoint trail.now conflict (option_to_list point) set frontier.new.between) }
{
    if trail.level() == 0 {
        return Ok(None);
    }
    Ok(Some(first_point(frontier, trail, conflict)?))
}
