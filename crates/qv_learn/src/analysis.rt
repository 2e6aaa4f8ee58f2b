//! The clause that is learnt from a conflict.

ghost use Rattle.std.specs.Prelude.{◌≡◌, ◌≢◌, ◌<◌, ◌≤◌, ◌⊎◌, ℕ, List, ◌∷◌, ◌++◌, true, false, []};
ghost use Rattle.std.specs.Prelude.{Some, None, IsSome, All, AllPairs, IfOk, map, pos};
ghost use Rattle.qv_cnf.specs.Derivation.{spares_hint, spares_literal};
ghost use Rattle.qv_cnf.specs.Listing.{clause_named};
ghost use Rattle.qv_cnf.specs.Literal.{Literal};
ghost use Rattle.qv_cnf.specs.Refutation.{among, IsRup};
ghost use Rattle.qv_learn.specs.Learning.{level_at, Asserts, LearnsPoint, MayBeLeftOut, MayStand};
ghost use Rattle.qv_watch.specs.Entries.{value_of};

use super::learner::Learner;
use qv_cnf::Lit;
use qv_watch::{Propagated, Trail};
use std::alloc::{AllocError, Global};

/// A clause that follows from the attached ones.
#[derive(Debug, Drop)]
pub struct Learnt {
    /// The literals. Above level 0 the first is of the present level.
    pub lits: Vec<Lit>,
    /// The ids of the clauses that it follows from, in the order in which a checker takes them.
    pub hints: Vec<u64>,
    /// The greatest level of the other literals, or 0.
    pub level: u32,
}

/// Learns from one conflict alone. Who learns from many keeps a `Learner`, whose method of this
/// name does the same.
pub fn analyse(alloc: Global, trail: &Trail, conflict: u64) -> Result<Learnt, AllocError>
    requires { trail.now.answer ≡ Some (Propagated.Conflict conflict) }

    // It follows by its hints.
    ensures rup { IfOk result (λ learnt.
        IsRup trail.now.clauses learnt.lits.items (map pos learnt.hints.items)) }
    ensures attached { IfOk result (λ learnt.
        All (λ id. IsSome (clause_named id trail.now.clauses)) learnt.hints.items) }

    // Each of its literals is needed for that, and each of its hints.
    ensures literals_needed { IfOk result (λ learnt. spares_literal trail.now.clauses
        learnt.lits.items (map pos learnt.hints.items) ≡ false) }
    ensures hints_needed { IfOk result (λ learnt. spares_hint trail.now.clauses
        learnt.lits.items (map pos learnt.hints.items) ≡ false) }

    // The conflict's clause is the last hint, so each hint is looked at.
    ensures last { IfOk result
        (λ learnt. (before : List ℕ) × (learnt.hints.items ≡ before ++ conflict ∷ [])) }

    // Its literals are false, each of another variable, none since level 0.
    ensures falsified { IfOk result (λ learnt.
        All (λ l. value_of trail.now.entries l ≡ Some false) learnt.lits.items) }
    ensures apart { IfOk result (λ learnt.
        AllPairs (λ l m. l.variable ≢ m.variable) learnt.lits.items) }
    ensures above_zero { IfOk result (λ learnt.
        All (λ l. 1 ≤ level_at trail.now.entries l) learnt.lits.items) }
    ensures at_zero { trail.now.level ≡ 0 → IfOk result (λ learnt. (learnt.lits.items ≡ []) ×
        (learnt.level ≡ 0)) }
    ensures asserts { 1 ≤ trail.now.level → IfOk result (λ learnt.
        Asserts trail.now learnt.lits.items learnt.level) }

    // Below the present level it has the literals of the clauses that were resolved, or fewer.
    ensures others { IfOk result (λ learnt.
        All (λ l. level_at trail.now.entries l < trail.now.level →
        MayStand trail.now conflict learnt.hints.items l) learnt.lits.items) }
    ensures left_out { IfOk result (λ learnt. (l : Literal) →
        MayStand trail.now conflict learnt.hints.items l → (among learnt.lits.items l ≡ true) ⊎
        MayBeLeftOut trail.now conflict learnt.hints.items l) }
    ensures minimal { IfOk result (λ learnt.
        All (λ l. level_at trail.now.entries l < trail.now.level →
        MayBeLeftOut trail.now conflict learnt.hints.items l → ⊥) learnt.lits.items) }

    // The literal of the present level is the negation of the first unique implication point.
    ensures first_point { 1 ≤ trail.now.level → IfOk result (λ learnt.
        LearnsPoint trail.now conflict learnt.lits.items) }
{
    let mut learner = Learner::new(alloc);
    learner.analyse(trail, conflict)
}
