//! Budgets of conflicts.

ghost use Rattle.std.specs.Prelude.{◌≡◌, ℕ, ◌+◌, ◌^◌, ◌<◌, ◌≤◌, ◌↔◌, List, [], ◌∷◌, ◌++◌, IsErr};
ghost use Rattle.std.specs.Prelude.{OnOk, OnErr};
ghost use Rattle.qv_cnf.specs.Counting.{MayCharge, SameButCount, limit_of};
ghost use Rattle.qv_cnf.specs.Derivation.{IsDerivation, addition_of};
ghost use Rattle.qv_cnf.specs.Listing.{Numbered, clauses_of};
ghost use Rattle.qv_cnf.specs.LratLine.{LratLine, Deletion, lines_of};

use super::{ClauseList, Lit, Spent, Step};
use std::marker::Model;

/// Charges for the conflicts of a solver. Each is paid by a clause that a derivation adds.
pub trait Budget {
    /// How many conflicts may be charged in all.
    ghost limit: { Self → ℕ };

    /// How many were charged.
    ghost count: { Self → ℕ };

    /// Holds where a base with these steps over it may be charged.
    ghost may_charge: { Self → List Numbered → List LratLine → Type 0 };

    /// Equal but for the count.
    ghost same_but_count: { Self → Self → Type 0 };

    /// Charges a conflict: the steps over the base go on by the addition of a clause.
    fn conflict(
        &mut self,
        base: &ClauseList,
        steps: &[Step],
        id: u64,
        lits: &[Lit],
        hints: &[u64],
    ) -> Result<(), Spent>
        requires may { may_charge self.old base.now.live (lines_of steps.now) }
        requires derivation { IsDerivation base.now.live
            (lines_of steps.now ++ addition_of id lits.now hints.now ∷ []) }
        ensures spent { IsErr result ↔ (count self.old ≡ limit self.old) }
        ensures unchanged { OnErr result (self.new ≡ self.old) }
        ensures charged { OnOk result (count self.new ≡ count self.old + 1) }
        ensures may { OnOk result
            (may_charge self.new base.now.live
            (lines_of steps.now ++ addition_of id lits.now hints.now ∷ [])) }
        ensures same { same_but_count self.old self.new };

    /// The count is never above the limit.
    ghost within: { (b : Self) → count b ≤ limit b };

    ghost same_reflexive: { (b : Self) → same_but_count b b };

    ghost same_transitive: { (a b c : Self) → same_but_count a b → same_but_count b c →
        same_but_count a c };

    ghost same_limit: { (a b : Self) → same_but_count a b → limit a ≡ limit b };

    /// What may be charged may be charged after a deletion with which the steps are a derivation.
    ghost deletion: { (b : Self) (base : List Numbered) (steps : List LratLine) (id : ℕ)
        (ids : List ℕ) → may_charge b base steps →
        IsDerivation base (steps ++ Deletion id ids ∷ []) →
        may_charge b base (steps ++ Deletion id ids ∷ []) };
}

/// A budget for a solver that is used by itself.
#[derive(Debug, Drop)]
pub struct Counter {
    base: ClauseList,
    limit: u64,
    count: u64,
}

impl Model for Counter {
    ghost use Rattle.std.specs.Prelude.{◌-◌, ◌≤◌};
    ghost use Rattle.qv_cnf.specs.Counting.{Counting};
    ghost use Rattle.qv_cnf.specs.Listing.{clauses_of};

    ghost Value = { Counting };

    ghost view = { λ a. record {
      base = clauses_of a.base.live;
      count = a.count;
      left = a.limit - a.count;
    } };

    ghost invariant = { λ a. a.count ≤ a.limit };
}

impl Counter {
    /// No conflict is charged yet. The steps to be charged are over these clauses.
    pub fn new(base: ClauseList, limit: u64) -> Counter
        requires { limit < 2 ^ 60 }
        ensures { result ≡ record { base = clauses_of base.live; count = 0; left = limit } }
    {
        Counter {
            base,
            limit,
            count: 0,
        }
    }

    /// How many conflicts were charged.
    pub fn count(&self) -> u64
        ensures { result ≡ self.now.count }
    {
        self.count
    }
}

impl Budget for Counter {
    ghost use Rattle.qv_cnf.specs.Counting.{count_within, SameButCount-reflexive};
    ghost use Rattle.qv_cnf.specs.Counting.{SameButCount-transitive, MayCharge-deletion};

    ghost limit = { limit_of };

    ghost count = { λ c. c.count };

    ghost may_charge = { MayCharge };

    ghost same_but_count = { SameButCount };

    fn conflict(
        &mut self,
        _base: &ClauseList,
        _steps: &[Step],
        _id: u64,
        _lits: &[Lit],
        _hints: &[u64],
    ) -> Result<(), Spent> {
        if self.count == self.limit {
            return Err(Spent);
        }
        self.count += 1;
        Ok(())
    }

    ghost within = { count_within };

    ghost same_reflexive = { SameButCount-reflexive };

    ghost same_transitive = { SameButCount-transitive };

    ghost same_limit = { λ a b same. same.limit };

    ghost deletion = { MayCharge-deletion };
}
