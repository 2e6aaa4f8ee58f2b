//! The budget of a search that is charged to no record.

ghost use Rattle.std.specs.Prelude.{refl, ◌≡◌, ◌≤◌};
ghost use Rattle.std.proofs.Common.{◌∙◌};

use qv_cnf::{Budget, ClauseList, Lit, Spent, Step};

/// Charges for any clauses.
#[derive(Drop)]
pub(crate) struct Tally {
    limit: u64,
    count: u64,
    ghost within: { count ≤ limit },
}

impl Tally {
    /// Nothing is charged yet.
    pub(crate) fn new(limit: u64) -> Tally
        ensures limit { result.limit ≡ limit }
        ensures count { result.count ≡ 0 }
    {
        Tally { limit, count: 0 }
    }
}

impl Budget for Tally {
    ghost limit = { λ t. t.limit };

    ghost count = { λ t. t.count };

    ghost may_charge = { λ t base steps. Unit {0} };

    ghost same_but_count = { λ a b. a.limit ≡ b.limit };

    fn conflict(
        &mut self,
        _base: &ClauseList,
        _steps: &[Step],
        _id: u64,
        _lits: &[Lit],
        _hints: &[u64],
    ) -> Result<(), Spent> {
        if self.count == self.limit {
            return Err(Spent);
        }
        self.count += 1;
        Ok(())
    }

    ghost within = { λ t. t.within };

    ghost same_reflexive = { λ a. refl };

    ghost same_transitive = { λ a b c h k. h ∙ k };

    ghost same_limit = { λ a b same. same };

    ghost deletion = { λ b base steps id ids may derivation. may };
}
