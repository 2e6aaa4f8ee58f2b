//! How much a core did.

ghost use Rattle.std.specs.Prelude.{◌≡◌};
ghost use Rattle.qv_cnf.specs.Derivation.{additions};
ghost use Rattle.qv_cnf.specs.LratLine.{lines_of};
ghost use Rattle.qv_sat.specs.CoreState.{deletions};

use qv_cnf::Step;

/// How much a core did so far.
#[derive(Clone, Copy)]
pub struct Work {
    /// How many clauses it learnt, one from each conflict.
    pub conflicts: u64,
    /// How often it took learnt clauses away.
    pub reductions: u64,
}

/// How a core searched so far, for measurements. No clause speaks of it.
#[derive(Clone, Copy)]
pub struct Policy {
    pub restarts: u64,
    /// How often learnt clauses were looked through while literals were assumed.
    pub reductions_above_zero: u64,
}

// What steps say of the work.
pub(crate) fn work_in(steps: &[Step]) -> Work
    ensures conflicts { result.conflicts ≡ additions (lines_of steps.now) }
    ensures reductions { result.reductions ≡ deletions (lines_of steps.now) }
{
    let mut conflicts = 0u64;
    let mut reductions = 0u64;
    'steps: for step in steps {
        match step {
            Step::Add { .. } => conflicts += 1,
            Step::Delete { .. } => reductions += 1,
        }
    }
    Work {
        conflicts,
        reductions,
    }
}
