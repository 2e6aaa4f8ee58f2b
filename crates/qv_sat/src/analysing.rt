//! The clause that is learnt from a conflict, as a solver sees it.

ghost use Rattle.std.specs.Prelude.{◌≡◌, Some, IfOk};
ghost use Rattle.qv_learn.specs.Learning.{AreMet};
ghost use Rattle.qv_sat.specs.Learnt.{IsLearnt};

use qv_learn::{Learner, Learnt};
use qv_watch::{Propagated, Trail};
use std::alloc::AllocError;

// Learns from the conflict that propagation answered last. What a solver needs to know of the
// clause is one fact here, so that its proof has no others to look through.
pub(crate) fn analyse(
    learner: &mut Learner,
    trail: &Trail,
    conflict: u64,
) -> Result<Learnt, AllocError>
    requires { trail.now.answer ≡ Some (Propagated.Conflict conflict) }
    ensures learnt { IfOk result (λ learnt.
        IsLearnt trail.now learnt.lits.items learnt.hints.items learnt.level) }
    ensures met { IfOk result (λ learnt. AreMet trail.now learnt.hints.items learner.new) }
{
    learner.analyse(trail, conflict)
}
