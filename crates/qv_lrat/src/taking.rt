//! What a line of a proof does to a checker.

ghost use Rattle.std.specs.Prelude.{Some, IfOk};
ghost use Rattle.qv_cnf.specs.LratLine.{line_of};
ghost use Rattle.qv_lrat_text.specs.Grammar.{lrat_line};
ghost use Rattle.qv_lrat.specs.Judging.{IsTaken};

use qv_cert::RefusalKind;
use qv_cnf::Step;
use qv_lrat_text::{LineFault, LineReader};
use qv_rup::{Checker, StepFault};
use std::alloc::AllocError;

/// Takes a line, and says why it is refused if it is.
pub(crate) fn take_line(
    checker: &mut Checker,
    steps: &mut LineReader,
    text: &[u8],
) -> Result<Option<RefusalKind>, AllocError>
    ensures { IfOk result (λ refused.
        IsTaken checker.old (lrat_line text.now) refused checker.new) }
{
    match steps.read(text) {
        Ok(step) => {
            let taken = take_step(checker, &step);
            steps.reuse(step);
            taken
        }
        Err(LineFault::Form) => Ok(Some(RefusalKind::Form)),
        Err(LineFault::NoMemory) => Err(AllocError),
    }
}

// Takes a step. Once the clauses are refuted any step goes.
fn take_step(checker: &mut Checker, step: &Step) -> Result<Option<RefusalKind>, AllocError>
    ensures { IfOk result (λ refused.
        IsTaken checker.old (Some (line_of step.now)) refused checker.new) }
{
    if checker.is_refuted() {
        return Ok(None);
    }
    match checker.step(step) {
        Ok(()) => Ok(None),
        Err(StepFault::Order) => Ok(Some(RefusalKind::Id)),
        Err(StepFault::Rat { hint }) => Ok(Some(RefusalKind::Rat { hint })),
        Err(StepFault::Hint { hint }) => Ok(Some(RefusalKind::Hint { hint })),
        Err(StepFault::Open) => Ok(Some(RefusalKind::Open)),
        Err(StepFault::NoMemory) => Err(AllocError),
    }
}
