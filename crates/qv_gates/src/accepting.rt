//! How steps are looked at.

ghost use Rattle.std.specs.Prelude.{◌≡◌, ◌∷◌, []};
ghost use Rattle.qv_cnf.specs.LratLine.{line_of, lines_of};
ghost use Rattle.qv_cnf.specs.Refutation.{Accepted, after_line, judged_rup};
ghost use Rattle.std.specs.Bool.{OnTrue, OnFalse};
ghost use Rattle.qv_gates.specs.Closing.{IsAdded};
ghost use Rattle.qv_gates.specs.Checked.{AddsClause, IsAddition};

use qv_cnf::{Lit, Step};
use qv_rup::Checker;

/// Whether a checker takes a step, which adds a clause that follows by unit propagation.
pub(crate) fn takes(checker: &mut Checker, step: &Step) -> bool
    ensures addition { OnTrue result (IsAddition (line_of step.now)) }
    ensures judged { OnTrue result (judged_rup checker.old (line_of step.now) ≡ Accepted) }
    ensures taken { OnTrue result (checker.new ≡ after_line checker.old (line_of step.now)) }
    ensures refused { OnFalse result (checker.new ≡ checker.old) }
{
    match step {
        Step::Add { .. } => match checker.rup_step(step) {
            Ok(()) => true,
            Err(_) => false,
        },
        Step::Delete { .. } => false,
    }
}

/// Whether the step at a place adds the clause of two literals.
pub(crate) fn shows(steps: &[Step], place: usize, a: Lit, b: Lit) -> bool
    ensures { OnTrue result (IsAdded (lines_of steps.now) (a ∷ b ∷ [])) }
{
    match steps.get(place) {
        Some(step) => adds(step, a, b),
        None => false,
    }
}

// Whether the step adds the clause of two literals.
fn adds(step: &Step, a: Lit, b: Lit) -> bool
    ensures { OnTrue result (AddsClause (line_of step.now) (a ∷ b ∷ [])) }
{
    match step {
        Step::Add { lits, .. } => are(lits, a, b),
        Step::Delete { .. } => false,
    }
}

// Whether these are the two literals, in this order.
fn are(lits: &[Lit], a: Lit, b: Lit) -> bool
    ensures { OnTrue result (lits.now ≡ a ∷ b ∷ []) }
{
    match lits {
        [x, y] => *x == a && *y == b,
        _ => false,
    }
}
