//! Whether ids can be written.

ghost use Rattle.std.specs.Prelude.{◌↔◌, All, IsTrue};
ghost use Rattle.qv_cnf.specs.LratLine.{line_of};
ghost use Rattle.qv_lrat_text.specs.Grammar.{HasIds, IsHint, IsId};

use qv_cnf::Step;

/// Whether the ids of steps can be written.
pub fn have_ids(steps: &[Step]) -> bool
    ensures { IsTrue result ↔ All (λ step. HasIds (line_of step)) steps.now }
{
    steps.iter().all(|step| has_ids(step))
}

// Whether those of a step can be.
fn has_ids(step: &Step) -> bool
    ensures { IsTrue result ↔ HasIds (line_of step.now) }
{
    match step {
        Step::Add { id, hints, .. } => is_id(*id) && are_hints(hints),
        Step::Delete { id, ids } => is_id(*id) && are_ids(ids),
    }
}

fn are_hints(hints: &[i64]) -> bool
    ensures { IsTrue result ↔ All IsHint hints.now }
{
    hints.iter().all(|hint| is_id(hint.unsigned_abs()))
}

fn are_ids(ids: &[u64]) -> bool
    ensures { IsTrue result ↔ All IsId ids.now }
{
    ids.iter().all(|id| is_id(*id))
}

fn is_id(id: u64) -> bool
    ensures { IsTrue result ↔ IsId id }
{
    1 <= id && id < 1 << 62
}
