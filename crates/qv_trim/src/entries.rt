//! Where the additions of a refutation stand in its text.

ghost use Rattle.std.specs.Prelude.{◌≡◌, [], ℕ, IfOk, List, drop};
ghost use Rattle.qv_cnf.specs.LratLine.{LratLine, line_of};
ghost use Rattle.qv_cnf.specs.Refutation.{adds_none};
ghost use Rattle.qv_trim.specs.Entries.{AreEntries, Notes, NotesStep};
ghost use Rattle.qv_trim.specs.Needed.{up_to_empty};
ghost use Rattle.qv_trim.specs.Texts.{Begins, BeginsWithNone, ReadsStep};

use crate::texts::step_at;
use qv_cnf::Step;
use qv_lrat_text::LineReader;
use std::alloc::AllocError;

/// An addition: its id, and where its line begins.
#[derive(Clone, Copy, Debug)]
pub(crate) struct Entry {
    pub(crate) id: u64,
    pub(crate) start: usize,
}

// Notes a step that begins here, where it is an addition.
fn note(step: &Step, start: usize, entries: &mut Vec<Entry>) -> Result<(), AllocError>
    ensures { IfOk result (λ _. Notes (line_of step.now) start entries.old.items
        entries.new.items) }
{
    if let Step::Add { id, .. } = step {
        entries.push(Entry { id: *id, start })?;
    }
    Ok(())
}

// Whether the step adds a clause without literals.
fn adds_none(step: &Step) -> bool
    ensures { result ≡ adds_none (line_of step.now) }
{
    match step {
        Step::Add { lits, .. } => lits.is_empty(),
        Step::Delete { .. } => false,
    }
}

// Notes a step that begins here, unless a clause without literals was added, and says whether one
// was by then.
fn note_step(
    step: &Step,
    start: usize,
    refuted: bool,
    entries: &mut Vec<Entry>,
) -> Result<bool, AllocError>
    ensures { IfOk result (λ now. NotesStep (line_of step.now) start refuted now
        entries.old.items entries.new.items) }
{
    if refuted {
        return Ok(true);
    }
    note(step, start, entries)?;
    Ok(adds_none(step))
}

/// Notes the additions of a refutation whose text begins here, up to the first without literals,
/// and gives the place behind its last line.
pub(crate) fn note_all(
    text: &[u8],
    from: usize,
    entries: &mut Vec<Entry>,
    reader: &mut LineReader,
) -> Result<usize, AllocError>
    requires { entries.old.items ≡ [] }
    ensures { IfOk result (λ end. (lines : List LratLine) (rest : List ℕ) →
        Begins ReadsStep (drop from text.now) lines rest → BeginsWithNone ReadsStep rest →
        AreEntries text.now (up_to_empty lines) entries.new.items × (drop end text.now ≡ rest)) }
{
    let mut at = from;
    let mut refuted = false;
    'lines: loop {
        let Some(found) = step_at(text, at, reader)? else {
            return Ok(at);
        };
        refuted = note_step(&found.step, at, refuted, entries)?;
        at = found.behind;
        reader.reuse(found.step);
    }
}
