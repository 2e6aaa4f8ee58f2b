//! The additions that are needed are marked.

ghost use Rattle.std.specs.Prelude.{◌≡◌, ◌<◌, ◌+◌, ◌∷◌, [], ℕ, IfOk, IfSome, OnOk, List, Some};
ghost use Rattle.std.specs.Prelude.{false, length, map, unsigned_abs};
ghost use Rattle.qv_cnf.specs.Listing.{Numbered};
ghost use Rattle.qv_cnf.specs.LratLine.{LratLine, line_of};
ghost use Rattle.qv_cnf.specs.Refutation.{Refutes};
ghost use Rattle.qv_trim.specs.Entries.{AreEntries};
ghost use Rattle.qv_trim.specs.Marking.{AreMarked, AreRising, HasId, Marks};
ghost use Rattle.qv_trim.specs.Marking.{ClosedFrom, MarksLast, MarksNamed, MarksNamedBy};
ghost use Rattle.qv_trim.specs.Marking.{Names};
ghost use Rattle.qv_trim.specs.Needed.{up_to_empty};

use crate::entries::Entry;
use crate::texts::step_at;
use qv_cnf::Step;
use qv_lrat_text::LineReader;
use std::alloc::{AllocError, Global};

// The place of the entry of an id, where the ids rise.
fn find(entries: &[Entry], id: u64) -> Option<usize>
    ensures found { IfSome result (HasId entries.now (id ∷ [])) }
    ensures exact { AreRising entries.now → (k : ℕ) → HasId entries.now (id ∷ []) k →
        result ≡ Some k }
{
    let mut low = 0;
    let mut high = entries.len();
    'halves: while low < high {
        let middle = low + (high - low) / 2;
        if entries[middle].id < id {
            low = middle + 1;
        } else {
            high = middle;
        }
    }
    if low < entries.len() && entries[low].id == id {
        Some(low)
    } else {
        None
    }
}

// Marks the entry of an id, if there is one, and says whether it wasn't marked and stands at this
// place or behind it.
fn mark(entries: &[Entry], id: u64, at: usize, marks: &mut [bool]) -> bool
    requires { length marks.old ≡ length entries.now }
    ensures { Marks entries.now (HasId entries.now (id ∷ [])) at marks.old marks.new result }
{
    let Some(place) = find(entries, id) else {
        return false;
    };
    let was = marks[place];
    marks[place] = true;
    !was && at <= place
}

// Marks the entries of the ids that hints name.
fn mark_hinted(entries: &[Entry], hints: &[i64], at: usize, marks: &mut [bool]) -> bool
    requires { length marks.old ≡ length entries.now }
    ensures { Marks entries.now (HasId entries.now (map unsigned_abs hints.now)) at marks.old
        marks.new result }
{
    let mut again = false;
    'hints: for hint in hints {
        again |= mark(entries, hint.unsigned_abs(), at, marks);
    }
    again
}

// Marks the entries that a step names.
fn mark_named(entries: &[Entry], step: &Step, at: usize, marks: &mut [bool]) -> bool
    requires { length marks.old ≡ length entries.now }
    ensures { MarksNamedBy entries.now (line_of step.now) at marks.old marks.new result }
{
    match step {
        Step::Add { hints, .. } => mark_hinted(entries, hints, at, marks),
        Step::Delete { .. } => false,
    }
}

// Marks what the addition at this place names.
fn follow(
    text: &[u8],
    entries: &[Entry],
    at: usize,
    marks: &mut [bool],
    reader: &mut LineReader,
) -> Result<bool, AllocError>
    requires place { at < length entries.now }
    requires each { length marks.old ≡ length entries.now }
    ensures { IfOk result (λ again. Marks entries.now (Names text.now entries.now at) at
        marks.old marks.new again) }
{
    let Some(found) = step_at(text, entries[at].start, reader)? else {
        return Ok(false);
    };
    let again = mark_named(entries, &found.step, at, marks);
    reader.reuse(found.step);
    Ok(again)
}

// Marks what the addition at this place names, if it is marked.
fn follow_marked(
    text: &[u8],
    entries: &[Entry],
    at: usize,
    marks: &mut [bool],
    reader: &mut LineReader,
) -> Result<bool, AllocError>
    requires place { at < length entries.now }
    requires each { length marks.old ≡ length entries.now }
    ensures named { OnOk result (MarksNamed text.now entries.now marks.old marks.new) }
    ensures closed { IfOk result (λ again. again ≡ false →
        ClosedFrom text.now entries.now (at + 1) marks.old →
        ClosedFrom text.now entries.now at marks.new) }
{
    if marks[at] {
        follow(text, entries, at, marks, reader)
    } else {
        Ok(false)
    }
}

// Follows what is marked, from the last entry to the first, and says whether one was marked that
// had been passed.
fn pass(
    text: &[u8],
    entries: &[Entry],
    marks: &mut [bool],
    reader: &mut LineReader,
) -> Result<bool, AllocError>
    requires { length marks.old ≡ length entries.now }
    ensures named { OnOk result (MarksNamed text.now entries.now marks.old marks.new) }
    ensures closed { IfOk result (λ again. again ≡ false → ClosedFrom
        text.now entries.now 0 marks.new) }
{
    let mut at = entries.len();
    let mut again = false;
    'entries: while at > 0 {
        at -= 1;
        again |= follow_marked(text, entries, at, marks, reader)?;
    }
    Ok(again)
}

// Marks what the marked ones name, and what those name, until there is no more.
fn close(
    text: &[u8],
    entries: &[Entry],
    marks: &mut [bool],
    reader: &mut LineReader,
) -> Result<(), AllocError>
    requires { length marks.old ≡ length entries.now }
    ensures named { OnOk result (MarksNamed text.now entries.now marks.old marks.new) }
    ensures closed { OnOk result (ClosedFrom text.now entries.now 0 marks.new) }
{
    'passes: for _count in 0..u64::MAX {
        if !pass(text, entries, marks, reader)? {
            return Ok(());
        }
    }
    // No memory holds as many marks.
    Err(AllocError)
}

// Marks of which the last alone is set.
fn last_marked(alloc: Global, count: usize) -> Result<Vec<bool>, AllocError>
    ensures { IfOk result (λ marks. MarksLast count marks.items) }
{
    let mut marks = Vec::new(alloc);
    marks.resize(count, false)?;
    if count > 0 {
        marks[count - 1] = true;
    }
    Ok(marks)
}

/// Whether each addition of a refutation is needed, up to the first without literals.
pub(crate) fn needed(
    alloc: Global,
    text: &[u8],
    entries: &[Entry],
    reader: &mut LineReader,
) -> Result<Vec<bool>, AllocError>
    ensures { IfOk result (λ marks. (live : List Numbered) (lines : List LratLine) →
        Refutes live lines → AreEntries text.now (up_to_empty lines) entries.now →
        AreMarked (up_to_empty lines) entries.now marks.items) }
{
    let mut marks = last_marked(alloc, entries.len())?;
    close(text, entries, &mut marks, reader)?;
    Ok(marks)
}
