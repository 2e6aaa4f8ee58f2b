//! The steps of a core, as lines.

ghost use Rattle.std.specs.Prelude.{All};
ghost use Rattle.std.specs.Bool.{OnTrue};
ghost use Rattle.qv_cnf.specs.LratLine.{line_of};
ghost use Rattle.qv_lrat_text.specs.Grammar.{IsId, IsHint, HasIds};

use qv_cases_rows::Answer;
use qv_cnf::{Lit, Step};
use qv_lrat_text::print_line;
use std::alloc::{AllocError, Global};
use std::str;

// One more than the greatest id.
const ID_END: u64 = 1 << 62;

fn is_id(id: u64) -> bool
    ensures { OnTrue result (IsId id) }
{
    id >= 1 && id < ID_END
}

fn are_ids(ids: &[u64]) -> bool
    ensures { OnTrue result (All IsId ids.now) }
{
    ids.iter().all(|id| is_id(*id))
}

fn are_hints(hints: &[i64]) -> bool
    ensures { OnTrue result (All IsHint hints.now) }
{
    hints.iter().all(|hint| is_id(hint.unsigned_abs()))
}

fn is_printable(step: &Step) -> bool
    ensures { OnTrue result (HasIds (line_of step.now)) }
{
    match step {
        Step::Add { id, lits: _, hints } => is_id(*id) && are_hints(hints),
        Step::Delete { id, ids } => is_id(*id) && are_ids(ids),
    }
}

/// Says the steps as lines of an LRAT proof.
pub(crate) fn say_all(alloc: Global, steps: &[Step], out: &mut Answer) {
    let mut text = Vec::new(alloc);
    for step in steps {
        if !print_step(step, &mut text) {
            out.refuse();
        }
    }
    out.give(str::from_utf8(without_end(&text)).ok());
}

fn print_step(step: &Step, text: &mut Vec<u8>) -> bool {
    is_printable(step) && print_line(step, text).is_ok()
}

// Lines without the end of the last.
fn without_end(text: &[u8]) -> &[u8] {
    match text {
        [lines @ .., b'\n'] => lines,
        _ => text,
    }
}

/// Says a line for each clause that was learnt: its literals, in the order of their variables.
pub(crate) fn say_learnt(alloc: Global, steps: &[Step], out: &mut Answer) {
    let mut gap = "";
    for step in steps {
        if let Step::Add { lits, .. } = step {
            out.say(gap);
            say_clause(alloc, lits, out);
            gap = "\n";
        }
    }
}

fn say_clause(alloc: Global, lits: &[Lit], out: &mut Answer) {
    match sorted(alloc, lits) {
        Ok(lits) => say_lits(&lits, out),
        Err(_) => out.refuse(),
    }
}

fn sorted(alloc: Global, lits: &[Lit]) -> Result<Vec<Lit>, AllocError> {
    let mut lits = Vec::from_slice(alloc, lits)?;
    lits.sort()?;
    Ok(lits)
}

fn say_lits(lits: &[Lit], out: &mut Answer) {
    for lit in lits {
        out.show(lit.number());
        out.put(' ');
    }
    out.put('0');
}

/// Says a line for each step that deletes clauses: after how many hundreds of additions.
pub(crate) fn say_deletions(steps: &[Step], out: &mut Answer) {
    let mut additions = 0u64;
    let mut gap = "";
    for step in steps {
        match step {
            Step::Add { .. } => additions = additions.saturating_add(1),
            Step::Delete { .. } => {
                out.say(gap);
                out.say("after ");
                out.show(additions / 100 * 100);
                gap = "\n";
            }
        }
    }
}
