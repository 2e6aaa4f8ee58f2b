//! Steps as a case writes them: `ID LITERALS ; HINTS` adds, `ID IDS` deletes.

ghost use Rattle.std.specs.Prelude.{All};
ghost use Rattle.std.specs.Bool.{OnTrue};
ghost use Rattle.qv_cnf.specs.LratLine.{line_of};
ghost use Rattle.qv_lrat_text.specs.Grammar.{IsId, IsHint, HasIds};

use qv_cases_rows::{Answer, Words};
use qv_cnf::{Lit, Step};
use std::alloc::Global;
use std::fmt::Display;

// One more than the greatest id.
const ID_END: u64 = 1 << 62;

fn is_id(id: u64) -> bool
    ensures { OnTrue result (IsId id) }
{
    id >= 1 && id < ID_END
}

fn are_ids(ids: &[u64]) -> bool
    ensures { OnTrue result (All IsId ids.now) }
{
    ids.iter().all(|id| is_id(*id))
}

fn is_hint(hint: i64) -> bool
    ensures { OnTrue result (IsHint hint) }
{
    is_id(hint.unsigned_abs())
}

fn are_hints(hints: &[i64]) -> bool
    ensures { OnTrue result (All IsHint hints.now) }
{
    hints.iter().all(|hint| is_hint(*hint))
}

/// Whether the step may be printed: its ids and hints are in their ranges.
pub fn is_printable(step: &Step) -> bool
    ensures { OnTrue result (HasIds (line_of step.now)) }
{
    match step {
        Step::Add { id, lits: _, hints } => is_id(*id) && are_hints(hints),
        Step::Delete { id, ids } => is_id(*id) && are_ids(ids),
    }
}

/// The addition that a case writes as `ID LITERALS ; HINTS`.
pub fn addition(alloc: Global, words: &mut Words<'_>, out: &mut Answer) -> Step {
    let id = words.number();
    let (front, back) = words.rest().split_once(';').unwrap_or(("", "-"));
    let mut front = Words::new(front);
    let mut back = Words::new(back);
    let lits = front.each(alloc, literal);
    let hints = back.each(alloc, |word| word.parse::<i64>().ok());
    if !front.are_read() || !back.are_read() {
        out.refuse();
    }
    Step::Add { id, lits, hints }
}

fn literal(word: &str) -> Option<Lit> {
    Lit::new(word.parse::<i32>().ok()?)
}

/// The deletion that a case writes as `ID IDS`.
pub fn deletion(alloc: Global, words: &mut Words<'_>) -> Step {
    let id = words.number();
    let ids = words.each(alloc, |word| word.parse::<u64>().ok());
    Step::Delete { id, ids }
}

/// Says the step as a case writes it.
pub fn say_step(out: &mut Answer, step: &Step) {
    match step {
        Step::Add { id, lits, hints } => {
            out.say("add ");
            out.show(*id);
            say_lits(out, lits);
            out.say(" ;");
            say_numbers(out, hints);
        }
        Step::Delete { id, ids } => {
            out.say("delete ");
            out.show(*id);
            say_numbers(out, ids);
        }
    }
}

// Says hints or ids.
fn say_numbers<N: Display + Copy>(out: &mut Answer, numbers: &[N]) {
    for number in numbers {
        out.put(' ');
        out.show(*number);
    }
}

fn say_lits(out: &mut Answer, lits: &[Lit]) {
    for lit in lits {
        out.put(' ');
        out.show(lit.number());
    }
}
