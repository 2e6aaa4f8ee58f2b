//! What is kept of a refutation is written.

ghost use Rattle.std.specs.Prelude.{◌≡◌, ◌≤◌, ◌<◌, ◌^◌, ℕ, Err, OnErr, OnOk, List, drop};
ghost use Rattle.qv_io.specs.Count.{Rose};
ghost use Rattle.qv_io.specs.Sink.{Appends};
ghost use Rattle.qv_cnf.specs.LratLine.{LratLine, line_of};
ghost use Rattle.qv_lrat_text.specs.Grammar.{HasIds};
ghost use Rattle.qv_lrat_text.specs.Spelling.{spelling};
ghost use Rattle.qv_trim.specs.Texts.{Begins, BeginsWithNone, ReadsStep};
ghost use Rattle.qv_trim.specs.Sections.{AppendsFront};
ghost use Rattle.qv_trim.specs.Writing.{is_kept, kept_by, kept_now};
ghost use Rattle.qv_trim.specs.Writing.{next_mark, steps_text};

use crate::fault::TrimFault;
use crate::texts::step_at;
use qv_cnf::Step;
use qv_io::{Sink, put_all};
use qv_lrat_text::{LineReader, print_line};

// Writes a step as it is printed, in this memory.
fn write_step<O: Sink>(step: &Step, printed: &mut Vec<u8>, out: &mut O) -> Result<(), TrimFault>
    requires { HasIds (line_of step.now) }
    ensures ok { OnOk result (Appends (O.held out.old) (O.held out.new)
        (spelling (line_of step.now))) }
    ensures err { OnErr result (AppendsFront (O.held out.old) (O.held out.new)
        (spelling (line_of step.now))) }
    ensures write { result ≡ Err TrimFault.Write → Rose (O.faults out.old) (O.faults out.new) }
    ensures count { O.faults out.old ≤ O.faults out.new }
{
    printed.clear();
    print_line(step, printed)?;
    put_all(out, printed)?;
    Ok(())
}

// Whether a step is kept, where this is the next mark.
fn is_kept(step: &Step, mark: bool) -> bool
    ensures { result ≡ is_kept mark (line_of step.now) }
{
    match step {
        Step::Add { .. } => mark,
        Step::Delete { .. } => true,
    }
}

// The place of the mark behind a step.
fn next_mark(step: &Step, nth: usize) -> usize
    requires { nth < 2 ^ 63 }
    ensures { result ≡ next_mark nth (line_of step.now) }
{
    match step {
        Step::Add { .. } => nth + 1,
        Step::Delete { .. } => nth,
    }
}

// Writes a step, if it is kept where this is the next mark.
fn write_kept<O: Sink>(
    step: &Step,
    mark: bool,
    printed: &mut Vec<u8>,
    out: &mut O,
) -> Result<(), TrimFault>
    requires { HasIds (line_of step.now) }
    ensures ok { OnOk result (Appends (O.held out.old) (O.held out.new)
        (steps_text (kept_now mark (line_of step.now)))) }
    ensures err { OnErr result (AppendsFront (O.held out.old) (O.held out.new)
        (steps_text (kept_now mark (line_of step.now)))) }
    ensures write { result ≡ Err TrimFault.Write → Rose (O.faults out.old) (O.faults out.new) }
    ensures count { O.faults out.old ≤ O.faults out.new }
{
    if is_kept(step, mark) {
        write_step(step, printed, out)
    } else {
        Ok(())
    }
}

/// Writes the additions that are marked, up to the last mark, and the deletions before it.
pub(crate) fn write_steps<O: Sink>(
    text: &[u8],
    from: usize,
    marks: &[bool],
    reader: &mut LineReader,
    printed: &mut Vec<u8>,
    out: &mut O,
) -> Result<(), TrimFault>
    ensures ok { OnOk result ((lines : List LratLine) (rest : List ℕ) →
        Begins ReadsStep (drop from text.now) lines rest → BeginsWithNone ReadsStep rest →
        Appends (O.held out.old) (O.held out.new) (steps_text (kept_by marks.now lines))) }
    ensures err { OnErr result ((lines : List LratLine) (rest : List ℕ) →
        Begins ReadsStep (drop from text.now) lines rest → BeginsWithNone ReadsStep rest →
        AppendsFront (O.held out.old) (O.held out.new) (steps_text (kept_by marks.now lines))) }
    ensures write { result ≡ Err TrimFault.Write → Rose (O.faults out.old) (O.faults out.new) }
    ensures count { O.faults out.old ≤ O.faults out.new }
{
    let mut at = from;
    let mut nth = 0;
    'lines: while nth < marks.len() {
        let Some(found) = step_at(text, at, reader)? else {
            return Ok(());
        };
        write_kept(&found.step, marks[nth], printed, out)?;
        nth = next_mark(&found.step, nth);
        at = found.behind;
        reader.reuse(found.step);
    }
    Ok(())
}
