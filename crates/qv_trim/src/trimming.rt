//! A section is trimmed.

ghost use Rattle.std.specs.Prelude.{◌≡◌, ◌≤◌, ℕ, IfOk, OnErr, List, Err, drop, flat_map};
ghost use Rattle.std.specs.Prelude.{length};
ghost use Rattle.qv_io.specs.Count.{Rose};
ghost use Rattle.qv_io.specs.Sink.{Appends};
ghost use Rattle.qv_words.specs.declared.op.Answer.{Answer};
ghost use Rattle.qv_cnf.specs.Listing.{Numbered};
ghost use Rattle.qv_cnf.specs.LratLine.{LratLine};
ghost use Rattle.qv_cnf.specs.Refutation.{Refutes};
ghost use Rattle.qv_cert.specs.Line.{CertLine};
ghost use Rattle.qv_cert.specs.Section.{Task};
ghost use Rattle.qv_cert.specs.Spelling.{cert_text};
ghost use Rattle.qv_trim.specs.Needed.{IsTrimmed};
ghost use Rattle.qv_trim.specs.Sections.{AppendsFront, BeginsWithSection};
ghost use Rattle.qv_trim.specs.Sections.{IsTrimmedSection};
ghost use Rattle.qv_trim.specs.Texts.{Begins, BeginsWith, BeginsWithNone, ReadsStep};
ghost use Rattle.qv_trim.specs.Writing.{steps_text};

use crate::entries::note_all;
use crate::fault::TrimFault;
use crate::front::write_front;
use crate::marking::needed;
use crate::texts::line_at;
use crate::writing::write_steps;
use qv_io::{Sink, put_all};
use qv_lrat_text::LineReader;
use std::alloc::Global;

// Writes the refutation whose text begins here, trimmed, and gives the place behind its last line.
fn write_refutation<O: Sink>(
    alloc: Global,
    text: &[u8],
    from: usize,
    printed: &mut Vec<u8>,
    out: &mut O,
) -> Result<usize, TrimFault>
    ensures ok { IfOk result (λ end. (live : List Numbered) (lines : List LratLine)
        (rest : List ℕ) → Begins ReadsStep (drop from text.now) lines rest →
        BeginsWithNone ReadsStep rest → Refutes live lines → (drop end text.now ≡ rest)
        × ((kept : List LratLine) × IsTrimmed lines kept
        × Appends (O.held out.old) (O.held out.new) (steps_text kept))) }
    ensures err { OnErr result ((live : List Numbered) (lines kept : List LratLine)
        (rest : List ℕ) → Begins ReadsStep (drop from text.now) lines rest →
        BeginsWithNone ReadsStep rest → Refutes live lines → IsTrimmed lines kept →
        AppendsFront (O.held out.old) (O.held out.new) (steps_text kept)) }
    ensures write { result ≡ Err TrimFault.Write → Rose (O.faults out.old) (O.faults out.new) }
    ensures count { O.faults out.old ≤ O.faults out.new }
{
    let mut reader = LineReader::new(alloc);
    let mut entries = Vec::new(alloc);
    let end = note_all(text, from, &mut entries, &mut reader)?;
    let marks = needed(alloc, text, &entries, &mut reader)?;
    write_steps(text, from, &marks, &mut reader, printed, out)?;
    Ok(end)
}

// Where the line that begins here ends, its LF included; the text's start where none does.
fn behind_line(text: &[u8], at: usize) -> usize
    ensures behind { (line rest : List ℕ) → BeginsWith (drop at text.now) line rest →
        drop result text.now ≡ rest }
    ensures within { result ≤ length text.now }
{
    match line_at(text, at) {
        Some(line) => at + line.len() + 1,
        None => 0,
    }
}

/// Writes an accepted section trimmed, each line as it is printed: the lines up to `lrat`, the
/// additions that are needed for the first clause without literals and the deletions before it, and
/// `end`. An unknown section stays. The text begins with the section's lines, and the number is
/// that of their bytes. Beside the text, 17 bytes are held for an addition.
pub fn trim_section<O: Sink>(alloc: Global, text: &[u8], out: &mut O) -> Result<usize, TrimFault>
    ensures ok { IfOk result (λ size. (task : Task) (answer : Answer) (texts : List (List ℕ))
        (rest : List ℕ) → BeginsWithSection task answer text.now texts rest →
        (drop size text.now ≡ rest) × ((trimmed : List CertLine)
        × IsTrimmedSection answer texts trimmed
        × Appends (O.held out.old) (O.held out.new) (flat_map cert_text trimmed))) }
    ensures within { IfOk result (λ size. size ≤ length text.now) }

    // Where it isn't written whole, a front of it is.
    ensures err { OnErr result ((task : Task) (answer : Answer) (texts : List (List ℕ))
        (rest : List ℕ) (trimmed : List CertLine) →
        BeginsWithSection task answer text.now texts rest →
        IsTrimmedSection answer texts trimmed →
        AppendsFront (O.held out.old) (O.held out.new) (flat_map cert_text trimmed)) }
    ensures write { result ≡ Err TrimFault.Write → Rose (O.faults out.old) (O.faults out.new) }
    ensures count { O.faults out.old ≤ O.faults out.new }
{
    let mut printed = Vec::new(alloc);
    let front = write_front(alloc, text, &mut printed, out)?;
    if !front.proves {
        return Ok(front.behind);
    }
    let end = write_refutation(alloc, text, front.behind, &mut printed, out)?;
    put_all(out, b"end\n")?;
    Ok(behind_line(text, end))
}
