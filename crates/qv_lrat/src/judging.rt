//! A whole proof is judged.

ghost use Rattle.std.specs.Prelude.{◌≡◌, ◌≤◌, ◌+◌, [], IfOk, IfSome, IfNone, IsErrOf, OnOk, Ok};
ghost use Rattle.std.specs.Prelude.{option_map};
ghost use Rattle.qv_io.specs.Count.{Rose};
ghost use Rattle.qv_io.specs.Source.{TellsAsBefore};
ghost use Rattle.qv_cert.specs.Lines.{all_lines, lines_left, GivesLine};
ghost use Rattle.qv_check_defs.specs.Limits.{MetLimit, Takes, TakesToLimit};
ghost use Rattle.qv_cnf.specs.Refutation.{Standing};
ghost use Rattle.qv_lrat.specs.Judging.{IsTurn, halt_of, judgement_of};
ghost use Rattle.qv_lrat.specs.Verdict.{judged_lines};

use crate::taking::take_line;
use qv_cert::{Lines, RefusalKind, Stop};
use qv_check_script::Halt;
use qv_io::Source;
use qv_lrat_text::LineReader;
use qv_rup::Checker;
use std::alloc::{AllocError, Global};

/// What a proof comes to: it is accepted, or this line is the first that is refused.
#[derive(Clone, Copy)]
pub(crate) enum Judged {
    Accepted,
    Refused { line: u64, kind: RefusalKind },
}

/// Judges a proof from its beginning, each line before the next is taken.
pub(crate) fn judge<C: Source>(
    alloc: Global,
    checker: &mut Checker,
    proof: &mut C,
) -> Result<Judged, Halt>
    ensures judged { IfOk result (λ end. IfSome (C.left proof.old) (λ bytes.
        judged_lines checker.old 1 (all_lines bytes) ≡ judgement_of end)) }
    ensures read { IsErrOf result Halt.Read → Rose (C.faults proof.old) (C.faults proof.new) }
    ensures limit { IsErrOf result Halt.ReadLimit →
        MetLimit C.read_gives (C.left proof.old) proof.old proof.new }
    ensures no_write { IsErrOf result Halt.Write → ⊥ }
    ensures telling { TellsAsBefore (C.left proof.old) (C.left proof.new) }
    ensures count { C.faults proof.old ≤ C.faults proof.new }
{
    let mut lines = Lines::new(alloc);
    let mut steps = LineReader::new(alloc);
    judge_lines(checker, &mut lines, &mut steps, proof)
}

// Judges the lines that are left, the first of which has number 1.
fn judge_lines<C: Source>(
    checker: &mut Checker,
    lines: &mut Lines,
    steps: &mut LineReader,
    proof: &mut C,
) -> Result<Judged, Halt>
    ensures judged { IfOk result (λ end. IfSome (lines_left lines.old.rest (C.left proof.old))
        (λ texts. judged_lines checker.old 1 texts ≡ judgement_of end)) }
    ensures read { IsErrOf result Halt.Read → Rose (C.faults proof.old) (C.faults proof.new) }
    ensures limit { IsErrOf result Halt.ReadLimit →
        TakesToLimit C.read_gives C.left lines.old.taken proof.old proof.new }
    ensures no_write { IsErrOf result Halt.Write → ⊥ }
    ensures telling { TellsAsBefore (C.left proof.old) (C.left proof.new) }
    ensures count { C.faults proof.old ≤ C.faults proof.new }
{
    'lines: for number in 1..u64::MAX {
        match judge_line(checker, lines, steps, proof, number)? {
            Some(end) => return Ok(end),
            None => {}
        }
    }
    // No source has as many lines.
    Err(Halt::NoMemory)
}

// Judges the next line, or the end behind the last one.
fn judge_line<C: Source>(
    checker: &mut Checker,
    lines: &mut Lines,
    steps: &mut LineReader,
    proof: &mut C,
    number: u64,
) -> Result<Option<Judged>, Halt>
    ensures end { IfOk result (λ found. IfSome found (λ end.
        IfSome (lines_left lines.old.rest (C.left proof.old)) (λ texts.
        judged_lines checker.old number texts ≡ judgement_of end))) }
    ensures goes { IfOk result (λ found. IfNone found
        (option_map (judged_lines checker.old number)
        (lines_left lines.old.rest (C.left proof.old))
        ≡ option_map (judged_lines checker.new (number + 1))
        (lines_left lines.new.rest (C.left proof.new)))) }
    ensures takes { OnOk result
        (Takes C.read_gives C.left lines.old.taken proof.old lines.new.taken proof.new) }
    ensures read { IsErrOf result Halt.Read → Rose (C.faults proof.old) (C.faults proof.new) }
    ensures limit { IsErrOf result Halt.ReadLimit →
        TakesToLimit C.read_gives C.left lines.old.taken proof.old proof.new }
    ensures no_write { IsErrOf result Halt.Write → ⊥ }
    ensures telling { TellsAsBefore (C.left proof.old) (C.left proof.new) }
    ensures count { C.faults proof.old ≤ C.faults proof.new }
{
    if !next_line(lines, proof)? {
        return Ok(Some(at_end(checker.is_refuted(), number)));
    }
    Ok(judge_text(checker, steps, lines.line(), number)?)
}

// Takes the next line, and says whether there is one.
fn next_line<C: Source>(lines: &mut Lines, proof: &mut C) -> Result<bool, Halt>
    ensures gives { IfOk result (λ more.
        GivesLine (lines_left lines.old.rest (C.left proof.old)) (Ok more) lines.new.line
        (lines_left lines.new.rest (C.left proof.new))) }
    ensures takes { OnOk result
        (Takes C.read_gives C.left lines.old.taken proof.old lines.new.taken proof.new) }
    ensures read { IsErrOf result Halt.Read → Rose (C.faults proof.old) (C.faults proof.new) }
    ensures limit { IsErrOf result Halt.ReadLimit →
        TakesToLimit C.read_gives C.left lines.old.taken proof.old proof.new }
    ensures no_write { IsErrOf result Halt.Write → ⊥ }
    ensures telling { TellsAsBefore (C.left proof.old) (C.left proof.new) }
    ensures count { C.faults proof.old ≤ C.faults proof.new }
{
    match lines.next_line(proof) {
        Ok(more) => Ok(more),
        Err(stop) => Err(halt_of(stop)),
    }
}

// Why a check stops where no line was taken.
fn halt_of(stop: Stop) -> Halt
    ensures { result ≡ halt_of stop }
{
    match stop {
        Stop::ReadFault => Halt::Read,
        Stop::ReadLimit => Halt::ReadLimit,
        // Lines have no fault and no end here, so that only memory is left.
        Stop::NoMemory | Stop::End | Stop::Fault(_) => Halt::NoMemory,
    }
}

// Judges the text of the line of this number, and answers how the proof ends, if it does here.
fn judge_text(
    checker: &mut Checker,
    steps: &mut LineReader,
    text: &[u8],
    number: u64,
) -> Result<Option<Judged>, AllocError>
    ensures { IfOk result (λ found. IsTurn number checker.old text.now found checker.new) }
{
    match take_line(checker, steps, text)? {
        Some(kind) => Ok(Some(Judged::Refused { line: number, kind })),
        None => Ok(None),
    }
}

// Behind the last line a clause without literals has to be there.
fn at_end(refuted: bool, number: u64) -> Judged
    ensures { (s : Standing) → refuted ≡ s.refuted →
        judged_lines s number [] ≡ judgement_of result }
{
    if refuted {
        Judged::Accepted
    } else {
        Judged::Refused {
            line: number,
            kind: RefusalKind::Refutation,
        }
    }
}
