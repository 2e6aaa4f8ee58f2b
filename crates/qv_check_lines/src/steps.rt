//! The lines of a refutation, up to the section's end.

ghost use Rattle.std.specs.Prelude.{length, ◌≡◌, ◌≤◌, ◌<◌, None, IfErr, OnOk, IfOk, IsTrue};
ghost use Rattle.std.specs.Bool.{OnFalse};
ghost use Rattle.qv_io.specs.Source.{TellsAsBefore};
ghost use Rattle.qv_words.specs.declared.op.Answer.{Answer};
ghost use Rattle.qv_cert.specs.CertReader.{to_give, piece_size};
ghost use Rattle.qv_cert.specs.Line.{End};
ghost use Rattle.qv_cert.specs.Line.{Step as StepLine};
ghost use Rattle.qv_cert.specs.LineView.{cert_line_of};
ghost use Rattle.qv_cert.specs.Section.{Task, Refuting};
ghost use Rattle.qv_cnf.specs.LratLine.{line_of};
ghost use Rattle.qv_cnf.specs.Refutation.{Standing};
ghost use Rattle.qv_check_lines.specs.declared.verdict.Verdict.TheVariants.{Accepted};
ghost use Rattle.qv_check_lines.specs.Ending.{EndsBy, TookWith};
ghost use Rattle.qv_check_lines.specs.Judging.{IsVerdictFrom, LeadsTo};
ghost use Rattle.qv_check_lines.specs.Steps.{IsTaken, refusal_of};

use crate::lines::{Numbered, Place, next_line};
use crate::verdict::Verdict;
use qv_cert::{CertReader, Line, RefusalKind};
use qv_cert_formulas::take_step;
use qv_cnf::Step;
use qv_io::Source;
use qv_rup::{Checker, StepFault};

// Reads the next line of a refutation, and says whether the section goes on behind it; else it is
// accepted.
fn read_step<S: Source>(
    checker: &mut Checker,
    reader: &mut CertReader,
    source: &mut S,
) -> Result<bool, Verdict>
    requires begun { 0 < reader.old.given }
    requires reads { reader.old.stopped ≡ None }
    ensures goes { IfOk result (λ more. IsTrue more → (task : Task) (answer : Answer) →
        LeadsTo task (Refuting answer checker.old) reader.old.given
        (to_give reader.old.rest (S.left source.old)) (Refuting answer checker.new)
        reader.new.given (to_give reader.new.rest (S.left source.new))) }
    ensures end { IfOk result (λ more. OnFalse more ((task : Task) (answer : Answer) →
        IsVerdictFrom task (Refuting answer checker.old) reader.old.given
        (to_give reader.old.rest (S.left source.old)) reader.new.given
        (to_give reader.new.rest (S.left source.new)) (Accepted answer))) }
    ensures err { IfErr result (λ verdict. (task : Task) (answer : Answer) →
        IsVerdictFrom task (Refuting answer checker.old) reader.old.given
        (to_give reader.old.rest (S.left source.old)) reader.new.given
        (to_give reader.new.rest (S.left source.new)) verdict) }
    ensures begun { OnOk result (0 < reader.new.given) }
    ensures reads { OnOk result (reader.new.stopped ≡ None) }
    ensures short { OnOk result (length reader.new.rest < piece_size) }
    ensures version { reader.new.version ≡ reader.old.version }
    ensures ends { IfErr result (λ verdict. EndsBy verdict (S.faults source.old)
        (S.faults source.new) reader.new) }
    ensures took { TookWith S.read_gives S.left reader.old source.old result reader.new
        source.new }
    ensures telling { TellsAsBefore (S.left source.old) (S.left source.new) }
    ensures count { S.faults source.old ≤ S.faults source.new }
{
    let place = Place {
        in_lrat: true,
        node: false,
        rule: false,
    };
    let next = next_line(reader, source, place)?;
    let taken = take_line(checker, &next);
    reader.reuse(next.line);
    taken
}

// What a line of a refutation does: whether the section goes on, or is accepted.
fn take_line(checker: &mut Checker, next: &Numbered) -> Result<bool, Verdict>
    ensures { (task : Task) (answer : Answer) → IsTaken task answer checker.old
        (cert_line_of next.now.line) next.now.number result checker.new }
{
    match &next.line {
        Line::Step(step) => take(checker, next.number, step),
        Line::End => end(checker.is_refuted(), next.number),
        Line::Header { .. }
        | Line::Check { .. }
        | Line::VarNode { .. }
        | Line::EigenNode { .. }
        | Line::LitNode { .. }
        | Line::OpNode { .. }
        | Line::Skolem { .. }
        | Line::Instance { .. }
        | Line::Eigen { .. }
        | Line::Rewrite { .. }
        | Line::Lrat => Err(Verdict::Refused {
            line: next.number,
            kind: RefusalKind::Form,
        }),
    }
}

// A step.
fn take(checker: &mut Checker, number: u64, step: &Step) -> Result<bool, Verdict>
    ensures { (task : Task) (answer : Answer) → IsTaken task answer checker.old
        (StepLine (line_of step.now)) number result checker.new }
{
    match take_step(checker, step) {
        Ok(()) => Ok(true),
        Err(fault) => Err(refusal(number, fault)),
    }
}

// What becomes of a step's fault.
fn refusal(number: u64, fault: StepFault) -> Verdict
    ensures { result ≡ refusal_of number fault }
{
    let kind = match fault {
        StepFault::Order => RefusalKind::Id,
        StepFault::Rat { hint } => RefusalKind::Rat { hint },
        StepFault::Hint { hint } => RefusalKind::Hint { hint },
        StepFault::Open => RefusalKind::Open,
        StepFault::NoMemory => return Verdict::NoMemory,
    };
    Verdict::Refused { line: number, kind }
}

// The section's end, where the clauses are refuted or aren't.
fn end(refuted: bool, number: u64) -> Result<bool, Verdict>
    ensures { (task : Task) (answer : Answer) (s : Standing) → refuted ≡ s.refuted →
        IsTaken task answer s End number result s }
{
    if refuted {
        Ok(false)
    } else {
        Err(Verdict::Refused {
            line: number,
            kind: RefusalKind::Refutation,
        })
    }
}

// Reads the lines of a refutation up to the section's end.
#[tactic(auto, using(crate::proofs::Ended::ends_later))]
pub(crate) fn read_steps<S: Source>(
    checker: &mut Checker,
    reader: &mut CertReader,
    source: &mut S,
) -> Result<(), Verdict>
    requires begun { 0 < reader.old.given }
    requires reads { reader.old.stopped ≡ None }
    ensures end { OnOk result ((task : Task) (answer : Answer) →
        IsVerdictFrom task (Refuting answer checker.old) reader.old.given
        (to_give reader.old.rest (S.left source.old)) reader.new.given
        (to_give reader.new.rest (S.left source.new)) (Accepted answer)) }
    ensures err { IfErr result (λ verdict. (task : Task) (answer : Answer) →
        IsVerdictFrom task (Refuting answer checker.old) reader.old.given
        (to_give reader.old.rest (S.left source.old)) reader.new.given
        (to_give reader.new.rest (S.left source.new)) verdict) }
    ensures begun { OnOk result (0 < reader.new.given) }
    ensures reads { OnOk result (reader.new.stopped ≡ None) }
    ensures short { OnOk result (length reader.new.rest < piece_size) }
    ensures version { reader.new.version ≡ reader.old.version }
    ensures ends { IfErr result (λ verdict. EndsBy verdict (S.faults source.old)
        (S.faults source.new) reader.new) }
    ensures took { TookWith S.read_gives S.left reader.old source.old result reader.new
        source.new }
    ensures telling { TellsAsBefore (S.left source.old) (S.left source.new) }
    ensures count { S.faults source.old ≤ S.faults source.new }
{
    'steps: for _count in 0..u64::MAX {
        if !read_step(checker, reader, source)? {
            return Ok(());
        }
    }
    // No source has as many lines.
    Err(Verdict::NoMemory)
}
