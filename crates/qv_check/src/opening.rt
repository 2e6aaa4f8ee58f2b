//! The `check` line of a section, and the end of an unknown section.

ghost use Rattle.std.specs.Prelude.{length, ◌≡◌, ◌≤◌, ◌<◌, None, IfErr, IfOk, OnOk};
ghost use Rattle.qv_io.specs.Source.{TellsAsBefore};
ghost use Rattle.qv_cert.specs.CertReader.{to_give, piece_size};
ghost use Rattle.qv_cert.specs.LineView.{cert_line_of};
ghost use Rattle.qv_cert.specs.Section.{Task, Opening, Closing, opened};
ghost use Rattle.qv_check_lines.specs.Ending.{EndsBy, TookBy, TookWith};
ghost use Rattle.qv_check_lines.specs.Judging.{ComesTo, IsVerdictFrom};
ghost use Rattle.qv_check.specs.Opening.{IsOpened, IsClosed};

use qv_cert::{CertReader, Line, RefusalKind};
use qv_check_lines::{Numbered, Place, Verdict, next_line};
use qv_io::Source;
use qv_words::Answer;

// The answer of a section's `check` line.
fn take_check(number: u64, next: &Numbered) -> Result<Answer, Verdict>
    ensures { (task : Task) → task.number ≡ number →
        IsOpened task (cert_line_of next.now.line) next.now.number result }
{
    match &next.line {
        Line::Check {
            number: found,
            answer,
        } => {
            if *found == number {
                Ok(*answer)
            } else {
                Err(Verdict::Refused {
                    line: next.number,
                    kind: RefusalKind::Section,
                })
            }
        }
        Line::Header { .. }
        | Line::VarNode { .. }
        | Line::EigenNode { .. }
        | Line::LitNode { .. }
        | Line::OpNode { .. }
        | Line::Skolem { .. }
        | Line::Instance { .. }
        | Line::Eigen { .. }
        | Line::Rewrite { .. }
        | Line::Lrat
        | Line::Step(_)
        | Line::End => Err(Verdict::Refused {
            line: next.number,
            kind: RefusalKind::Form,
        }),
    }
}

/// Reads the `check` line of the section of this number, and gives its answer.
pub fn open<S: Source>(
    number: u64,
    reader: &mut CertReader,
    source: &mut S,
) -> Result<Answer, Verdict>
    requires begun { 0 < reader.old.given }
    requires reads { reader.old.stopped ≡ None }
    ensures goes { IfOk result (λ answer. (task : Task) → task.number ≡ number →
        ComesTo task Opening reader.old.given (to_give reader.old.rest (S.left source.old))
        (opened answer) reader.new.given (to_give reader.new.rest (S.left source.new))) }
    ensures err { IfErr result (λ verdict. (task : Task) → task.number ≡ number →
        IsVerdictFrom task Opening reader.old.given
        (to_give reader.old.rest (S.left source.old)) reader.new.given
        (to_give reader.new.rest (S.left source.new)) verdict) }
    ensures begun { OnOk result (0 < reader.new.given) }
    ensures reads { OnOk result (reader.new.stopped ≡ None) }
    ensures short { OnOk result (length reader.new.rest < piece_size) }
    ensures version { reader.new.version ≡ reader.old.version }
    ensures ends { IfErr result (λ verdict. EndsBy verdict (S.faults source.old)
        (S.faults source.new) reader.new) }
    ensures took { TookWith S.read_gives S.left reader.old source.old result reader.new
        source.new }
    ensures telling { TellsAsBefore (S.left source.old) (S.left source.new) }
    ensures count { S.faults source.old ≤ S.faults source.new }
{
    let place = Place {
        in_lrat: false,
        node: false,
        rule: false,
    };
    let next = next_line(reader, source, place)?;
    take_check(number, &next)
}

// The verdict at the line where an unknown section ends.
fn take_end(next: &Numbered) -> Verdict
    ensures { (task : Task) → IsClosed task (cert_line_of next.now.line) next.now.number result }
{
    match &next.line {
        Line::End => Verdict::Accepted(Answer::Unknown),
        Line::Header { .. }
        | Line::Check { .. }
        | Line::VarNode { .. }
        | Line::EigenNode { .. }
        | Line::LitNode { .. }
        | Line::OpNode { .. }
        | Line::Skolem { .. }
        | Line::Instance { .. }
        | Line::Eigen { .. }
        | Line::Rewrite { .. }
        | Line::Lrat
        | Line::Step(_) => Verdict::Refused {
            line: next.number,
            kind: RefusalKind::Form,
        },
    }
}

/// Reads the end of an unknown section.
pub fn close<S: Source>(reader: &mut CertReader, source: &mut S) -> Verdict
    requires begun { 0 < reader.old.given }
    requires reads { reader.old.stopped ≡ None }
    ensures verdict { (task : Task) → IsVerdictFrom task Closing reader.old.given
        (to_give reader.old.rest (S.left source.old)) reader.new.given
        (to_give reader.new.rest (S.left source.new)) result }
    ensures version { reader.new.version ≡ reader.old.version }
    ensures ends { EndsBy result (S.faults source.old) (S.faults source.new) reader.new }
    ensures took { TookBy S.read_gives S.left reader.old source.old result reader.new
        source.new }
    ensures telling { TellsAsBefore (S.left source.old) (S.left source.new) }
    ensures count { S.faults source.old ≤ S.faults source.new }
{
    let place = Place {
        in_lrat: false,
        node: false,
        rule: false,
    };
    match next_line(reader, source, place) {
        Ok(next) => take_end(&next),
        Err(verdict) => verdict,
    }
}
