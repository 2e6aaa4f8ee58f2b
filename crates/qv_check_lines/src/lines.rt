//! The next line of a section.

ghost use Rattle.std.specs.Prelude.{◌≡◌, ◌≢◌, ◌≤◌, ◌<◌, ◌+◌, None, IfOk, IfErr, OnOk, length};
ghost use Rattle.qv_io.specs.Source.{TellsAsBefore};
ghost use Rattle.qv_cert.specs.CertReader.{to_give, piece_size};
ghost use Rattle.qv_cert.specs.Section.{Task, State, is_refuting, fault_at};
ghost use Rattle.qv_check_lines.specs.Ending.{EndsBy, TookWith};
ghost use Rattle.qv_check_lines.specs.Judging.{IsVerdictFrom, IsNextLine, kind_at};

use crate::verdict::Verdict;
use qv_cert::{CertNext, CertReader, Line, RefusalKind};
use qv_io::Source;

/// Where a line stands, by which it is read and has faults of its own.
#[derive(Clone, Copy, Debug)]
pub struct Place {
    /// Whether it stands in the refutation.
    pub in_lrat: bool,
    /// Whether it may have the fault of an operator or of a literal.
    pub node: bool,
    /// Whether it may have that of a rule.
    pub rule: bool,
}

/// A line, with its number.
#[derive(Debug, Drop)]
pub struct Numbered {
    pub number: u64,
    pub line: Line,
}

/// The next line, or the verdict where there is none that may stand here.
pub fn next_line<S: Source>(
    reader: &mut CertReader,
    source: &mut S,
    place: Place,
) -> Result<Numbered, Verdict>
    requires begun { 0 < reader.old.given }
    requires reads { reader.old.stopped ≡ None }
    ensures line { IfOk result (λ next. IsNextLine place.in_lrat
        (to_give reader.old.rest (S.left source.old)) next.line
        (to_give reader.new.rest (S.left source.new))) }
    ensures number { IfOk result (λ next. next.number ≡ reader.old.given + 1) }
    ensures given { OnOk result (reader.new.given ≡ reader.old.given + 1) }
    ensures goes_on { OnOk result (reader.new.stopped ≡ None) }
    ensures short { OnOk result (length reader.new.rest < piece_size) }
    ensures version { reader.new.version ≡ reader.old.version }
    ensures err { IfErr result (λ verdict. (task : Task) (s : State) →
        is_refuting s ≡ place.in_lrat →
        ((k : RefusalKind) → fault_at task s k ≡ kind_at place.node place.rule k) →
        IsVerdictFrom task s reader.old.given (to_give reader.old.rest (S.left source.old))
        reader.new.given (to_give reader.new.rest (S.left source.new)) verdict) }
    ensures ends { IfErr result (λ verdict. EndsBy verdict (S.faults source.old)
        (S.faults source.new) reader.new) }
    ensures took { TookWith S.read_gives S.left reader.old source.old result reader.new
        source.new }
    ensures telling { TellsAsBefore (S.left source.old) (S.left source.new) }
    ensures count { S.faults source.old ≤ S.faults source.new }
{
    match reader.next_line(source, place.in_lrat) {
        CertNext::Line { number, line } => Ok(Numbered { number, line }),
        CertNext::End { number } => Err(Verdict::Refused {
            line: number,
            kind: RefusalKind::Truncated,
        }),
        CertNext::Fault { number, kind } => Err(Verdict::Refused {
            line: number,
            kind: kind_at(place, kind),
        }),
        CertNext::ReadFault => Err(Verdict::ReadFault),
        CertNext::ReadLimit => Err(Verdict::ReadLimit),
        CertNext::NoMemory => Err(Verdict::NoMemory),
    }
}

// The kind of a fault there: the end inside a line is one everywhere.
fn kind_at(place: Place, kind: RefusalKind) -> RefusalKind
    ensures truncated { kind ≡ RefusalKind.Truncated → result ≡ RefusalKind.Truncated }
    ensures other { kind ≢ RefusalKind.Truncated → result ≡ kind_at place.node place.rule kind }
{
    match kind {
        RefusalKind::Truncated => RefusalKind::Truncated,
        RefusalKind::Operator if place.node => RefusalKind::Operator,
        RefusalKind::Literal if place.node => RefusalKind::Literal,
        RefusalKind::Rule if place.rule => RefusalKind::Rule,
        _ => RefusalKind::Form,
    }
}
