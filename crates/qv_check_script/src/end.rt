//! The ends of a check.

ghost use Rattle.std.specs.Prelude.{◌≡◌, ◌≢◌, ◌⊎◌, ◌+◌, ◌<◌, ◌≤◌, Some, None, Ok, IfOk, IfSome, IsErrOf};
ghost use Rattle.std.specs.Prelude.{option_map};
ghost use Rattle.qv_io.specs.Count.{Rose};
ghost use Rattle.qv_io.specs.Source.{TellsAsBefore};
ghost use Rattle.qv_cert.specs.CertReader.{to_give};
ghost use Rattle.qv_cert.specs.LineView.{cert_line_of};
ghost use Rattle.qv_check_laws.specs.Verdict.{at_end, ended, kind_behind};
ghost use Rattle.qv_check_defs.specs.Outcome.{outcome_of, refused_line};
ghost use Rattle.qv_check_script.specs.Turns.{Ends, EndsBy, IsOver, StopsWanting, coming_of};

use crate::ending::{Ending, Halt};
use crate::texts::refused_line;
use crate::turns::Turn;
use qv_cert::{CertNext, CertReader, Line, RefusalKind};
use qv_io::Source;
use std::alloc::{AllocError, Global};

/// A line of the certificate is refused.
pub(crate) fn refused(alloc: Global, number: u64, kind: RefusalKind) -> Result<Turn, AllocError>
    ensures { IfOk result (Ends (record {
      text = refused_line number kind;
      status = 6;
    })) }
{
    Ok(Turn::Ended(refused_line(alloc, number, kind)?, Ending::Refused))
}

/// Nothing more is asked of the certificate: nothing may stand behind its last section.
pub fn finish<C: Source>(alloc: Global, reader: &mut CertReader, cert: &mut C) -> Result<Turn, Halt>
    requires begun { 0 < reader.old.given }
    requires reads { reader.old.stopped ≡ None }
    ensures ends { IfOk result (λ t. IfSome (to_give reader.old.rest (C.left cert.old)) (λ text.
        Ends (outcome_of (ended (at_end (reader.old.given + 1) text.lines text.rest))) t)) }
    ensures no_more { IfOk result (EndsBy IsOver) }
    ensures version { reader.new.version ≡ reader.old.version }
    ensures read { IsErrOf result Halt.Read → Rose (C.faults cert.old) (C.faults cert.new) }
    ensures limit { IsErrOf result Halt.ReadLimit →
        StopsWanting C.read_gives C.left reader.old cert.old reader.new cert.new
        (option_map (λ text. coming_of reader.old.given (ended (at_end (reader.old.given + 1) text.lines
        text.rest))) (to_give reader.old.rest (C.left cert.old))) }
    ensures no_write { IsErrOf result Halt.Write → ⊥ }
    ensures telling { TellsAsBefore (C.left cert.old) (C.left cert.new) }
    ensures count { C.faults cert.old ≤ C.faults cert.new }
{
    match reader.next_line(cert, false) {
        CertNext::End { .. } => {
            let line = Vec::from_slice(alloc, b"accepted\n")?;
            Ok(Turn::Ended(line, Ending::Accepted))
        }
        CertNext::Line { number, line } => Ok(refused(alloc, number, kind_behind(&line))?),
        CertNext::Fault { number, kind } => Ok(refused(alloc, number, kind_at_end(kind))?),
        CertNext::ReadFault => Err(Halt::Read),
        CertNext::ReadLimit => Err(Halt::ReadLimit),
        CertNext::NoMemory => Err(Halt::NoMemory),
    }
}

// Why a line behind the last section is refused.
fn kind_behind(line: &Line) -> RefusalKind
    ensures { result ≡ kind_behind (Ok (cert_line_of line.now)) }
{
    match line {
        Line::Check { .. } => RefusalKind::Section,
        _ => RefusalKind::Form,
    }
}

// The same for a line with a fault of its own, and where the bytes end inside a line.
fn kind_at_end(kind: RefusalKind) -> RefusalKind
    ensures truncated { kind ≡ RefusalKind.Truncated → result ≡ RefusalKind.Truncated }
    ensures other { kind ≢ RefusalKind.Truncated → result ≡ RefusalKind.Form }
{
    match kind {
        RefusalKind::Truncated => RefusalKind::Truncated,
        _ => RefusalKind::Form,
    }
}
