//! The first line of a certificate.

ghost use Rattle.std.specs.Prelude.{◌≡◌, ◌⊎◌, ◌<◌, ◌≤◌, List, ℕ, [], Option, None, Ok, IfOk, IfSome, IsErrOf};
ghost use Rattle.std.specs.Prelude.{option_map};
ghost use Rattle.qv_io.specs.Count.{Rose};
ghost use Rattle.qv_io.specs.Source.{TellsAsBefore};
ghost use Rattle.qv_cert.specs.CertReader.{to_give};
ghost use Rattle.qv_cert.specs.Took.{TookLines};
ghost use Rattle.qv_check_script.specs.Turns.{Heads, StopsWanting, told};

use crate::ending::Halt;
use crate::texts::refused_line;
use qv_cert::{CertNext, CertReader, RefusalKind};
use qv_io::Source;
use std::alloc::Global;

/// Reads the first line of a certificate, and gives the line of its refusal where it is no header.
pub fn read_header<C: Source>(
    alloc: Global,
    reader: &mut CertReader,
    cert: &mut C,
) -> Result<Option<Vec<u8>>, Halt>
    requires fresh { reader.old ≡ record {
      rest = [];
      taken = 0;
      given = 0;
      version = 0;
      stopped = None;
    } }
    ensures heads { IfOk result (λ refusal. IfSome (C.left cert.old) (λ bytes.
        Heads (option_map (λ line. line.items) refusal) bytes reader.new.version
        (to_give reader.new.rest (C.left cert.new)))) }
    ensures reads { result ≡ Ok None → (reader.new.given ≡ 1) × (reader.new.stopped ≡ None) }
    ensures read { IsErrOf result Halt.Read → Rose (C.faults cert.old) (C.faults cert.new) }
    ensures takes { result ≡ Ok None →
        TookLines C.read_gives C.left reader.old cert.old reader.new.given reader.new.rest
        reader.new.taken cert.new }
    ensures limit { IsErrOf result Halt.ReadLimit → (places : ℕ) (script : Option (List ℕ)) →
        StopsWanting C.read_gives C.left reader.old cert.old reader.new cert.new
        (told places script (C.left cert.old)) }
    ensures no_write { IsErrOf result Halt.Write → ⊥ }
    ensures telling { TellsAsBefore (C.left cert.old) (C.left cert.new) }
    ensures count { C.faults cert.old ≤ C.faults cert.new }
{
    match reader.next_line(cert, false) {
        CertNext::Line { .. } => Ok(None),
        CertNext::End { number } => {
            Ok(Some(refused_line(alloc, number, RefusalKind::Truncated)?))
        }
        CertNext::Fault { number, kind } => Ok(Some(refused_line(alloc, number, kind)?)),
        CertNext::ReadFault => Err(Halt::Read),
        CertNext::ReadLimit => Err(Halt::ReadLimit),
        CertNext::NoMemory => Err(Halt::NoMemory),
    }
}
