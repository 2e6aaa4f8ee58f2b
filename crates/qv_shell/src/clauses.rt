//! A certificate is checked beside its script, and the clauses are written that it refutes.

ghost use Rattle.std.specs.Prelude.{◌≡◌, ◌≢◌, ◌≤◌, ◌⊎◌};
ghost use Rattle.qv_check_defs.specs.Limits.{MetLimit};
ghost use Rattle.qv_io.specs.Count.{Rose};
ghost use Rattle.qv_shell.specs.Checking.{IsEnd};
ghost use Rattle.qv_shell.specs.Clauses.{IsClausesRun};

use crate::checking::{ending_status, halt_status};
use qv_gen::Status;
use qv_io::{Sink, Source};
use std::alloc::Global;

/// Checks a certificate beside its script, with this limit on prefixes, writes the clauses that its
/// sections refute, and gives the status.
pub(crate) fn clauses<S: Source, C: Source, O: Sink>(
    alloc: Global,
    places: u32,
    script: &mut S,
    cert: &mut C,
    out: &mut O,
) -> Status
    ensures run { IsClausesRun places (S.left script.old) (C.left cert.old) (O.held out.old)
        (O.held out.new) result }
    ensures read { result ≡ 3 → (Rose (S.faults script.old) (S.faults script.new)
        ⊎ Rose (C.faults cert.old) (C.faults cert.new))
        ⊎ (MetLimit S.read_gives (S.left script.old) script.old script.new
        ⊎ MetLimit C.read_gives (C.left cert.old) cert.old cert.new) }
    ensures write { result ≡ 4 → Rose (O.faults out.old) (O.faults out.new) }
    ensures complete { (Rose (S.faults script.old) (S.faults script.new) → ⊥)
        → (Rose (C.faults cert.old) (C.faults cert.new) → ⊥)
        → (MetLimit S.read_gives (S.left script.old) script.old script.new → ⊥)
        → (MetLimit C.read_gives (C.left cert.old) cert.old cert.new → ⊥)
        → (Rose (O.faults out.old) (O.faults out.new) → ⊥) → result ≢ 5 → IsEnd result }
    ensures script_count { S.faults script.old ≤ S.faults script.new }
    ensures cert_count { C.faults cert.old ≤ C.faults cert.new }
    ensures out_count { O.faults out.old ≤ O.faults out.new }
{
    match qv_check_clauses::clauses(alloc, places, script, cert, out) {
        Ok(ending) => ending_status(ending),
        Err(halt) => halt_status(halt),
    }
}
