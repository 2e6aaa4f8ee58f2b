//! A certificate is checked beside its script.
ghost use Rattle.std.specs.Prelude.{◌≡◌, ◌≢◌, ◌≤◌, ◌⊎◌};
ghost use Rattle.qv_io.specs.Count.{Rose};
ghost use Rattle.qv_check_script.specs.Ending.{status_of, halt_status};
ghost use Rattle.qv_check_defs.specs.Limits.{MetLimit};
ghost use Rattle.qv_check_script.specs.Wanting.{WantsMore};
ghost use Rattle.qv_shell.specs.Checking.{IsEnd, IsCheckRun};

use qv_check_script::{Ending, Halt, verify};
use qv_gen::Status;
use qv_io::{Sink, Source};
use std::alloc::Global;

/// Checks a certificate beside its script, with this limit on prefixes, and gives the status.
pub(crate) fn check<S: Source, C: Source, O: Sink>(
    alloc: Global,
    places: u32,
    script: &mut S,
    cert: &mut C,
    out: &mut O,
) -> Status
    ensures run { IsCheckRun places S.read_gives (Rose (C.faults cert.old) (C.faults cert.new)
        ⊎ WantsMore places C.read_gives (S.left script.old) (C.left cert.old) cert.old cert.new)
        (S.left script.old) (C.left cert.old) script.old script.new (O.held out.old)
        (O.held out.new) result }
    ensures read { result ≡ 3 → (Rose (S.faults script.old) (S.faults script.new)
        ⊎ Rose (C.faults cert.old) (C.faults cert.new))
        ⊎ (MetLimit S.read_gives (S.left script.old) script.old script.new
        ⊎ MetLimit C.read_gives (C.left cert.old) cert.old cert.new) }
    ensures write { result ≡ 4 → Rose (O.faults out.old) (O.faults out.new) }
    ensures complete { (Rose (S.faults script.old) (S.faults script.new) → ⊥)
        → (Rose (C.faults cert.old) (C.faults cert.new) → ⊥)
        → (MetLimit S.read_gives (S.left script.old) script.old script.new → ⊥)
        → (MetLimit C.read_gives (C.left cert.old) cert.old cert.new → ⊥)
        → (Rose (O.faults out.old) (O.faults out.new) → ⊥) → result ≢ 5 → IsEnd result }
    ensures script_count { S.faults script.old ≤ S.faults script.new }
    ensures cert_count { C.faults cert.old ≤ C.faults cert.new }
    ensures out_count { O.faults out.old ≤ O.faults out.new }
{
    match verify(alloc, places, script, cert, out) {
        Ok(ending) => ending_status(ending),
        Err(halt) => halt_status(halt),
    }
}

pub(crate) fn ending_status(ending: Ending) -> Status
    ensures { result ≡ status_of ending }
{
    match ending {
        Ending::Accepted => 0,
        Ending::Faulty => 1,
        Ending::Refused => 6,
    }
}

pub(crate) fn halt_status(halt: Halt) -> Status
    ensures { result ≡ halt_status halt }
{
    match halt {
        Halt::Read | Halt::ReadLimit => 3,
        Halt::Write => 4,
        Halt::NoMemory => 5,
    }
}
