//! A quantified Boolean formula is solved, and a certificate is checked beside one.

ghost use Rattle.std.specs.Prelude.{◌≡◌, ◌≢◌, ◌≤◌, ◌⊎◌};
ghost use Rattle.qv_check_defs.specs.Limits.{MetLimit};
ghost use Rattle.qv_io.specs.Count.{Rose};
ghost use Rattle.qv_meter.specs.Records.{records_of};
ghost use Rattle.qv_shell_args.specs.Call.{AreSettings};
ghost use Rattle.qv_shell_qdimacs.specs.Ending.{status_of};
ghost use Rattle.qv_shell.specs.Checking.{IsEnd};
ghost use Rattle.qv_shell.specs.Formulas.{IsQCheckRun, IsQSolveRun};
ghost use Rattle.qv_shell.specs.Requests.{limits_with};

use crate::checking::{ending_status, halt_status};
use crate::solving::limits_for;
use qv_gen::Status;
use qv_io::{Sink, Source};
use qv_meter::Meter;
use qv_shell_args::Settings;
use qv_shell_qdimacs::laws::{file_answers_are_true, solved_files_are_accepted};
use qv_shell_qdimacs::{FileEnding, check_file, solve_file};
use std::alloc::Global;

/// Solves a formula with these settings, and gives the status.
pub(crate) fn qsolve<S: Source, O: Sink, P: Sink>(
    alloc: Global,
    settings: Settings,
    file: &mut S,
    out: &mut O,
    cert: &mut P,
    meter: &mut Meter,
) -> Status
    requires { AreSettings settings }
    ensures run { IsQSolveRun settings.places S.read_gives S.left (limits_with settings.budgets)
        file.old file.new (O.held out.old) (O.held out.new) (P.held cert.old) (P.held cert.new)
        (records_of meter.old) (records_of meter.new) result }
    ensures read { result ≡ 3 → Rose (S.faults file.old) (S.faults file.new)
        ⊎ MetLimit S.read_gives (S.left file.old) file.old file.new }
    ensures write { result ≡ 4 → Rose (O.faults out.old) (O.faults out.new)
        ⊎ Rose (P.faults cert.old) (P.faults cert.new) }
    ensures complete { (Rose (S.faults file.old) (S.faults file.new) → ⊥)
        → (MetLimit S.read_gives (S.left file.old) file.old file.new → ⊥)
        → (Rose (O.faults out.old) (O.faults out.new) → ⊥)
        → (Rose (P.faults cert.old) (P.faults cert.new) → ⊥) → result ≢ 5 → result ≤ 1 }
    ensures file_count { S.faults file.old ≤ S.faults file.new }
    ensures out_count { O.faults out.old ≤ O.faults out.new }
    ensures cert_count { P.faults cert.old ≤ P.faults cert.new }
{
    match solve_file(
        alloc,
        settings.places,
        limits_for(settings.budgets),
        file,
        out,
        cert,
        meter,
    ) {
        Ok(ending) => answer_status(ending),
        Err(halt) => halt_status(halt),
    }
}

fn answer_status(ending: FileEnding) -> Status
    ensures { result ≡ status_of ending }
{
    match ending {
        FileEnding::Answered => 0,
        FileEnding::Faulty => 1,
    }
}

/// Checks a certificate beside a formula, with this limit on prefixes, and gives the status.
pub(crate) fn qcheck<S: Source, C: Source, O: Sink>(
    alloc: Global,
    places: u32,
    file: &mut S,
    cert: &mut C,
    out: &mut O,
) -> Status
    ensures run { IsQCheckRun places (S.left file.old) (C.left cert.old)
        (O.held out.old) (O.held out.new) result }
    ensures read { result ≡ 3 → (Rose (S.faults file.old) (S.faults file.new)
        ⊎ Rose (C.faults cert.old) (C.faults cert.new))
        ⊎ (MetLimit S.read_gives (S.left file.old) file.old file.new
        ⊎ MetLimit C.read_gives (C.left cert.old) cert.old cert.new) }
    ensures write { result ≡ 4 → Rose (O.faults out.old) (O.faults out.new) }
    ensures complete { (Rose (S.faults file.old) (S.faults file.new) → ⊥)
        → (Rose (C.faults cert.old) (C.faults cert.new) → ⊥)
        → (MetLimit S.read_gives (S.left file.old) file.old file.new → ⊥)
        → (MetLimit C.read_gives (C.left cert.old) cert.old cert.new → ⊥)
        → (Rose (O.faults out.old) (O.faults out.new) → ⊥) → result ≢ 5 → IsEnd result }
    ensures file_count { S.faults file.old ≤ S.faults file.new }
    ensures cert_count { C.faults cert.old ≤ C.faults cert.new }
    ensures out_count { O.faults out.old ≤ O.faults out.new }
{
    file_answers_are_true();
    solved_files_are_accepted();
    match check_file(alloc, places, file, cert, out) {
        Ok(ending) => ending_status(ending),
        Err(halt) => halt_status(halt),
    }
}
