//! A script is solved.

ghost use Rattle.std.specs.Prelude.{◌≡◌, ◌≢◌, ◌≤◌, ◌⊎◌};
ghost use Rattle.qv_io.specs.Count.{Rose};
ghost use Rattle.qv_shell_args.specs.Call.{AreBudgets, AreSettings};
ghost use Rattle.qv_meter.specs.Records.{AreLimits, records_of};
ghost use Rattle.qv_meter.specs.Views.{limits_of};
ghost use Rattle.qv_check_defs.specs.Limits.{MetLimit};
ghost use Rattle.qv_shell_command.specs.Ending.{status_of, halt_status};
ghost use Rattle.qv_shell.specs.Requests.{limits_with};
ghost use Rattle.qv_shell.specs.Solving.{IsSolveRun};

use qv_gen::Status;
use qv_io::{Sink, Source};
use qv_meter::{Limits, Meter};
use qv_shell_args::{Budgets, Settings};
use qv_shell_follow::{Ending, Halt, Watch};
use std::alloc::Global;

/// Solves a script with these settings, and gives the status. The checker looks at each section where
/// they say so, and `watch` is told of each check.
pub(crate) fn solve<S: Source, O: Sink, P: Sink, W: Watch>(
    alloc: Global,
    settings: Settings,
    script: &mut S,
    out: &mut O,
    cert: &mut P,
    meter: &mut Meter,
    watch: &mut W,
) -> Status
    requires { AreSettings settings }
    ensures run { IsSolveRun settings.places S.read_gives (limits_with settings.budgets)
        (S.left script.old) script.old script.new (O.held out.old) (O.held out.new)
        (P.held cert.old) (P.held cert.new) (records_of meter.old) (records_of meter.new)
        result }
    ensures read { result ≡ 3 → Rose (S.faults script.old) (S.faults script.new)
        ⊎ MetLimit S.read_gives (S.left script.old) script.old script.new }
    ensures write { result ≡ 4 → Rose (O.faults out.old) (O.faults out.new)
        ⊎ Rose (P.faults cert.old) (P.faults cert.new) }
    ensures complete { (Rose (S.faults script.old) (S.faults script.new) → ⊥)
        → (MetLimit S.read_gives (S.left script.old) script.old script.new → ⊥)
        → (Rose (O.faults out.old) (O.faults out.new) → ⊥)
        → (Rose (P.faults cert.old) (P.faults cert.new) → ⊥) → result ≢ 5 → result ≤ 1 }
    ensures script_count { S.faults script.old ≤ S.faults script.new }
    ensures out_count { O.faults out.old ≤ O.faults out.new }
    ensures cert_count { P.faults cert.old ≤ P.faults cert.new }
{
    match qv_shell_follow::solve(
        alloc,
        settings.places,
        limits_for(settings.budgets),
        settings.check,
        script,
        out,
        cert,
        meter,
        watch,
    ) {
        Ok(followed) => ending_status(followed.ending),
        Err(halt) => halt_status(halt),
    }
}

/// Budgets as the limits of records.
pub(crate) fn limits_for(budgets: Budgets) -> Limits
    requires { AreBudgets budgets }
    ensures same { limits_of result ≡ limits_with budgets }
    ensures lawful { AreLimits (limits_of result) }
{
    Limits {
        conflicts: budgets.conflicts,
        instances: budgets.instances,
        variables: budgets.variables,
    }
}

fn ending_status(ending: Ending) -> Status
    ensures { result ≡ status_of ending }
{
    match ending {
        Ending::Done => 0,
        Ending::Refused => 1,
        Ending::Unaccepted => 6,
    }
}

fn halt_status(halt: Halt) -> Status
    ensures { result ≡ halt_status halt }
{
    match halt {
        Halt::Read => 3,
        Halt::Write => 4,
        Halt::NoMemory => 5,
    }
}
