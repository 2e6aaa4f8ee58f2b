//! The whole program, over any sources and sinks.

ghost use Rattle.std.specs.Prelude.{◌≡◌, ◌≢◌, ◌≤◌, ◌⊎◌, Some, map, string_bytes};
ghost use Rattle.qv_io.specs.Count.{Rose};
ghost use Rattle.qv_shell_args.specs.Call.{IsInRanges, request_in, request_of};
ghost use Rattle.qv_meter.specs.Records.{records_of};
ghost use Rattle.qv_check_defs.specs.Limits.{MetLimit};
ghost use Rattle.qv_check_script.specs.Wanting.{WantsMore};
ghost use Rattle.qv_shell.specs.Words.{page_text, usage};
ghost use Rattle.qv_shell.specs.Lrat.{IsLratRun};
ghost use Rattle.qv_shell.specs.Trimming.{IsTrimRun};
ghost use Rattle.qv_shell.specs.Clauses.{IsClausesRun};
ghost use Rattle.qv_shell.specs.Formulas.{IsQCheckRun, IsQSolveRun};
ghost use Rattle.qv_shell.specs.Requests.{IfSolve, IfCheck, IfLrat, IfTrim, IfClauses};
ghost use Rattle.qv_shell.specs.Requests.{IfQSolve, IfQCheck, IfGen, IfBench, IfPage, IfRefused};
ghost use Rattle.qv_shell.specs.Requests.{IfSolves, IfChecks, IfReads, IfWrites};
ghost use Rattle.qv_shell.specs.Requests.{UnlessReads, UnlessWrites, UnlessScript, UnlessMetered};
ghost use Rattle.qv_shell.specs.Requests.{IsDone, limits_with};
ghost use Rattle.qv_shell.specs.Solving.{IsSolveRun};
ghost use Rattle.qv_shell.specs.Checking.{IsCheckRun, IsEnd};
ghost use Rattle.qv_gen.specs.Generating.{IsGenRun, IsWriting, IsWritingUnless};
ghost use Rattle.qv_shell.specs.Bench.{IsBenchRun};

use crate::bench::bench;
use crate::checking::check;
use crate::clauses::clauses;
use crate::formulas::{qcheck, qsolve};
use crate::pages::{USAGE, text_of};
use crate::proving::prove;
use crate::solving::solve;
use crate::trimming::trim;
use qv_check_trim::laws::trimmed_are_accepted;
use qv_gen::{Status, generate, write_text};
use qv_io::{Sink, Source};
use qv_meter::Meter;
use qv_shell_args::{Call, CallFault, call_of};
use qv_shell_follow::Watch;
use qv_shell_qdimacs::laws::{file_answers_are_true, solved_files_are_accepted};
use std::alloc::Global;

/// Does all that the program does. `words` are those behind the program's name. Where a script is
/// solved, `watch` is told of its checks.
pub fn run<S: Source, C: Source, O: Sink, P: Sink, W: Watch>(
    alloc: Global,
    words: &[String],
    script: &mut S,
    cert_in: &mut C,
    out: &mut O,
    cert_out: &mut P,
    meter: &mut Meter,
    watch: &mut W,
) -> Status
    // A script is solved: what was printed, the certificate, the records of the meter, what was read
    // and the status are those of one run.
    ensures solves { IfSolve (request_in (map string_bytes words.now)) (λ settings.
        IsSolveRun settings.places S.read_gives (limits_with settings.budgets) (S.left script.old) script.old script.new
        (O.held out.old) (O.held out.new) (P.held cert_out.old) (P.held cert_out.new)
        (records_of meter.old) (records_of meter.new) result) }
    // A certificate is checked beside its script: what was written and the status are the verdict's.
    ensures checks { IfCheck (request_in (map string_bytes words.now)) (λ places.
        IsCheckRun places S.read_gives (Rose (C.faults cert_in.old) (C.faults cert_in.new)
        ⊎ WantsMore places C.read_gives (S.left script.old) (C.left cert_in.old) cert_in.old cert_in.new)
        (S.left script.old) (C.left cert_in.old) script.old script.new (O.held out.old)
        (O.held out.new) result) }
    // A SAT solver's proof is checked beside a list of clauses: what was written and the status are
    // those of its outcome.
    ensures proves { IfLrat (request_in (map string_bytes words.now))
        (IsLratRun (cert_in.new ≡ cert_in.old) (S.left script.old) (C.left cert_in.old)
        (O.held out.old) (O.held out.new) result) }
    // A certificate is checked beside its script and written anew: what was printed and the status are
    // the verdict's, and what was written is the certificate, trimmed.
    ensures trims { IfTrim (request_in (map string_bytes words.now)) (λ places.
        IsTrimRun places (S.left script.old) (C.left cert_in.old) (O.held out.old) (O.held out.new)
        (P.held cert_out.old) (P.held cert_out.new) result) }
    // A certificate is checked beside its script, and the clauses are written that its sections
    // refute: the status is the verdict's.
    ensures lists { IfClauses (request_in (map string_bytes words.now)) (λ places.
        IsClausesRun places (S.left script.old) (C.left cert_in.old) (O.held out.old)
        (O.held out.new) result) }
    // A quantified Boolean formula is solved, or a certificate checked beside one.
    ensures qsolves { IfQSolve (request_in (map string_bytes words.now)) (λ settings.
        IsQSolveRun settings.places S.read_gives S.left (limits_with settings.budgets)
        script.old script.new (O.held out.old) (O.held out.new) (P.held cert_out.old) (P.held cert_out.new)
        (records_of meter.old) (records_of meter.new) result) }
    ensures qchecks { IfQCheck (request_in (map string_bytes words.now)) (λ places.
        IsQCheckRun places (S.left script.old) (C.left cert_in.old)
        (O.held out.old) (O.held out.new) result) }
    // The generator's script of a number is written, or solved and checked in memory.
    ensures generates { IfGen (request_in (map string_bytes words.now)) (λ number.
        IsGenRun number (O.held out.old) (O.held out.new) result) }
    ensures benches { IfBench (request_in (map string_bytes words.now)) (λ number.
        IsBenchRun number (O.held out.old) (O.held out.new)
        (records_of meter.old) (records_of meter.new) result) }
    // The page of help is written, or the version.
    ensures pages { IfPage (request_in (map string_bytes words.now)) (λ page.
        IsWritingUnless (O.held out.old) (O.held out.new) (page_text page) 0 result) }
    // Other words are refused: the usage line is written.
    ensures refuses { IfRefused (request_in (map string_bytes words.now))
        (IsWritingUnless (O.held out.old) (O.held out.new) usage 2 result) }

    // Where each other status comes from.
    ensures read { UnlessReads (request_in (map string_bytes words.now)) (result ≡ 3 →
        Rose (S.faults script.old) (S.faults script.new)
        ⊎ MetLimit S.read_gives (S.left script.old) script.old script.new) }
    ensures cert_read { IfReads (request_in (map string_bytes words.now)) (result ≡ 3 →
        (Rose (S.faults script.old) (S.faults script.new)
        ⊎ Rose (C.faults cert_in.old) (C.faults cert_in.new))
        ⊎ (MetLimit S.read_gives (S.left script.old) script.old script.new
        ⊎ MetLimit C.read_gives (C.left cert_in.old) cert_in.old cert_in.new)) }
    ensures write { UnlessWrites (request_in (map string_bytes words.now)) (result ≡ 4 →
        Rose (O.faults out.old) (O.faults out.new)) }
    ensures cert_write { IfWrites (request_in (map string_bytes words.now)) (result ≡ 4 →
        Rose (O.faults out.old) (O.faults out.new)
        ⊎ Rose (P.faults cert_out.old) (P.faults cert_out.new)) }
    // Where none of these came, and memory sufficed, the run comes to its end.
    ensures solve_ends { IfSolves (request_in (map string_bytes words.now))
        ((Rose (S.faults script.old) (S.faults script.new) → ⊥)
        → (MetLimit S.read_gives (S.left script.old) script.old script.new → ⊥)
        → (Rose (O.faults out.old) (O.faults out.new) → ⊥)
        → (Rose (P.faults cert_out.old) (P.faults cert_out.new) → ⊥)
        → result ≢ 5 → result ≤ 1) }
    ensures check_ends { IfChecks (request_in (map string_bytes words.now))
        ((Rose (S.faults script.old) (S.faults script.new) → ⊥)
        → (Rose (C.faults cert_in.old) (C.faults cert_in.new) → ⊥)
        → (MetLimit S.read_gives (S.left script.old) script.old script.new → ⊥)
        → (MetLimit C.read_gives (C.left cert_in.old) cert_in.old cert_in.new → ⊥)
        → (Rose (O.faults out.old) (O.faults out.new) → ⊥) → result ≢ 5 → IsEnd result) }
    ensures trim_ends { IfTrim (request_in (map string_bytes words.now)) (λ places.
        (Rose (S.faults script.old) (S.faults script.new) → ⊥)
        → (Rose (C.faults cert_in.old) (C.faults cert_in.new) → ⊥)
        → (MetLimit S.read_gives (S.left script.old) script.old script.new → ⊥)
        → (MetLimit C.read_gives (C.left cert_in.old) cert_in.old cert_in.new → ⊥)
        → (Rose (O.faults out.old) (O.faults out.new) → ⊥)
        → (Rose (P.faults cert_out.old) (P.faults cert_out.new) → ⊥)
        → result ≢ 5 → IsEnd result) }
    ensures ends { UnlessScript (request_in (map string_bytes words.now))
        ((Rose (O.faults out.old) (O.faults out.new) → ⊥) → result ≢ 5
        → IsDone (request_in (map string_bytes words.now)) result) }

    // What stays.
    ensures script { UnlessScript (request_in (map string_bytes words.now))
        (script.new ≡ script.old) }
    ensures cert_in { UnlessReads (request_in (map string_bytes words.now))
        (cert_in.new ≡ cert_in.old) }
    ensures cert_out { UnlessWrites (request_in (map string_bytes words.now))
        (cert_out.new ≡ cert_out.old) }
    ensures meter { UnlessMetered (request_in (map string_bytes words.now))
        (meter.new ≡ meter.old) }
    ensures script_count { S.faults script.old ≤ S.faults script.new }
    ensures cert_in_count { C.faults cert_in.old ≤ C.faults cert_in.new }
    ensures out_count { O.faults out.old ≤ O.faults out.new }
    ensures cert_out_count { P.faults cert_out.old ≤ P.faults cert_out.new }
{
    trimmed_are_accepted();
    file_answers_are_true();
    solved_files_are_accepted();
    match call_of(alloc, words) {
        Ok(call) => perform(alloc, &call, script, cert_in, out, cert_out, meter, watch),
        Err(CallFault::Refused) => write_text(out, USAGE, 2),
        Err(CallFault::NoMemory) => 5,
    }
}

// Does what a call asks for: what `run` says of the words holds of the call.
fn perform<S: Source, C: Source, O: Sink, P: Sink, W: Watch>(
    alloc: Global,
    call: &Call,
    script: &mut S,
    cert_in: &mut C,
    out: &mut O,
    cert_out: &mut P,
    meter: &mut Meter,
    watch: &mut W,
) -> Status
    requires { IsInRanges call.now }
    ensures solves { IfSolve (Some (request_of call.now)) (λ settings.
        IsSolveRun settings.places S.read_gives (limits_with settings.budgets) (S.left script.old) script.old script.new
        (O.held out.old) (O.held out.new) (P.held cert_out.old) (P.held cert_out.new)
        (records_of meter.old) (records_of meter.new) result) }
    ensures checks { IfCheck (Some (request_of call.now)) (λ places.
        IsCheckRun places S.read_gives (Rose (C.faults cert_in.old) (C.faults cert_in.new)
        ⊎ WantsMore places C.read_gives (S.left script.old) (C.left cert_in.old) cert_in.old cert_in.new)
        (S.left script.old) (C.left cert_in.old) script.old script.new (O.held out.old)
        (O.held out.new) result) }
    ensures proves { IfLrat (Some (request_of call.now))
        (IsLratRun (cert_in.new ≡ cert_in.old) (S.left script.old) (C.left cert_in.old)
        (O.held out.old) (O.held out.new) result) }
    ensures trims { IfTrim (Some (request_of call.now)) (λ places.
        IsTrimRun places (S.left script.old) (C.left cert_in.old) (O.held out.old) (O.held out.new)
        (P.held cert_out.old) (P.held cert_out.new) result) }
    ensures lists { IfClauses (Some (request_of call.now)) (λ places.
        IsClausesRun places (S.left script.old) (C.left cert_in.old) (O.held out.old)
        (O.held out.new) result) }
    ensures qsolves { IfQSolve (Some (request_of call.now)) (λ settings.
        IsQSolveRun settings.places S.read_gives S.left (limits_with settings.budgets)
        script.old script.new (O.held out.old) (O.held out.new) (P.held cert_out.old) (P.held cert_out.new)
        (records_of meter.old) (records_of meter.new) result) }
    ensures qchecks { IfQCheck (Some (request_of call.now)) (λ places.
        IsQCheckRun places (S.left script.old) (C.left cert_in.old)
        (O.held out.old) (O.held out.new) result) }
    ensures generates { IfGen (Some (request_of call.now)) (λ number.
        IsGenRun number (O.held out.old) (O.held out.new) result) }
    ensures benches { IfBench (Some (request_of call.now)) (λ number.
        IsBenchRun number (O.held out.old) (O.held out.new)
        (records_of meter.old) (records_of meter.new) result) }
    ensures pages { IfPage (Some (request_of call.now)) (λ page.
        IsWriting (O.held out.old) (O.held out.new) (page_text page) 0 result) }
    ensures read { UnlessReads (Some (request_of call.now)) (result ≡ 3 →
        Rose (S.faults script.old) (S.faults script.new)
        ⊎ MetLimit S.read_gives (S.left script.old) script.old script.new) }
    ensures cert_read { IfReads (Some (request_of call.now)) (result ≡ 3 →
        (Rose (S.faults script.old) (S.faults script.new)
        ⊎ Rose (C.faults cert_in.old) (C.faults cert_in.new))
        ⊎ (MetLimit S.read_gives (S.left script.old) script.old script.new
        ⊎ MetLimit C.read_gives (C.left cert_in.old) cert_in.old cert_in.new)) }
    ensures write { UnlessWrites (Some (request_of call.now)) (result ≡ 4 →
        Rose (O.faults out.old) (O.faults out.new)) }
    ensures cert_write { IfWrites (Some (request_of call.now)) (result ≡ 4 →
        Rose (O.faults out.old) (O.faults out.new)
        ⊎ Rose (P.faults cert_out.old) (P.faults cert_out.new)) }
    ensures solve_ends { IfSolves (Some (request_of call.now))
        ((Rose (S.faults script.old) (S.faults script.new) → ⊥)
        → (MetLimit S.read_gives (S.left script.old) script.old script.new → ⊥)
        → (Rose (O.faults out.old) (O.faults out.new) → ⊥)
        → (Rose (P.faults cert_out.old) (P.faults cert_out.new) → ⊥)
        → result ≢ 5 → result ≤ 1) }
    ensures check_ends { IfChecks (Some (request_of call.now))
        ((Rose (S.faults script.old) (S.faults script.new) → ⊥)
        → (Rose (C.faults cert_in.old) (C.faults cert_in.new) → ⊥)
        → (MetLimit S.read_gives (S.left script.old) script.old script.new → ⊥)
        → (MetLimit C.read_gives (C.left cert_in.old) cert_in.old cert_in.new → ⊥)
        → (Rose (O.faults out.old) (O.faults out.new) → ⊥) → result ≢ 5 → IsEnd result) }
    ensures trim_ends { IfTrim (Some (request_of call.now)) (λ places.
        (Rose (S.faults script.old) (S.faults script.new) → ⊥)
        → (Rose (C.faults cert_in.old) (C.faults cert_in.new) → ⊥)
        → (MetLimit S.read_gives (S.left script.old) script.old script.new → ⊥)
        → (MetLimit C.read_gives (C.left cert_in.old) cert_in.old cert_in.new → ⊥)
        → (Rose (O.faults out.old) (O.faults out.new) → ⊥)
        → (Rose (P.faults cert_out.old) (P.faults cert_out.new) → ⊥)
        → result ≢ 5 → IsEnd result) }
    ensures ends { UnlessScript (Some (request_of call.now))
        ((Rose (O.faults out.old) (O.faults out.new) → ⊥) → result ≢ 5
        → IsDone (Some (request_of call.now)) result) }
    ensures script { UnlessScript (Some (request_of call.now))
        (script.new ≡ script.old) }
    ensures cert_in { UnlessReads (Some (request_of call.now))
        (cert_in.new ≡ cert_in.old) }
    ensures cert_out { UnlessWrites (Some (request_of call.now))
        (cert_out.new ≡ cert_out.old) }
    ensures meter { UnlessMetered (Some (request_of call.now))
        (meter.new ≡ meter.old) }
    ensures script_count { S.faults script.old ≤ S.faults script.new }
    ensures cert_in_count { C.faults cert_in.old ≤ C.faults cert_in.new }
    ensures out_count { O.faults out.old ≤ O.faults out.new }
    ensures cert_out_count { P.faults cert_out.old ≤ P.faults cert_out.new }
{
    match call {
        Call::Solve { settings, .. } => {
            solve(alloc, *settings, script, out, cert_out, meter, watch)
        }
        Call::Check { places, .. } => check(alloc, *places, script, cert_in, out),
        Call::Lrat { .. } => prove(alloc, script, cert_in, out),
        Call::Trim { places, .. } => trim(alloc, *places, script, cert_in, out, cert_out),
        Call::Clauses { places, .. } => clauses(alloc, *places, script, cert_in, out),
        Call::QSolve { settings, .. } => { qsolve(alloc, *settings, script, out, cert_out, meter) }
        Call::QCheck { places, .. } => qcheck(alloc, *places, script, cert_in, out),
        Call::Gen(number) => generate(alloc, *number, out),
        Call::Bench(number) => bench(alloc, *number, out, meter),
        Call::Print(page) => write_text(out, text_of(*page), 0),
    }
}
