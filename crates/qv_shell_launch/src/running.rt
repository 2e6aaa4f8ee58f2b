//! A run that is to come, whatever it is.

ghost use Rattle.std.specs.Prelude.{◌≡◌, ◌⊎◌, ℕ, List, Option};
ghost use Rattle.qv_io.specs.Count.{Rose};
ghost use Rattle.qv_meter.specs.Records.{Record};
ghost use Rattle.qv_shell_args.specs.Call.{Request};
ghost use Rattle.qv_shell.specs.Bench.{IsBenchRun};
ghost use Rattle.qv_shell.specs.Checking.{IsCheckRun};
ghost use Rattle.qv_shell.specs.Host.{IsGenRun, IsWritingUnless, RanShort, WantsMore};
ghost use Rattle.qv_shell.specs.Host.{StopsReading, StopsWriting};
ghost use Rattle.qv_shell.specs.Lrat.{IsLratRun};
ghost use Rattle.qv_shell.specs.Trimming.{IsTrimRun};
ghost use Rattle.qv_shell.specs.Clauses.{IsClausesRun};
ghost use Rattle.qv_shell.specs.Formulas.{IsQCheckRun, IsQSolveRun};
ghost use Rattle.qv_shell.specs.Requests.{IfSolve, IfCheck, IfLrat, IfTrim, IfClauses};
ghost use Rattle.qv_shell.specs.Requests.{IfQSolve, IfQCheck, IfGen, IfBench, IfPage, IfRefused};
ghost use Rattle.qv_shell.specs.Requests.{UnlessReads, limits_with};
ghost use Rattle.qv_shell.specs.Solving.{IsSolveRun};
ghost use Rattle.qv_shell.specs.Words.{page_text, usage};

use qv_io::{Sink, Source};
use qv_shell::Status;
use qv_shell_args::Settings;
use qv_shell_host::Charged;

/// A run that is to come: its callers take the status that it ends with as it is, since they know no
/// other.
pub trait Run {
    /// What its words ask for.
    ghost request: { Self → Option Request };

    /// The records of its meter.
    ghost records: { Self → List Record };

    /// It ended with this status, at last.
    ghost ended: { Self → ℕ → Type 0 };

    /// How it ends.
    fn end<S: Source, C: Source, O: Sink, P: Sink>(
        &mut self,
        script: &mut S,
        cert_in: &mut C,
        out: &mut O,
        cert_out: &mut P,
    ) -> Status
        ensures ended { ended self.new result }

        // The status is that of what was read and written.
        ensures solves { IfSolve (request self.old) (λ settings.
            IsSolveRun settings.places S.read_gives (limits_with settings.budgets)
            (S.left script.old) script.old script.new (O.held out.old) (O.held out.new) (P.held cert_out.old) (P.held cert_out.new)
            (records self.old) (records self.new) result) }
        ensures checks { IfCheck (request self.old) (λ places.
            IsCheckRun places S.read_gives (Rose (C.faults cert_in.old) (C.faults cert_in.new)
            ⊎ WantsMore places C.read_gives (S.left script.old) (C.left cert_in.old) cert_in.old
            cert_in.new) (S.left script.old) (C.left cert_in.old) script.old script.new
            (O.held out.old) (O.held out.new) result) }
        ensures proves { IfLrat (request self.old)
            (IsLratRun (cert_in.new ≡ cert_in.old) (S.left script.old) (C.left cert_in.old)
            (O.held out.old) (O.held out.new) result) }
        ensures trims { IfTrim (request self.old) (λ places.
            IsTrimRun places (S.left script.old) (C.left cert_in.old) (O.held out.old) (O.held out.new)
            (P.held cert_out.old) (P.held cert_out.new) result) }
        ensures lists { IfClauses (request self.old) (λ places.
            IsClausesRun places (S.left script.old) (C.left cert_in.old) (O.held out.old)
            (O.held out.new) result) }
        ensures qsolves { IfQSolve (request self.old) (λ settings.
            IsQSolveRun settings.places S.read_gives S.left (limits_with settings.budgets)
            script.old script.new (O.held out.old) (O.held out.new) (P.held cert_out.old) (P.held cert_out.new)
            (records self.old) (records self.new) result) }
        ensures qchecks { IfQCheck (request self.old) (λ places.
            IsQCheckRun places (S.left script.old) (C.left cert_in.old)
            (O.held out.old) (O.held out.new) result) }
        ensures generates { IfGen (request self.old) (λ number.
            IsGenRun number (O.held out.old) (O.held out.new) result) }
        ensures benches { IfBench (request self.old) (λ number.
            IsBenchRun number (O.held out.old) (O.held out.new)
            (records self.old) (records self.new) result) }
        ensures pages { IfPage (request self.old) (λ page.
            IsWritingUnless (O.held out.old) (O.held out.new) (page_text page) 0 result) }
        ensures refuses { IfRefused (request self.old)
            (IsWritingUnless (O.held out.old) (O.held out.new) usage 2 result) }

        // What 3 and 4 come from.
        ensures reading { StopsReading (request self.old)
            (RanShort S.read_gives S.left S.faults script.old script.new)
            (RanShort C.read_gives C.left C.faults cert_in.old cert_in.new) result }
        ensures writing { StopsWriting (request self.old)
            (Rose (O.faults out.old) (O.faults out.new))
            (Rose (P.faults cert_out.old) (P.faults cert_out.new)) result }
        ensures unread { UnlessReads (request self.old) (cert_in.new ≡ cert_in.old) };

    /// How a script or a formula is to be solved, where the words ask for that.
    fn settings(&self) -> Option<Settings>;

    /// What was charged for all checks.
    fn charged(&self) -> Charged;
}
