//! A certificate is checked, and what is accepted of it is written trimmed.

ghost use Rattle.std.specs.Prelude.{◌≡◌, ◌≢◌, ◌⊎◌, ◌++◌, ◌≤◌, List, [], ℕ, IfOk, OnErr, IfSome, IsErrOf};
ghost use Rattle.qv_io.specs.Count.{Rose};
ghost use Rattle.qv_io.specs.Sink.{Appends};
ghost use Rattle.qv_check_defs.specs.Limits.{MetLimit};
ghost use Rattle.qv_check_defs.specs.Outcome.{outcome};
ghost use Rattle.qv_check_script.specs.Ending.{status_of};
ghost use Rattle.qv_check_trim.specs.Trimmed.{AppendsTrimmed, AppendsTrimmedFront};

use crate::checking::check_held;
use crate::sections::write_kept;
use crate::taking::take_all;
use qv_check_script::{Ending, Halt};
use qv_io::{Sink, Source, put_all};
use std::alloc::Global;

/// Checks a certificate beside its script and prints what `verify` prints, behind the trimmed
/// certificate: its first line, and each section that was accepted, with its needed lines alone.
/// The certificate is taken whole before the script is read, and what is printed is held until the
/// sections are written.
pub fn trim<S: Source, C: Source, O: Sink, P: Sink>(
    alloc: Global,
    places: u32,
    script: &mut S,
    cert: &mut C,
    out: &mut O,
    cert_out: &mut P,
) -> Result<Ending, Halt>
    // Of texts that are told, what is printed is the verdict, whole.
    ensures done { IfOk result (λ ending. IfSome (S.left script.old) (λ text.
        IfSome (C.left cert.old) (λ bytes. (status_of ending ≡ (outcome places text bytes).status)
        × Appends (O.held out.old) (O.held out.new) (outcome places text bytes).text))) }
    // Or the front of it was printed.
    ensures cut { OnErr result (IfSome (S.left script.old) (λ text.
        IfSome (C.left cert.old) (λ bytes. (written rest : List ℕ) ×
        ((outcome places text bytes).text ≡ written ++ rest)
        × Appends (O.held out.old) (O.held out.new) written))) }
    // Where memory was wanting it isn't the whole.
    ensures short { IsErrOf result Halt.NoMemory → IfSome (S.left script.old) (λ text.
        IfSome (C.left cert.old) (λ bytes. (written rest : List ℕ) ×
        ((outcome places text bytes).text ≡ written ++ rest) × (rest ≢ [])
        × Appends (O.held out.old) (O.held out.new) written)) }

    // The trimmed certificate was written, also where a line of the certificate is refused.
    ensures trimmed { IfOk result (λ ending. IfSome (S.left script.old) (λ text.
        IfSome (C.left cert.old) (λ bytes.
        AppendsTrimmed places text bytes (P.held cert_out.old) (P.held cert_out.new)))) }
    // Or the front of it was, with the section of each answer that was printed.
    ensures front { OnErr result (IfSome (S.left script.old) (λ text.
        IfSome (C.left cert.old) (λ bytes. AppendsTrimmedFront places text bytes
        (O.held out.old) (O.held out.new) (P.held cert_out.old) (P.held cert_out.new)))) }

    // Where the others come from.
    ensures read { IsErrOf result Halt.Read → Rose (S.faults script.old) (S.faults script.new)
        ⊎ Rose (C.faults cert.old) (C.faults cert.new) }
    ensures limit { IsErrOf result Halt.ReadLimit →
        MetLimit S.read_gives (S.left script.old) script.old script.new
        ⊎ MetLimit C.read_gives (C.left cert.old) cert.old cert.new }
    ensures write { IsErrOf result Halt.Write → Rose (O.faults out.old) (O.faults out.new)
        ⊎ Rose (P.faults cert_out.old) (P.faults cert_out.new) }

    // What stays.
    ensures script_count { S.faults script.old ≤ S.faults script.new }
    ensures cert_count { C.faults cert.old ≤ C.faults cert.new }
    ensures out_count { O.faults out.old ≤ O.faults out.new }
    ensures cert_out_count { P.faults cert_out.old ≤ P.faults cert_out.new }
{
    let bytes = take_all(alloc, cert)?;
    let checked = check_held(alloc, places, script, &bytes)?;
    write_kept(alloc, &bytes, &checked.printed, cert_out)?;
    put_all(out, &checked.printed)?;
    checked.ended
}
