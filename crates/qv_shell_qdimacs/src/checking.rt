//! A certificate is checked beside a file.

ghost use Rattle.std.specs.Prelude.{◌≡◌, ◌≢◌, ◌≤◌, ◌++◌, ◌⊎◌, ℕ, List, [], IfOk, IfSome, OnErr, IsErrOf};
ghost use Rattle.qv_io.specs.Count.{Rose};
ghost use Rattle.qv_io.specs.Sink.{Appends};
ghost use Rattle.qv_check_defs.specs.Limits.{MetLimit};
ghost use Rattle.qv_check_script.specs.Ending.{status_of};
ghost use Rattle.qv_shell_qdimacs.specs.Checking.{file_outcome};

use crate::judging::judge;
use qv_cert::CertReader;
use qv_check_script::{Ending, Halt};
use qv_io::{Sink, Source, put_all};
use std::alloc::Global;

/// Checks a certificate beside a file in the QDIMACS format, and writes the answer that is accepted
/// and behind it `accepted`, the file's fault, or the line of the certificate that is refused and
/// why. The certificate's first line is read before the file, and the file before the section.
pub fn check_file<S: Source, C: Source, O: Sink>(
    alloc: Global,
    places: u32,
    file: &mut S,
    cert: &mut C,
    out: &mut O,
) -> Result<Ending, Halt>
    // Of texts that are told this is the outcome, whole.
    ensures done { IfOk result (λ ending. IfSome (S.left file.old) (λ text.
        IfSome (C.left cert.old) (λ bytes.
        (status_of ending ≡ (file_outcome places text bytes).status)
        × Appends (O.held out.old) (O.held out.new) (file_outcome places text bytes).text))) }
    // Or a front of it was written.
    ensures cut { OnErr result (IfSome (S.left file.old) (λ text.
        IfSome (C.left cert.old) (λ bytes. (written rest : List ℕ) ×
        ((file_outcome places text bytes).text ≡ written ++ rest)
        × Appends (O.held out.old) (O.held out.new) written))) }
    // Where memory was wanting it isn't the whole.
    ensures short { IsErrOf result Halt.NoMemory → IfSome (S.left file.old) (λ text.
        IfSome (C.left cert.old) (λ bytes. (written rest : List ℕ) ×
        ((file_outcome places text bytes).text ≡ written ++ rest) × (rest ≢ [])
        × Appends (O.held out.old) (O.held out.new) written)) }

    // Where the others come from.
    ensures read { IsErrOf result Halt.Read → Rose (S.faults file.old) (S.faults file.new)
        ⊎ Rose (C.faults cert.old) (C.faults cert.new) }
    ensures limit { IsErrOf result Halt.ReadLimit →
        MetLimit S.read_gives (S.left file.old) file.old file.new
        ⊎ MetLimit C.read_gives (C.left cert.old) cert.old cert.new }
    ensures write { IsErrOf result Halt.Write → Rose (O.faults out.old) (O.faults out.new) }

    // What stays.
    ensures file_count { S.faults file.old ≤ S.faults file.new }
    ensures cert_count { C.faults cert.old ≤ C.faults cert.new }
    ensures out_count { O.faults out.old ≤ O.faults out.new }
{
    let mut reader = CertReader::new(alloc)?;
    let judged = judge(alloc, places, &mut reader, file, cert)?;
    put_all(out, &judged.text)?;
    Ok(judged.ending)
}
