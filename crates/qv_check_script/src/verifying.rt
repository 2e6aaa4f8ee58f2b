//! The whole check.

ghost use Rattle.std.specs.Prelude.{◌≡◌, ◌≢◌, ◌⊎◌, ◌++◌, ◌≤◌, List, [], ℕ, Err, IfOk, OnErr, IfSome, IsErrOf};
ghost use Rattle.qv_io.specs.Count.{Rose};
ghost use Rattle.qv_io.specs.Sink.{Appends, AppendsPart};
ghost use Rattle.qv_check_script.specs.Ending.{status_of, run_status};
ghost use Rattle.qv_check_defs.specs.Limits.{MetLimit};
ghost use Rattle.qv_check_script.specs.Wanting.{WantsMore};
ghost use Rattle.qv_check_defs.specs.Outcome.{outcome};
ghost use Rattle.qv_check_script.specs.Reading.{ReadsBeside};

use crate::ending::{Ending, Halt};
use crate::following::follow;
use crate::header::read_header;
use qv_cert::CertReader;
use qv_io::{Sink, Source, put_all};
use std::alloc::Global;

/// Follows a script, reads a section of the certificate at each check, and writes the answer of
/// each that is accepted; behind them `accepted`, the script's fault, or the line of the
/// certificate that is refused, and why. A check whose problem has more than so many places is a
/// fault. A line is judged before the next is read.
pub fn verify<S: Source, C: Source, O: Sink>(
    alloc: Global,
    places: u32,
    script: &mut S,
    cert: &mut C,
    out: &mut O,
) -> Result<Ending, Halt>
    // Of texts that are told, this is the verdict, whole.
    ensures done { IfOk result (λ ending. IfSome (S.left script.old) (λ text.
        IfSome (C.left cert.old) (λ bytes. (status_of ending ≡ (outcome places text bytes).status)
        × Appends (O.held out.old) (O.held out.new) (outcome places text bytes).text))) }
    // Or the front of it was written.
    ensures cut { OnErr result (IfSome (S.left script.old) (λ text.
        IfSome (C.left cert.old) (λ bytes. (written rest : List ℕ) ×
        ((outcome places text bytes).text ≡ written ++ rest)
        × Appends (O.held out.old) (O.held out.new) written))) }
    // Where memory was wanting it isn't the whole.
    ensures short { IsErrOf result Halt.NoMemory → IfSome (S.left script.old) (λ text.
        IfSome (C.left cert.old) (λ bytes. (written rest : List ℕ) ×
        ((outcome places text bytes).text ≡ written ++ rest) × (rest ≢ [])
        × Appends (O.held out.old) (O.held out.new) written)) }

    // How far the script was read: nothing behind the answer that ends the check. The limit on the
    // certificate's bytes ends it only where more of them was wanted.
    ensures reading { ReadsBeside places S.read_gives (Rose (C.faults cert.old) (C.faults cert.new)
        ⊎ WantsMore places C.read_gives (S.left script.old) (C.left cert.old) cert.old cert.new)
        script.old (S.left script.old) (O.held out.old) (O.held out.new) (run_status result)
        script.new }

    // Where the others come from.
    ensures read { IsErrOf result Halt.Read → Rose (S.faults script.old) (S.faults script.new)
        ⊎ Rose (C.faults cert.old) (C.faults cert.new) }
    ensures limit { IsErrOf result Halt.ReadLimit →
        MetLimit S.read_gives (S.left script.old) script.old script.new
        ⊎ MetLimit C.read_gives (C.left cert.old) cert.old cert.new }
    ensures write { IsErrOf result Halt.Write → Rose (O.faults out.old) (O.faults out.new) }

    // What stays.
    ensures script_count { S.faults script.old ≤ S.faults script.new }
    ensures cert_count { C.faults cert.old ≤ C.faults cert.new }
    ensures out_count { O.faults out.old ≤ O.faults out.new }
{
    let mut reader = CertReader::new(alloc)?;
    match read_header(alloc, &mut reader, cert)? {
        Some(line) => refuse(out, &line),
        None => follow(alloc, places, &mut reader, script, cert, out),
    }
}

// The first line is refused.
fn refuse<O: Sink>(out: &mut O, line: &[u8]) -> Result<Ending, Halt>
    ensures done { IfOk result (λ ending. (ending ≡ Ending.Refused)
        × Appends (O.held out.old) (O.held out.new) line.now) }
    ensures cut { OnErr result (AppendsPart (O.held out.old) (O.held out.new) line.now) }
    ensures write { OnErr result ((result ≡ Err Halt.Write)
        × Rose (O.faults out.old) (O.faults out.new)) }
    ensures out_count { O.faults out.old ≤ O.faults out.new }
{
    put_all(out, line)?;
    Ok(Ending::Refused)
}
