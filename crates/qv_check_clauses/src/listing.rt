//! The clause lists of a certificate are written.

ghost use Rattle.std.specs.Prelude.{◌≡◌, ◌≢◌, ◌⊎◌, ◌++◌, ◌≤◌, ◌<◌, List, [], ℕ, IfOk, OnErr, IfSome, IsErrOf, length};
ghost use Rattle.qv_io.specs.Count.{Rose};
ghost use Rattle.qv_io.specs.Sink.{Appends};
ghost use Rattle.qv_sexpr.specs.Limits.{read_limit};
ghost use Rattle.qv_check_defs.specs.Limits.{MetLimit};
ghost use Rattle.qv_check_defs.specs.Outcome.{outcome};
ghost use Rattle.qv_check_script.specs.Ending.{status_of};
ghost use Rattle.qv_check_clauses.specs.Clauses.{clauses_text};
ghost use Rattle.qv_check_clauses.specs.Following.{IsListing};

use crate::checking::check;
use crate::following::written;
use qv_check_script::{Ending, Halt};
use qv_check_trim::take_all;
use qv_io::{Sink, Source, put_all};
use std::alloc::{AllocError, Global};

// How the check of a certificate ended, and what is written of it.
#[derive(Drop)]
struct Listing {
    ending: Ending,
    text: Vec<u8>,
}

// Checks a certificate beside its script, and makes what is written of it.
fn list_all(alloc: Global, places: u32, script: &[u8], cert: &[u8]) -> Result<Listing, AllocError>
    requires { length cert.now < read_limit }
    ensures { IfOk result (λ listing. IsListing places script.now cert.now listing.ending
        listing.text.items) }
{
    let told = check(alloc, places, script, cert)?;
    let text = written(alloc, places, script, cert, &told.printed)?;
    Ok(Listing {
        ending: told.ending,
        text,
    })
}

/// Checks a certificate beside its script as `verify` does, and writes for each section that was
/// accepted, with an answer other than unknown, the clauses that its refutation refutes, in the
/// DIMACS format: behind a comment with the check's number and its answer. A last comment says
/// how the check ends. Both texts are taken whole, and what is written is held until the check is
/// over.
pub fn clauses<S: Source, C: Source, O: Sink>(
    alloc: Global,
    places: u32,
    script: &mut S,
    cert: &mut C,
    out: &mut O,
) -> Result<Ending, Halt>
    // The status is that of `verify`, and of texts that are told this is written, whole.
    ensures done { IfOk result (λ ending. IfSome (S.left script.old) (λ text.
        IfSome (C.left cert.old) (λ bytes. (status_of ending ≡ (outcome places text bytes).status)
        × Appends (O.held out.old) (O.held out.new) (clauses_text places text bytes)))) }
    // Or the front of it was written.
    ensures cut { OnErr result (IfSome (S.left script.old) (λ text.
        IfSome (C.left cert.old) (λ bytes. (written rest : List ℕ) ×
        (clauses_text places text bytes ≡ written ++ rest)
        × Appends (O.held out.old) (O.held out.new) written))) }
    // Where memory was wanting it isn't the whole.
    ensures short { IsErrOf result Halt.NoMemory → IfSome (S.left script.old) (λ text.
        IfSome (C.left cert.old) (λ bytes. (written rest : List ℕ) ×
        (clauses_text places text bytes ≡ written ++ rest) × (rest ≢ [])
        × Appends (O.held out.old) (O.held out.new) written)) }

    // Where the others come from.
    ensures read { IsErrOf result Halt.Read → Rose (S.faults script.old) (S.faults script.new)
        ⊎ Rose (C.faults cert.old) (C.faults cert.new) }
    ensures limit { IsErrOf result Halt.ReadLimit →
        MetLimit S.read_gives (S.left script.old) script.old script.new
        ⊎ MetLimit C.read_gives (C.left cert.old) cert.old cert.new }
    ensures write { IsErrOf result Halt.Write → Rose (O.faults out.old) (O.faults out.new) }

    // What stays.
    ensures script_count { S.faults script.old ≤ S.faults script.new }
    ensures cert_count { C.faults cert.old ≤ C.faults cert.new }
    ensures out_count { O.faults out.old ≤ O.faults out.new }
{
    let text = take_all(alloc, script)?;
    let bytes = take_all(alloc, cert)?;
    let listing = list_all(alloc, places, &text, &bytes)?;
    put_all(out, &listing.text)?;
    Ok(listing.ending)
}
