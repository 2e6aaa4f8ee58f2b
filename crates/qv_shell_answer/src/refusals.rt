//! What the checker says of the section of a check.

ghost use Rattle.std.specs.Prelude.{◌≡◌, ◌<◌, ◌++◌, ◌∷◌, List, ℕ, [], All, IfOk, None, OnOk, length};
ghost use Rattle.qv_words.specs.Truth.{IsAssertion, HaveOneSort};
ghost use Rattle.qv_store.specs.Stores.{Grows};
ghost use Rattle.qv_store.specs.Walks.{named};
ghost use Rattle.qv_cert.specs.Text.{text_of};
ghost use Rattle.qv_cert.specs.TextLaws.{HasNoLf, bytes_of_lines};
ghost use Rattle.qv_script_transcript.specs.Certificates.{header_line};
ghost use Rattle.qv_shell_answer.specs.Refusals.{IsSectionText, StandsAlone, fresh};

use qv_cert::{CertNext, CertReader};
use qv_check::{Verdict, check_one};
use qv_check_script::refused_line;
use qv_io::{MemSource, PIECE};
use qv_store::{Id, NoMemory, Store};
use std::alloc::{AllocError, Global};

// The first line of a certificate.
const HEADER: &[u8] = b"qbv-cert 2\n";

/// The line by which the checker refuses the section of a check of these formulas, the one of this
/// number, if it does: it refuses none. The section stands alone in a certificate.
pub(crate) fn refusal_of(
    alloc: Global,
    store: &mut Store,
    formulas: &[Id],
    number: u64,
    places: u32,
    section: &[u8],
) -> Result<Option<Vec<u8>>, NoMemory>
    requires ids { All (λ id. id < length store.old) formulas.now }
    requires assertions { All IsAssertion (named store.old formulas.now) }
    requires sorts { HaveOneSort (named store.old formulas.now) }
    requires section { IsSectionText (named store.old formulas.now) number section.now }
    ensures none { IfOk result (λ refusal. refusal ≡ None) }
    ensures grows { Grows store.old store.new }
{
    let mut source = behind_header(alloc, section)?;
    let mut reader = CertReader::new(alloc)?;
    judge(
        alloc,
        store,
        formulas,
        number,
        places,
        &mut reader,
        &mut source,
    )
}

// A certificate that has this section alone.
fn behind_header(alloc: Global, section: &[u8]) -> Result<MemSource, NoMemory>
    ensures { IfOk result (λ source.
        source.left ≡ bytes_of_lines (header_line ∷ []) ++ section.now) }
{
    let mut bytes = Vec::from_slice(alloc, HEADER)?;
    bytes.extend_from_slice(section)?;
    Ok(MemSource::new(bytes, PIECE, Vec::new(alloc)))
}

// The line by which the checker refuses the section behind the first line, if it does.
fn judge(
    alloc: Global,
    store: &mut Store,
    formulas: &[Id],
    number: u64,
    places: u32,
    reader: &mut CertReader,
    source: &mut MemSource,
) -> Result<Option<Vec<u8>>, NoMemory>
    requires ids { All (λ id. id < length store.old) formulas.now }
    requires assertions { All IsAssertion (named store.old formulas.now) }
    requires sorts { HaveOneSort (named store.old formulas.now) }
    requires fresh { reader.old ≡ fresh }
    requires section { StandsAlone (named store.old formulas.now) number source.old.left }
    ensures none { IfOk result (λ refusal. refusal ≡ None) }
    ensures grows { Grows store.old store.new }
{
    pass_header(reader, source)?;
    match check_one(alloc, store, formulas, number, places, reader, source) {
        Verdict::Accepted(_) => Ok(None),
        Verdict::Refused { line, kind } => Ok(Some(refused_line(alloc, line, kind)?)),
        // There was room for the places, and memory holds no more bytes than may be read.
        Verdict::PrefixLimit | Verdict::ReadFault | Verdict::ReadLimit | Verdict::NoMemory => {
            Err(AllocError)
        }
    }
}

// Reads the first line.
fn pass_header(reader: &mut CertReader, source: &mut MemSource) -> Result<(), NoMemory>
    requires { reader.old ≡ fresh }
    ensures begun { OnOk result (0 < reader.new.given) }
    ensures reads { OnOk result (reader.new.stopped ≡ None) }
    ensures version { (lines : List (List ℕ)) → All HasNoLf lines →
        source.old.left ≡ bytes_of_lines (header_line ∷ lines) →
        OnOk result (reader.new.version ≡ 2) }
    ensures lines { (lines : List (List ℕ)) → All HasNoLf lines →
        source.old.left ≡ bytes_of_lines (header_line ∷ lines) →
        OnOk result ((text_of (reader.new.rest ++ source.new.left)).lines ≡ lines) }
{
    match reader.next_line(source, false) {
        CertNext::Line { .. } => Ok(()),
        _ => Err(AllocError),
    }
}
