//! How the check of a certificate beside a file comes to its end.

ghost use Rattle.std.specs.Prelude.{◌≡◌, ◌⊎◌, ◌<◌, ◌≤◌, [], None, IfOk, IfSome, IsErrOf};
ghost use Rattle.qv_io.specs.Count.{Rose};
ghost use Rattle.qv_io.specs.Source.{TellsAsBefore};
ghost use Rattle.qv_cert.specs.CertReader.{to_give};
ghost use Rattle.qv_check_defs.specs.Limits.{MetLimit};
ghost use Rattle.qv_check_lines.specs.Ending.{StopsAtLimit};
ghost use Rattle.qv_qdimacs.specs.Text.{File, qdimacs_of};
ghost use Rattle.qv_shell_qdimacs.specs.Checking.{file_outcome};
ghost use Rattle.qv_shell_qdimacs.specs.Judging.{GoesOn, IsAccepted, IsJudgedBy, closed_by};
ghost use Rattle.qv_shell_qdimacs.specs.Judging.{outcome_behind, outcome_in};

use crate::texts::{LIMIT_WORD, fault_word};
use qv_cert::CertReader;
use qv_check::{Verdict, check_one};
use qv_check_script::{Ending, Halt, Turn, answer_line, finish, read_header, refused_line};
use qv_io::Source;
use qv_qdimacs::{Qdimacs, QdimacsFault, read_qdimacs, translate};
use qv_script_texts::refusal;
use qv_store::Store;
use qv_words::Answer;
use std::alloc::Global;

/// What is written, and how the check ends.
#[derive(Drop)]
pub(crate) struct Judged {
    pub(crate) text: Vec<u8>,
    pub(crate) ending: Ending,
}

/// Judges a certificate from its first line on, with a reader to which nothing has happened.
pub(crate) fn judge<S: Source, C: Source>(
    alloc: Global,
    places: u32,
    reader: &mut CertReader,
    file: &mut S,
    cert: &mut C,
) -> Result<Judged, Halt>
    requires fresh { reader.old ≡ record {
      rest = [];
      taken = 0;
      given = 0;
      version = 0;
      stopped = None;
    } }
    ensures judged { IfOk result (λ judged. IfSome (S.left file.old) (λ text.
        IfSome (C.left cert.old) (λ bytes. file_outcome places text bytes ≡ outcome_in judged))) }
    ensures read { IsErrOf result Halt.Read → Rose (S.faults file.old) (S.faults file.new)
        ⊎ Rose (C.faults cert.old) (C.faults cert.new) }
    ensures limit { IsErrOf result Halt.ReadLimit →
        MetLimit S.read_gives (S.left file.old) file.old file.new
        ⊎ MetLimit C.read_gives (C.left cert.old) cert.old cert.new }
    ensures no_write { IsErrOf result Halt.Write → ⊥ }
    ensures file_count { S.faults file.old ≤ S.faults file.new }
    ensures cert_count { C.faults cert.old ≤ C.faults cert.new }
{
    match read_header(alloc, reader, cert)? {
        Some(text) => Ok(Judged {
            text,
            ending: Ending::Refused,
        }),
        None => judge_file(alloc, places, reader, file, cert),
    }
}

// The same behind the first line.
fn judge_file<S: Source, C: Source>(
    alloc: Global,
    places: u32,
    reader: &mut CertReader,
    file: &mut S,
    cert: &mut C,
) -> Result<Judged, Halt>
    requires begun { 0 < reader.old.given }
    requires reads { reader.old.stopped ≡ None }
    ensures judged { IfOk result (λ judged. IfSome (S.left file.old) (λ text.
        IfSome (to_give reader.old.rest (C.left cert.old)) (λ t. outcome_in judged
        ≡ outcome_behind places reader.old.version reader.old.given (qdimacs_of text) t))) }
    ensures read { IsErrOf result Halt.Read → Rose (S.faults file.old) (S.faults file.new)
        ⊎ Rose (C.faults cert.old) (C.faults cert.new) }
    ensures limit { IsErrOf result Halt.ReadLimit →
        MetLimit S.read_gives (S.left file.old) file.old file.new
        ⊎ StopsAtLimit C.read_gives C.left reader.old cert.old reader.new cert.new }
    ensures no_write { IsErrOf result Halt.Write → ⊥ }
    ensures file_count { S.faults file.old ≤ S.faults file.new }
    ensures cert_count { C.faults cert.old ≤ C.faults cert.new }
{
    match read_qdimacs(alloc, file) {
        Ok(file) => judge_formula(alloc, places, &file, reader, cert),
        Err(QdimacsFault::At { place, kind }) => {
            let text = refusal(alloc, place, fault_word(kind))?;
            Ok(Judged {
                text,
                ending: Ending::Faulty,
            })
        }
        Err(QdimacsFault::ReadFault) => Err(Halt::Read),
        Err(QdimacsFault::ReadLimit) => Err(Halt::ReadLimit),
        Err(QdimacsFault::NoMemory) => Err(Halt::NoMemory),
    }
}

// The same beside the formula of a file.
fn judge_formula<C: Source>(
    alloc: Global,
    places: u32,
    file: &Qdimacs,
    reader: &mut CertReader,
    cert: &mut C,
) -> Result<Judged, Halt>
    requires begun { 0 < reader.old.given }
    requires reads { reader.old.stopped ≡ None }
    ensures judged { IfOk result (λ judged.
        IfSome (to_give reader.old.rest (C.left cert.old)) (λ t. outcome_in judged
        ≡ outcome_behind places reader.old.version reader.old.given
        (File file.now.prefix.items file.now.clauses) t)) }
    ensures read { IsErrOf result Halt.Read → Rose (C.faults cert.old) (C.faults cert.new) }
    ensures limit { IsErrOf result Halt.ReadLimit →
        StopsAtLimit C.read_gives C.left reader.old cert.old reader.new cert.new }
    ensures no_write { IsErrOf result Halt.Write → ⊥ }
    ensures count { C.faults cert.old ≤ C.faults cert.new }
{
    let mut store = Store::new(alloc);
    let translated = translate(alloc, &mut store, file)?;
    let verdict = check_one(
        alloc,
        &mut store,
        &[translated.formula],
        1,
        places,
        reader,
        cert,
    );
    judge_verdict(alloc, verdict, reader, cert)
}

// The same behind the verdict on the section.
fn judge_verdict<C: Source>(
    alloc: Global,
    verdict: Verdict,
    reader: &mut CertReader,
    cert: &mut C,
) -> Result<Judged, Halt>
    requires { GoesOn verdict reader.old }
    ensures judged { IfOk result (IsJudgedBy reader.old.given
        (to_give reader.old.rest (C.left cert.old)) verdict) }
    ensures read { IsErrOf result Halt.Read → (verdict ≡ Verdict.ReadFault)
        ⊎ Rose (C.faults cert.old) (C.faults cert.new) }
    ensures limit { IsErrOf result Halt.ReadLimit →
        ((verdict ≡ Verdict.ReadLimit) × (reader.new ≡ reader.old) × (cert.new ≡ cert.old))
        ⊎ (IsAccepted verdict
        × StopsAtLimit C.read_gives C.left reader.old cert.old reader.new cert.new) }
    ensures no_write { IsErrOf result Halt.Write → ⊥ }
    ensures count { C.faults cert.old ≤ C.faults cert.new }
{
    match verdict {
        Verdict::Accepted(answer) => close(alloc, answer, reader, cert),
        Verdict::Refused { line, kind } => Ok(Judged {
            text: refused_line(alloc, line, kind)?,
            ending: Ending::Refused,
        }),
        Verdict::PrefixLimit => Ok(Judged {
            text: refusal(alloc, 0, LIMIT_WORD)?,
            ending: Ending::Faulty,
        }),
        Verdict::ReadFault => Err(Halt::Read),
        Verdict::ReadLimit => Err(Halt::ReadLimit),
        Verdict::NoMemory => Err(Halt::NoMemory),
    }
}

// The same behind an accepted section: nothing may stand there.
fn close<C: Source>(
    alloc: Global,
    answer: Answer,
    reader: &mut CertReader,
    cert: &mut C,
) -> Result<Judged, Halt>
    requires begun { 0 < reader.old.given }
    requires reads { reader.old.stopped ≡ None }
    ensures judged { IfOk result (λ judged.
        IfSome (to_give reader.old.rest (C.left cert.old)) (λ t.
        outcome_in judged ≡ closed_by reader.old.given answer t)) }
    ensures read { IsErrOf result Halt.Read → Rose (C.faults cert.old) (C.faults cert.new) }
    ensures limit { IsErrOf result Halt.ReadLimit →
        StopsAtLimit C.read_gives C.left reader.old cert.old reader.new cert.new }
    ensures no_write { IsErrOf result Halt.Write → ⊥ }
    ensures count { C.faults cert.old ≤ C.faults cert.new }
{
    match finish(alloc, reader, cert)? {
        Turn::Ended(last, ending) => {
            let mut text = Vec::from_slice(alloc, answer_line(answer))?;
            text.extend_from_slice(&last)?;
            Ok(Judged { text, ending })
        }
        Turn::Goes(_) => unreachable!(),
    }
}
