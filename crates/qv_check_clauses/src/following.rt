//! The sections that were accepted are read once more, one after the other.

ghost use Rattle.std.specs.Prelude.{◌≡◌, ◌++◌, ◌≤◌, ◌<◌, ℕ, suc, List, [], None, Some, IfOk, OnOk, codes, drop, length};
ghost use Rattle.qv_sexpr.specs.Reader.{to_read};
ghost use Rattle.qv_cert.specs.Text.{text_of};
ghost use Rattle.qv_check_defs.specs.Outcome.{outcome};
ghost use Rattle.qv_check_clauses.specs.Clauses.{clauses_text};
ghost use Rattle.qv_check_clauses.specs.Following.{BeginsWithHeader, Comes, ComesBehind};

use crate::commands::next_check;
use crate::sections::add_section;
use qv_cert::{CertNext, CertReader};
use qv_check_script::{Course, answer_line, last_of};
use qv_check_trim::{Held, answer_size};
use qv_script::Counts;
use qv_sexpr::Reader;
use qv_words::Answer;
use std::alloc::{AllocError, Global};

// Goes past the next check and its section, and adds what is written of it.
fn add_next(
    alloc: Global,
    places: u32,
    number: u64,
    commands: &mut Reader,
    script: &mut Held<'_>,
    course: &mut Course,
    reader: &mut CertReader,
    cert: &mut Held<'_>,
    out: &mut Vec<u8>,
) -> Result<Answer, AllocError>
    requires comes { (printed : List ℕ) × (written : List ℕ) ×
        Comes places reader.old.version number
        (to_read commands.old (Some script.old.left.now)) course.old reader.old.given
        (text_of (reader.old.rest ++ cert.old.left.now)) printed written }
    requires begun { 0 < reader.old.given }
    requires reads { reader.old.stopped ≡ None }
    ensures comes { IfOk result (λ answer. (printed written : List ℕ) →
        Comes places reader.old.version number
        (to_read commands.old (Some script.old.left.now)) course.old reader.old.given
        (text_of (reader.old.rest ++ cert.old.left.now)) printed written →
        ComesBehind places reader.new.version (suc number)
        (to_read commands.new (Some script.new.left.now)) course.new reader.new.given
        (text_of (reader.new.rest ++ cert.new.left.now)) answer printed written
        out.old.items out.new.items) }
    ensures goes_on { OnOk result ((0 < reader.new.given) × (reader.new.stopped ≡ None)) }
{
    let formulas = next_check(alloc, commands, script, course)?;
    let answer = add_section(
        alloc,
        places,
        number,
        &formulas,
        &mut course.store,
        reader,
        cert,
        out,
    )?;
    let last = last_of(alloc, &course.script, answer)?;
    // A certificate says nothing of what was counted.
    let counts = Counts {
        conflicts: 0,
        instances: 0,
        variables: 0,
    };
    course.script.answered(last, counts);
    Ok(answer)
}

// Adds what is written of each section whose answer was printed, and gives the place in what was
// printed behind these answers.
fn add_each(
    alloc: Global,
    places: u32,
    printed: &[u8],
    commands: &mut Reader,
    script: &mut Held<'_>,
    course: &mut Course,
    reader: &mut CertReader,
    cert: &mut Held<'_>,
    out: &mut Vec<u8>,
) -> Result<usize, AllocError>
    requires comes { (written : List ℕ) × Comes places reader.old.version 1
        (to_read commands.old (Some script.old.left.now)) course.old reader.old.given
        (text_of (reader.old.rest ++ cert.old.left.now)) printed.now written }
    requires begun { 0 < reader.old.given }
    requires reads { reader.old.stopped ≡ None }
    ensures within { IfOk result (λ at. at ≤ length printed.now) }
    ensures written { IfOk result (λ at. (written : List ℕ) → Comes places reader.old.version 1
        (to_read commands.old (Some script.old.left.now)) course.old reader.old.given
        (text_of (reader.old.rest ++ cert.old.left.now)) printed.now written →
        out.new.items ++ (codes "c " ++ drop at printed.now) ≡ out.old.items ++ written) }
{
    let mut at = 0;
    'sections: for number in 1..u64::MAX {
        if answer_size(&printed[at..]).is_none() {
            return Ok(at);
        }
        let answer = add_next(
            alloc, places, number, commands, script, course, reader, cert, out,
        )?;
        at += answer_line(answer).len();
    }
    // No certificate has as many sections.
    Err(AllocError)
}

// Reads the first line of a certificate, which was found to be a header.
fn pass_header(reader: &mut CertReader, cert: &mut Held<'_>) -> Result<(), AllocError>
    requires fresh { reader.old ≡ record {
      rest = [];
      taken = 0;
      given = 0;
      version = 0;
      stopped = None;
    } }
    ensures begins { OnOk result (BeginsWithHeader (text_of cert.old.left.now) reader.new.version
        (text_of (reader.new.rest ++ cert.new.left.now))) }
    ensures goes_on { OnOk result ((reader.new.given ≡ 1) × (reader.new.stopped ≡ None)) }
{
    match reader.next_line(cert, false) {
        CertNext::Line { .. } => Ok(()),
        _ => Err(AllocError),
    }
}

// Adds what is written of the sections of which one was accepted at least.
fn add_some(
    alloc: Global,
    places: u32,
    script: &[u8],
    cert: &[u8],
    printed: &[u8],
    out: &mut Vec<u8>,
) -> Result<usize, AllocError>
    requires printed { (outcome places script.now cert.now).text ≡ printed.now }
    ensures within { IfOk result (λ at. at ≤ length printed.now) }
    ensures written { IfOk result (λ at. out.new.items ++ (codes "c " ++ drop at printed.now)
        ≡ out.old.items ++ clauses_text places script.now cert.now) }
{
    let mut commands = Reader::new(alloc)?;
    let mut reader = CertReader::new(alloc)?;
    let mut course = Course::new(alloc);
    let mut script = Held::new(script);
    let mut cert = Held::new(cert);
    pass_header(&mut reader, &mut cert)?;
    add_each(
        alloc,
        places,
        printed,
        &mut commands,
        &mut script,
        &mut course,
        &mut reader,
        &mut cert,
        out,
    )
}

// The same, where perhaps none was.
fn add_all(
    alloc: Global,
    places: u32,
    script: &[u8],
    cert: &[u8],
    printed: &[u8],
    out: &mut Vec<u8>,
) -> Result<usize, AllocError>
    requires printed { (outcome places script.now cert.now).text ≡ printed.now }
    ensures within { IfOk result (λ at. at ≤ length printed.now) }
    ensures written { IfOk result (λ at. out.new.items ++ (codes "c " ++ drop at printed.now)
        ≡ out.old.items ++ clauses_text places script.now cert.now) }
{
    if answer_size(printed).is_none() {
        return Ok(0);
    }
    add_some(alloc, places, script, cert, printed, out)
}

/// What is written of a certificate beside its script, where the check of it printed this.
pub(crate) fn written(
    alloc: Global,
    places: u32,
    script: &[u8],
    cert: &[u8],
    printed: &[u8],
) -> Result<Vec<u8>, AllocError>
    requires { (outcome places script.now cert.now).text ≡ printed.now }
    ensures { IfOk result (λ text. text.items ≡ clauses_text places script.now cert.now) }
{
    let mut text = Vec::new(alloc);
    let at = add_all(alloc, places, script, cert, printed, &mut text)?;
    text.extend_from_slice(b"c ")?;
    text.extend_from_slice(&printed[at..])?;
    Ok(text)
}
