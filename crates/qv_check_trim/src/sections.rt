//! The sections that were accepted are written trimmed.

ghost use Rattle.std.specs.Prelude.{◌≡◌, ◌≤◌, ℕ, Err, IfOk, MatchOption, Ok, OnErr, OnOk, List};
ghost use Rattle.std.specs.Prelude.{drop, flat_map, length};
ghost use Rattle.qv_io.specs.Count.{Rose};
ghost use Rattle.qv_io.specs.Sink.{Appends};
ghost use Rattle.qv_cert.specs.Grammar.{cert_line};
ghost use Rattle.qv_cert.specs.Line.{CertLine, Header, IsCertLine};
ghost use Rattle.qv_cert.specs.LineView.{cert_line_of};
ghost use Rattle.qv_cert.specs.Section.{Task};
ghost use Rattle.qv_cert.specs.Spelling.{cert_text};
ghost use Rattle.qv_cert.specs.Text.{first_line};
ghost use Rattle.qv_cert.specs.TextLaws.{HasNoLf};
ghost use Rattle.qv_check_laws.specs.Verdict.{AcceptedSection};
ghost use Rattle.qv_trim.specs.Sections.{AppendsFront, BeginsWithSection, IsTrimmedSection};
ghost use Rattle.qv_trim.specs.Texts.{BeginsWith};
ghost use Rattle.qv_words.specs.declared.op.Answer.{Answer};
ghost use Rattle.qv_check_trim.specs.Sections.{BeginsWithAnswer, BeginsWithNoAnswer};
ghost use Rattle.qv_check_trim.specs.Printing.{IsFrontOfOutcome};
ghost use Rattle.qv_check_trim.specs.Sections.{IsFrontOfAnswers, IsNoHeader};
ghost use Rattle.qv_check_trim.specs.Sections.{StandIn, WroteCertFront, WroteFront, WroteKept};
ghost use Rattle.qv_check_trim.specs.Sections.{WrotePrinted};

use memchr::memchr;
use qv_cert::{CertLineFault, Line, read_cert_line};
use qv_cert_text::print_cert_line;
use qv_check_script::Halt;
use qv_io::{Sink, put_all};
use qv_trim::{TrimFault, trim_section};
use std::alloc::{AllocError, Global};

/// Writes a certificate's first line, if it is a header, and a section trimmed for each answer with
/// which the printed text begins.
pub(crate) fn write_kept<P: Sink>(
    alloc: Global,
    cert: &[u8],
    printed: &[u8],
    out: &mut P,
) -> Result<(), Halt>
    ensures ok { OnOk result ((places : ℕ) (script : List ℕ) →
        IsFrontOfOutcome places script cert.now printed.now →
        WroteKept places script cert.now printed.now (P.held out.old) (P.held out.new)) }
    ensures err { OnErr result ((places : ℕ) (script : List ℕ) →
        IsFrontOfOutcome places script cert.now printed.now →
        WroteCertFront places script cert.now (P.held out.old) (P.held out.new)) }
    ensures write { result ≡ Err Halt.Write → Rose (P.faults out.old) (P.faults out.new) }
    ensures no_read { result ≡ Err Halt.Read → ⊥ }
    ensures no_limit { result ≡ Err Halt.ReadLimit → ⊥ }
    ensures count { P.faults out.old ≤ P.faults out.new }
{
    let Some((line, behind)) = split_line(cert) else {
        return Ok(());
    };
    let Some(header) = read_header(alloc, line)? else {
        return Ok(());
    };
    write_line(alloc, &header, out)?;
    write_sections(alloc, behind, printed, out)
}

// The first line of a text, and what stands behind its LF.
fn split_line(text: &[u8]) -> Option<(&[u8], &[u8])>
    ensures { MatchOption result (HasNoLf text.now)
        (λ parts. BeginsWith text.now parts.0.now parts.1.now) }
{
    match memchr(b'\n', text) {
        Some(end) => Some((&text[..end], &text[end + 1..])),
        None => None,
    }
}

// The line, if it is a header.
fn read_header(alloc: Global, line: &[u8]) -> Result<Option<Line>, AllocError>
    ensures { IfOk result (λ found. MatchOption found (IsNoHeader (first_line line.now))
        (λ header. (first_line line.now ≡ Ok (cert_line_of header))
        × IsCertLine (cert_line_of header))) }
{
    match read_cert_line(alloc, line, false) {
        Ok(Line::Header { version }) => Ok(Some(Line::Header { version })),
        Ok(_) => Ok(None),
        Err(CertLineFault::NoMemory) => Err(AllocError),
        Err(_) => Ok(None),
    }
}

// Writes a line as it is printed.
fn write_line<P: Sink>(alloc: Global, line: &Line, out: &mut P) -> Result<(), Halt>
    requires { IsCertLine (cert_line_of line.now) }
    ensures ok { OnOk result (Appends (P.held out.old) (P.held out.new)
        (cert_text (cert_line_of line.now))) }
    ensures err { OnErr result (AppendsFront (P.held out.old) (P.held out.new)
        (cert_text (cert_line_of line.now))) }
    ensures write { result ≡ Err Halt.Write → Rose (P.faults out.old) (P.faults out.new) }
    ensures no_read { result ≡ Err Halt.Read → ⊥ }
    ensures no_limit { result ≡ Err Halt.ReadLimit → ⊥ }
    ensures count { P.faults out.old ≤ P.faults out.new }
{
    let mut printed = Vec::new(alloc);
    print_cert_line(line, &mut printed)?;
    put_all(out, &printed)?;
    Ok(())
}

// Writes a section trimmed for each answer with which the printed text begins.
fn write_sections<P: Sink>(
    alloc: Global,
    text: &[u8],
    printed: &[u8],
    out: &mut P,
) -> Result<(), Halt>
    ensures ok { OnOk result ((sections : List AcceptedSection) (behind : List ℕ) →
        StandIn sections text.now behind → IsFrontOfAnswers sections printed.now →
        WrotePrinted sections printed.now (P.held out.old) (P.held out.new)) }
    ensures err { OnErr result ((sections : List AcceptedSection) (behind : List ℕ) →
        StandIn sections text.now behind → IsFrontOfAnswers sections printed.now →
        WroteFront sections (P.held out.old) (P.held out.new)) }
    ensures write { result ≡ Err Halt.Write → Rose (P.faults out.old) (P.faults out.new) }
    ensures no_read { result ≡ Err Halt.Read → ⊥ }
    ensures no_limit { result ≡ Err Halt.ReadLimit → ⊥ }
    ensures count { P.faults out.old ≤ P.faults out.new }
{
    let mut from = 0;
    let mut at = 0;
    'answers: while let Some(size) = answer_size(&printed[at..]) {
        from += write_section(alloc, &text[from..], out)?;
        at += size;
    }
    Ok(())
}

/// How many bytes the answer has with which a text begins, if it begins with one.
pub fn answer_size(text: &[u8]) -> Option<usize>
    ensures { MatchOption result (BeginsWithNoAnswer text.now)
        (λ size. BeginsWithAnswer text.now size) }
{
    if text.starts_with(b"sat\n") {
        Some(4)
    } else if text.starts_with(b"unsat\n") {
        Some(6)
    } else if text.starts_with(b"unknown\n") {
        Some(8)
    } else {
        None
    }
}

// Writes the section trimmed with which a text begins, and gives the number of its bytes.
fn write_section<P: Sink>(alloc: Global, text: &[u8], out: &mut P) -> Result<usize, Halt>
    ensures ok { IfOk result (λ size. (task : Task) (answer : Answer) (texts : List (List ℕ))
        (rest : List ℕ) → BeginsWithSection task answer text.now texts rest →
        (drop size text.now ≡ rest) × ((trimmed : List CertLine)
        × IsTrimmedSection answer texts trimmed
        × Appends (P.held out.old) (P.held out.new) (flat_map cert_text trimmed))) }
    ensures within { IfOk result (λ size. size ≤ length text.now) }
    ensures err { OnErr result ((task : Task) (answer : Answer) (texts : List (List ℕ))
        (rest : List ℕ) (trimmed : List CertLine) →
        BeginsWithSection task answer text.now texts rest →
        IsTrimmedSection answer texts trimmed →
        AppendsFront (P.held out.old) (P.held out.new) (flat_map cert_text trimmed)) }
    ensures write { result ≡ Err Halt.Write → Rose (P.faults out.old) (P.faults out.new) }
    ensures no_read { result ≡ Err Halt.Read → ⊥ }
    ensures no_limit { result ≡ Err Halt.ReadLimit → ⊥ }
    ensures count { P.faults out.old ≤ P.faults out.new }
{
    match trim_section(alloc, text, out) {
        Ok(size) => Ok(size),
        Err(TrimFault::Write) => Err(Halt::Write),
        Err(TrimFault::NoMemory) => Err(Halt::NoMemory),
    }
}
