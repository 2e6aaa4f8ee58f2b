//! Lines of a text by their places.

ghost use Rattle.std.specs.Prelude.{◌≤◌, ◌+◌, IfOk, MatchOption, List, ℕ};
ghost use Rattle.std.specs.Prelude.{drop, length};
ghost use Rattle.qv_cnf.specs.LratLine.{LratLine, line_of};
ghost use Rattle.qv_cert.specs.Line.{CertLine, IsCertLine};
ghost use Rattle.qv_cert.specs.LineView.{cert_line_of};
ghost use Rattle.qv_lrat_text.specs.Grammar.{IsLine};
ghost use Rattle.qv_trim.specs.Texts.{BeginsWith, BeginsWithNone, StandsAt, ReadsStep};
ghost use Rattle.qv_trim.specs.Texts.{ReadsOutside};

use memchr::memchr;
use qv_cert::{CertLineFault, Line, read_cert_line};
use qv_cnf::Step;
use qv_lrat_text::{LineFault, LineReader};
use std::alloc::{AllocError, Global};

/// A step of a text, and where the line behind it begins.
#[derive(Drop)]
pub(crate) struct StepAt {
    pub(crate) step: Step,
    pub(crate) behind: usize,
}

/// A line of a text outside of refutations, and where the line behind it begins.
#[derive(Drop)]
pub(crate) struct LineAt {
    pub(crate) line: Line,
    pub(crate) behind: usize,
}

/// The line that begins here, if its LF is there.
pub(crate) fn line_at(text: &[u8], at: usize) -> Option<&[u8]>
    ensures { MatchOption result
        ((line rest : List ℕ) → BeginsWith (drop at text.now) line rest → ⊥)
        (λ line. BeginsWith (drop at text.now) line.now
        (drop (at + length line.now + 1) text.now)
        × (at + length line.now + 1 ≤ length text.now)) }
{
    if at > text.len() {
        return None;
    }
    let bytes = &text[at..];
    match memchr(b'\n', bytes) {
        Some(n) => Some(&bytes[..n]),
        None => None,
    }
}

// The step that a line says, if it says one.
fn read_step(line: &[u8], reader: &mut LineReader) -> Result<Option<Step>, AllocError>
    ensures { IfOk result (λ found. MatchOption found
        ((step : LratLine) → ReadsStep line.now step → ⊥)
        (λ step. ReadsStep line.now (line_of step) × IsLine (line_of step))) }
{
    match reader.read(line) {
        Ok(step) => Ok(Some(step)),
        Err(LineFault::Form) => Ok(None),
        Err(LineFault::NoMemory) => Err(AllocError),
    }
}

// The line outside of refutations that a line is, if it is one.
fn read_outer(alloc: Global, line: &[u8]) -> Result<Option<Line>, AllocError>
    ensures { IfOk result (λ found. MatchOption found
        ((said : CertLine) → ReadsOutside line.now said → ⊥)
        (λ said. ReadsOutside line.now (cert_line_of said) × IsCertLine (cert_line_of said))) }
{
    match read_cert_line(alloc, line, false) {
        Ok(said) => Ok(Some(said)),
        Err(fault) => match fault {
            CertLineFault::NoMemory => Err(AllocError),
            _ => Ok(None),
        },
    }
}

/// The step whose line begins here, if one does.
pub(crate) fn step_at(
    text: &[u8],
    at: usize,
    reader: &mut LineReader,
) -> Result<Option<StepAt>, AllocError>
    ensures { IfOk result (λ found. MatchOption found
        (BeginsWithNone ReadsStep (drop at text.now))
        (λ f. StandsAt ReadsStep text.now at (line_of f.step) f.behind
        × IsLine (line_of f.step))) }
{
    let Some(line) = line_at(text, at) else {
        return Ok(None);
    };
    match read_step(line, reader)? {
        Some(step) => Ok(Some(StepAt {
            step,
            behind: at + line.len() + 1,
        })),
        None => Ok(None),
    }
}

/// The line outside of refutations that begins here, if one does.
pub(crate) fn outer_at(alloc: Global, text: &[u8], at: usize) -> Result<Option<LineAt>, AllocError>
    ensures { IfOk result (λ found. MatchOption found
        (BeginsWithNone ReadsOutside (drop at text.now))
        (λ f. StandsAt ReadsOutside text.now at (cert_line_of f.line) f.behind
        × IsCertLine (cert_line_of f.line))) }
{
    let Some(line) = line_at(text, at) else {
        return Ok(None);
    };
    match read_outer(alloc, line)? {
        Some(said) => Ok(Some(LineAt {
            line: said,
            behind: at + line.len() + 1,
        })),
        None => Ok(None),
    }
}
