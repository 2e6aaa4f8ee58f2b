//! The lines of a section before its refutation.

ghost use Rattle.std.specs.Prelude.{◌≡◌, ◌≤◌, ℕ, Bool, Err, IfOk, OnErr, OnOk, List, drop};
ghost use Rattle.std.specs.Prelude.{flat_map, length};
ghost use Rattle.qv_io.specs.Count.{Rose};
ghost use Rattle.qv_io.specs.Sink.{Appends};
ghost use Rattle.qv_cert.specs.Line.{CertLine, IsCertLine};
ghost use Rattle.qv_cert.specs.LineView.{cert_line_of};
ghost use Rattle.qv_cert.specs.Spelling.{cert_text};
ghost use Rattle.qv_trim.specs.Texts.{Begins, ReadsOutside};
ghost use Rattle.qv_trim.specs.Writing.{IsFront};
ghost use Rattle.qv_trim.specs.Sections.{AppendsFront, last_of};

use crate::fault::TrimFault;
use crate::texts::outer_at;
use qv_cert::Line;
use qv_cert_text::print_cert_line;
use qv_io::{Sink, put_all};
use std::alloc::Global;

/// Where the front of a section ends, and whether a refutation follows.
#[derive(Clone, Copy)]
pub(crate) struct Front {
    pub(crate) behind: usize,
    pub(crate) proves: bool,
}

// Writes a line as it is printed, in this memory.
fn write_line<O: Sink>(line: &Line, printed: &mut Vec<u8>, out: &mut O) -> Result<(), TrimFault>
    requires { IsCertLine (cert_line_of line.now) }
    ensures ok { OnOk result (Appends (O.held out.old) (O.held out.new)
        (cert_text (cert_line_of line.now))) }
    ensures err { OnErr result (AppendsFront (O.held out.old) (O.held out.new)
        (cert_text (cert_line_of line.now))) }
    ensures write { result ≡ Err TrimFault.Write → Rose (O.faults out.old) (O.faults out.new) }
    ensures count { O.faults out.old ≤ O.faults out.new }
{
    printed.clear();
    print_cert_line(line, printed)?;
    put_all(out, printed)?;
    Ok(())
}

// Whether a section's front ends with the line, and if so, whether a refutation follows.
fn last_of(line: &Line) -> Option<bool>
    ensures { result ≡ last_of (cert_line_of line.now) }
{
    match line {
        Line::Lrat => Some(true),
        Line::End => Some(false),
        Line::Header { .. }
        | Line::Check { .. }
        | Line::VarNode { .. }
        | Line::EigenNode { .. }
        | Line::LitNode { .. }
        | Line::OpNode { .. }
        | Line::Skolem { .. }
        | Line::Instance { .. }
        | Line::Eigen { .. }
        | Line::Rewrite { .. }
        | Line::Step(_) => None,
    }
}

/// Writes the lines of a section up to `lrat`, or of one without a refutation up to `end`.
pub(crate) fn write_front<O: Sink>(
    alloc: Global,
    text: &[u8],
    printed: &mut Vec<u8>,
    out: &mut O,
) -> Result<Front, TrimFault>
    ensures ok { IfOk result (λ front. (lines : List CertLine) (rest : List ℕ) (proves : Bool) →
        Begins ReadsOutside text.now lines rest → IsFront lines proves →
        (drop front.behind text.now ≡ rest) × (front.proves ≡ proves)
        × Appends (O.held out.old) (O.held out.new) (flat_map cert_text lines)) }
    ensures within { IfOk result (λ front. front.behind ≤ length text.now) }
    ensures err { OnErr result ((lines : List CertLine) (rest : List ℕ) (proves : Bool) →
        Begins ReadsOutside text.now lines rest → IsFront lines proves →
        AppendsFront (O.held out.old) (O.held out.new) (flat_map cert_text lines)) }
    ensures write { result ≡ Err TrimFault.Write → Rose (O.faults out.old) (O.faults out.new) }
    ensures count { O.faults out.old ≤ O.faults out.new }
{
    let mut at = 0;
    'lines: loop {
        let Some(found) = outer_at(alloc, text, at)? else {
            return Ok(Front {
                behind: at,
                proves: false,
            });
        };
        write_line(&found.line, printed, out)?;
        at = found.behind;
        if let Some(proves) = last_of(&found.line) {
            return Ok(Front { behind: at, proves });
        }
    }
}
