//! The text of a section.

ghost use Rattle.std.specs.Prelude.{◌≡◌, All, IfOk, map};
ghost use Rattle.std.specs.List.{flat_map};
ghost use Rattle.qv_cert.specs.Line.{IsCertLine};
ghost use Rattle.qv_cert.specs.Spelling.{cert_text};
ghost use Rattle.qv_solve_write.specs.Said.{lines_said};
ghost use Rattle.qv_solve.specs.Solutions.{lines_of};

use qv_cert::Line;
use qv_cert_text::print_cert_line;
use qv_solve::Solved;
use qv_store::NoMemory;
use std::alloc::Global;

/// The text of an answer's section.
pub fn section_of(alloc: Global, solved: &Solved) -> Result<Vec<u8>, NoMemory>
    requires { All IsCertLine (lines_of solved.now) }
    ensures { IfOk result (λ text. text.items ≡ flat_map cert_text (lines_of solved.now)) }
{
    section_text(alloc, lines_of(solved))
}

// The lines of an answer's section.
fn lines_of(solved: &Solved) -> &[Line]
    ensures { lines_said result.now ≡ lines_of solved.now }
{
    match solved {
        Solved::Sat { section, .. } => &section.lines,
        Solved::Unsat { section, .. } => &section.lines,
        Solved::Unknown { section, .. } => &section.lines,
    }
}

// The text of lines.
fn section_text(alloc: Global, lines: &[Line]) -> Result<Vec<u8>, NoMemory>
    requires { All IsCertLine (lines_said lines.now) }
    ensures { IfOk result (λ text. text.items ≡ flat_map cert_text (lines_said lines.now)) }
{
    let mut text = Vec::new(alloc);
    'printed: for line in lines {
        print_cert_line(line, &mut text)?;
    }
    Ok(text)
}
