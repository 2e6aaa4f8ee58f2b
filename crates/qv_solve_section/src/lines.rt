//! The lines of a section.

ghost use Rattle.std.specs.Prelude.{◌≡◌, ◌++◌, All, IfOk, OnOk, map};
ghost use Rattle.qv_cnf.specs.Literal.{IsLiteral};
ghost use Rattle.qv_cnf.specs.LratLine.{line_of, lines_of};
ghost use Rattle.qv_lrat_text.specs.Grammar.{HasIds};
ghost use Rattle.qv_cert.specs.Line.{IsCertLine, IsNumber};
ghost use Rattle.qv_cert.specs.Line.{Rewrite as RewriteLine, Step as StepLine};
ghost use Rattle.qv_cert.specs.LineView.{cert_line_of};
ghost use Rattle.qv_solve_write.specs.Said.{lines_said};
ghost use Rattle.qv_solve_section.specs.Sections.{lines_with};

use qv_cert::Line;
use qv_cnf::{Lit, Step};
use qv_rewrite_passes::Pass;
use qv_store::NoMemory;
use qv_words::Answer;
use std::alloc::Global;

// The lines of a section, where these list, with two lists of steps, one behind the other.
pub(crate) fn section_lines(
    alloc: Global,
    number: u64,
    answer: Answer,
    given: Vec<Line>,
    passes: &[Pass],
    laid: &[Step],
    steps: &[Step],
) -> Result<Vec<Line>, NoMemory>
    requires number { IsNumber number }
    requires form { All IsCertLine (lines_said given.items) }
    requires ids { All HasIds (lines_of laid.now ++ lines_of steps.now) }
    ensures lines { IfOk result (λ lines. lines_said lines.items
        ≡ lines_with number answer (lines_said given.items) passes.now
        (lines_of laid.now ++ lines_of steps.now)) }
    ensures form { IfOk result (λ lines. All IsCertLine (lines_said lines.items)) }
{
    let mut lines = given;
    lines.insert(0, Line::Check { number, answer })?;
    push_passes(&mut lines, passes)?;
    lines.push(Line::Lrat)?;
    push_both(alloc, &mut lines, laid, steps)?;
    lines.push(Line::End)?;
    Ok(lines)
}

// The lines of passes.
fn push_passes(lines: &mut Vec<Line>, passes: &[Pass]) -> Result<(), NoMemory>
    requires { All IsCertLine (lines_said lines.old.items) }
    ensures lines { OnOk result (lines_said lines.new.items
        ≡ lines_said lines.old.items ++ map RewriteLine passes.now) }
    ensures form { OnOk result (All IsCertLine (lines_said lines.new.items)) }
{
    'passed: for pass in passes {
        lines.push(Line::Rewrite { pass: *pass })?;
    }
    Ok(())
}

// The lines of steps, and of others behind them.
fn push_both(
    alloc: Global,
    lines: &mut Vec<Line>,
    laid: &[Step],
    steps: &[Step],
) -> Result<(), NoMemory>
    requires form { All IsCertLine (lines_said lines.old.items) }
    requires ids { All HasIds (lines_of laid.now ++ lines_of steps.now) }
    ensures lines { OnOk result (lines_said lines.new.items
        ≡ lines_said lines.old.items ++ map StepLine (lines_of laid.now ++ lines_of steps.now)) }
    ensures form { OnOk result (All IsCertLine (lines_said lines.new.items)) }
{
    push_steps(alloc, lines, laid)?;
    push_steps(alloc, lines, steps)
}

// The lines of steps.
fn push_steps(alloc: Global, lines: &mut Vec<Line>, steps: &[Step]) -> Result<(), NoMemory>
    requires form { All IsCertLine (lines_said lines.old.items) }
    requires ids { All HasIds (lines_of steps.now) }
    ensures lines { OnOk result (lines_said lines.new.items
        ≡ lines_said lines.old.items ++ map StepLine (lines_of steps.now)) }
    ensures form { OnOk result (All IsCertLine (lines_said lines.new.items)) }
{
    'stepped: for step in steps {
        let line = step_line(alloc, step)?;
        lines.push(line)?;
    }
    Ok(())
}

// The line of a step.
fn step_line(alloc: Global, step: &Step) -> Result<Line, NoMemory>
    requires { HasIds (line_of step.now) }
    ensures line { IfOk result (λ line. cert_line_of line ≡ StepLine (line_of step.now)) }
    ensures form { IfOk result (λ line. IsCertLine (cert_line_of line)) }
{
    match step {
        Step::Add { id, lits, hints } => {
            let lits = copy_literals(alloc, lits)?;
            let hints = Vec::from_slice(alloc, hints)?;
            Ok(Line::Step(Step::Add {
                id: *id,
                lits,
                hints,
            }))
        }
        Step::Delete { id, ids } => {
            let ids = Vec::from_slice(alloc, ids)?;
            Ok(Line::Step(Step::Delete { id: *id, ids }))
        }
    }
}

// The same literals.
fn copy_literals(alloc: Global, lits: &[Lit]) -> Result<Vec<Lit>, NoMemory>
    ensures same { IfOk result (λ copied. copied.items ≡ lits.now) }
    ensures literals { OnOk result (All IsLiteral lits.now) }
{
    let mut copied = Vec::with_capacity(alloc, lits.len())?;
    'literals: for lit in lits {
        let _number = lit.number();
        copied.push(*lit)?;
    }
    Ok(copied)
}
