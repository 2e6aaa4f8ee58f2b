//! Answers, as they are said.

ghost use Rattle.std.specs.Prelude.{All, IfOk};
ghost use Rattle.qv_cert.specs.Line.{IsCertLine};
ghost use Rattle.qv_solve.specs.Solutions.{lines_of};
ghost use Rattle.qv_solve_write.specs.Said.{lines_said};

use crate::asking::{AMPLE, Asked, solved};
use crate::judging::{printed, say_judged};
use qv_cases_rows::Answer as Said;
use qv_cases_terms::{say_leaf, say_word, terms};
use qv_cert::Section;
use qv_meter::{Meter, SpentKind};
use qv_solve::{ConstValue, SolveFault, Solved};
use qv_store::{Id, Store};
use qv_words::Answer;
use std::alloc::Global;

/// Says an answer, and what the checker says of its section.
pub fn say_solved(
    alloc: Global,
    out: &mut Said,
    asked: Asked<'_>,
    solved: &Result<Solved, SolveFault>,
)
    requires { IfOk solved.now (λ s. All IsCertLine (lines_of s)) }
{
    match solved {
        Ok(Solved::Sat { section, .. }) => {
            out.say("sat, ");
            say_section(alloc, out, asked, Answer::Sat, section);
        }
        Ok(Solved::Unsat { section, .. }) => {
            out.say("unsat, ");
            say_section(alloc, out, asked, Answer::Unsat, section);
        }
        Ok(Solved::Unknown { section, kind }) => {
            out.say(spent(*kind));
            say_section(alloc, out, asked, Answer::Unknown, section);
        }
        Err(SolveFault::PrefixLimit) => out.say("prefix limit"),
        Err(SolveFault::NoMemory) => out.refuse(),
    }
}

fn spent(kind: SpentKind) -> &'static str {
    match kind {
        SpentKind::Conflicts => "unknown conflicts, ",
        SpentKind::Instances => "unknown instances, ",
        SpentKind::Variables => "unknown variables, ",
    }
}

fn say_section(alloc: Global, out: &mut Said, asked: Asked<'_>, answer: Answer, section: &Section)
    requires { All IsCertLine (lines_said section.now.lines.items) }
{
    match printed(alloc, section) {
        Some(cert) => say_judged(alloc, out, asked, answer, cert),
        None => out.refuse(),
    }
}

/// Says which constants have values, and whether the formulas hold under these.
pub fn say_constants(
    alloc: Global,
    out: &mut Said,
    asked: Asked<'_>,
    solved: &Result<Solved, SolveFault>,
) {
    if let Ok(Solved::Sat { constants, .. }) = solved {
        if constants.is_empty() {
            return;
        }
        out.say(", values of ");
        for value in constants {
            out.show(value.index);
            out.put(' ');
        }
        say_under(alloc, out, asked, constants);
    }
}

// Says `hold` where the formulas have a solution with these values of the constants, or what else
// is answered.
fn say_under(alloc: Global, out: &mut Said, asked: Asked<'_>, constants: &[ConstValue]) {
    match with_values(alloc, asked.formulas, constants) {
        Some(formulas) => {
            let again = Asked {
                formulas: formulas.as_str(),
                limits: AMPLE,
                ..asked
            };
            say_answer_again(alloc, out, again);
        }
        None => out.refuse(),
    }
}

// The formulas, with an equation for each of these constants behind them.
fn with_values(alloc: Global, formulas: &str, constants: &[ConstValue]) -> Option<String> {
    let mut text = Said::new(alloc);
    text.say(formulas);
    say_equations(&mut text, constants);
    text.line(alloc, true).ok()
}

fn say_equations(text: &mut Said, constants: &[ConstValue]) {
    for value in constants {
        text.put(';');
        say_leaf(text, 'c', value.index, value.word.sort());
        text.put(' ');
        say_word(text, value.word);
        text.say(" =");
    }
}

fn say_answer_again(alloc: Global, out: &mut Said, asked: Asked<'_>) {
    match text_again(alloc, asked) {
        Some(text) => say_held(out, text.as_str()),
        None => out.refuse(),
    }
}

fn say_held(out: &mut Said, answer: &str) {
    match answer {
        "sat, accepted" => out.say("hold"),
        "bad case" => out.refuse(),
        _ => out.say(answer),
    }
}

// What is answered about other formulas.
fn text_again(alloc: Global, asked: Asked<'_>) -> Option<String> {
    let mut out = Said::new(alloc);
    say_again(alloc, &mut out, asked);
    out.line(alloc, true).ok()
}

fn say_again(alloc: Global, out: &mut Said, asked: Asked<'_>) {
    let mut store = Store::new(alloc);
    match terms(alloc, &mut store, asked.formulas) {
        Some(ids) => say_again_over(alloc, out, &mut store, asked, &ids),
        None => out.refuse(),
    }
}

fn say_again_over(alloc: Global, out: &mut Said, store: &mut Store, asked: Asked<'_>, ids: &[Id]) {
    let mut meter = Meter::new(alloc);
    say_with(alloc, out, store, &mut meter, asked, ids);
}

fn say_with(
    alloc: Global,
    out: &mut Said,
    store: &mut Store,
    meter: &mut Meter,
    asked: Asked<'_>,
    ids: &[Id],
) {
    match solved(alloc, store, meter, asked, ids) {
        Some(solved) => say_solved(alloc, out, asked, &solved),
        None => out.refuse(),
    }
}

/// Says the values of the constants.
pub fn say_values(out: &mut Said, solved: &Result<Solved, SolveFault>) {
    if let Ok(Solved::Sat { constants, .. }) = solved {
        for value in constants {
            out.say(" ");
            out.show(value.index);
            out.put('=');
            say_word(out, value.word);
        }
    }
}

/// Says what was charged to the newest record, and whether it keeps the problem.
pub fn say_charged(out: &mut Said, meter: &Meter) {
    if let Some(record) = meter.newest() {
        out.say(", instances ");
        out.show(record.instances);
        out.say(", conflicts ");
        out.show(record.conflicts);
        out.say(if record.problem.is_some() {
            ", kept"
        } else {
            ", settled"
        });
    }
}

/// Says the lines of a section, with a semicolon between them.
pub fn say_lines(alloc: Global, out: &mut Said, solved: &Result<Solved, SolveFault>)
    requires { IfOk solved.now (λ s. All IsCertLine (lines_of s)) }
{
    match solved {
        Ok(Solved::Sat { section, .. }) => say_text(alloc, out, section),
        Ok(Solved::Unsat { section, .. }) => say_text(alloc, out, section),
        Ok(Solved::Unknown { section, .. }) => say_text(alloc, out, section),
        Err(_) => {}
    }
}

fn say_text(alloc: Global, out: &mut Said, section: &Section)
    requires { All IsCertLine (lines_said section.now.lines.items) }
{
    match printed(alloc, section) {
        Some(cert) => say_bytes(out, &cert),
        None => out.refuse(),
    }
}

fn say_bytes(out: &mut Said, bytes: &[u8]) {
    out.say(", ");
    for byte in bytes {
        if *byte == b'\n' {
            out.say("; ");
        } else {
            out.put(char::from(*byte));
        }
    }
}
