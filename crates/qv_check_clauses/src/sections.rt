//! A section is read once more, and its clauses are written.

ghost use Rattle.std.specs.Prelude.{◌≡◌, ◌++◌, ◌≤◌, ◌<◌, All, None, IfOk, OnOk, codes, length, map};
ghost use Rattle.std.specs.Fmt.{decimal};
ghost use Rattle.qv_words.specs.Problem.{problem_of};
ghost use Rattle.qv_words.specs.Truth.{HaveOneSort, IsAssertion};
ghost use Rattle.qv_store.specs.Nodes.{tree_at};
ghost use Rattle.qv_store.specs.Problems.{IsPosedIn, problem_in};
ghost use Rattle.qv_store.specs.Stores.{Grows};
ghost use Rattle.qv_cert.specs.Listed.{nothing};
ghost use Rattle.qv_cert.specs.Section.{Listing, Task};
ghost use Rattle.qv_cert.specs.Text.{text_of};
ghost use Rattle.qv_check_defs.specs.Outcome.{answer_line};
ghost use Rattle.qv_check_laws.specs.AnswerLaws.{task_of};
ghost use Rattle.qv_check_lines.specs.Judging.{IsFor};
ghost use Rattle.qv_check_lines.specs.declared.verdict.Verdict.TheVariants.{Accepted};
ghost use Rattle.qv_check_clauses.specs.Sections.{AddsAnswered, AddsRefuted, AddsSection};

use crate::dimacs::add_dimacs;
use qv_cert::CertReader;
use qv_check::{Verdict, close, open, read_to_lrat};
use qv_check_lines::check_refutation;
use qv_check_script::answer_line;
use qv_check_trim::Held;
use qv_prenex::prenex;
use qv_store::{Id, Problem, Store};
use qv_words::Answer;
use std::alloc::{AllocError, Global};

// Adds the comment in front of a section.
fn add_comment(
    alloc: Global,
    number: u64,
    answer: Answer,
    out: &mut Vec<u8>,
) -> Result<(), AllocError>
    ensures { OnOk result (out.new.items ≡ out.old.items ++ (codes "c check "
        ++ (decimal number ++ (codes " " ++ answer_line answer)))) }
{
    let line = format!(in alloc; "c check {number} ")?;
    out.extend_from_slice(line.as_bytes())?;
    out.extend_from_slice(answer_line(answer))?;
    Ok(())
}

// The section was accepted before, so that only memory can be wanting where it isn't now.
fn accepted(answer: Answer, verdict: Verdict) -> Result<(), AllocError>
    ensures { OnOk result (verdict ≡ Accepted answer) }
{
    match verdict {
        Verdict::Accepted(found) => {
            if found == answer {
                Ok(())
            } else {
                Err(AllocError)
            }
        }
        _ => Err(AllocError),
    }
}

// Reads a section of this answer behind its `check` line, and adds the clauses that it refutes.
fn add_refuted(
    alloc: Global,
    answer: Answer,
    store: &mut Store,
    problem: &Problem,
    reader: &mut CertReader,
    cert: &mut Held<'_>,
    out: &mut Vec<u8>,
) -> Result<(), AllocError>
    requires posed { IsPosedIn store.old problem.now }
    requires begun { 0 < reader.old.given }
    requires reads { reader.old.stopped ≡ None }
    ensures adds { OnOk result ((task : Task) →
        IsFor (problem_in store.old problem.now) reader.old.version task →
        AddsRefuted task (Listing answer nothing) answer
        reader.old.given (text_of (reader.old.rest ++ cert.old.left.now))
        reader.new.given (text_of (reader.new.rest ++ cert.new.left.now))
        out.old.items out.new.items) }
    ensures goes_on { OnOk result ((0 < reader.new.given) × (reader.new.stopped ≡ None)) }
    ensures version { reader.new.version ≡ reader.old.version }
    ensures grows { Grows store.old store.new }
{
    match read_to_lrat(alloc, answer, store, problem, reader, cert) {
        Ok(mut checker) => {
            add_dimacs(alloc, &checker, out)?;
            accepted(answer, check_refutation(answer, &mut checker, reader, cert))
        }
        Err(_) => Err(AllocError),
    }
}

// Reads a section behind its `check` line, and adds the clauses that it refutes, if it has some.
fn add_answered(
    alloc: Global,
    answer: Answer,
    store: &mut Store,
    problem: &Problem,
    reader: &mut CertReader,
    cert: &mut Held<'_>,
    out: &mut Vec<u8>,
) -> Result<(), AllocError>
    requires posed { IsPosedIn store.old problem.now }
    requires begun { 0 < reader.old.given }
    requires reads { reader.old.stopped ≡ None }
    ensures adds { OnOk result ((task : Task) →
        IsFor (problem_in store.old problem.now) reader.old.version task → AddsAnswered task answer
        reader.old.given (text_of (reader.old.rest ++ cert.old.left.now))
        reader.new.given (text_of (reader.new.rest ++ cert.new.left.now))
        out.old.items out.new.items) }
    ensures goes_on { OnOk result ((0 < reader.new.given) × (reader.new.stopped ≡ None)) }
    ensures version { reader.new.version ≡ reader.old.version }
    ensures grows { Grows store.old store.new }
{
    let _nodes = store.len();
    match answer {
        Answer::Unknown => accepted(Answer::Unknown, close(reader, cert)),
        Answer::Sat => add_refuted(alloc, Answer::Sat, store, problem, reader, cert, out),
        Answer::Unsat => add_refuted(alloc, Answer::Unsat, store, problem, reader, cert, out),
    }
}

// Reads a section of a problem, and adds what is written of it.
fn add_posed(
    alloc: Global,
    number: u64,
    store: &mut Store,
    problem: &Problem,
    reader: &mut CertReader,
    cert: &mut Held<'_>,
    out: &mut Vec<u8>,
) -> Result<Answer, AllocError>
    requires posed { IsPosedIn store.old problem.now }
    requires begun { 0 < reader.old.given }
    requires reads { reader.old.stopped ≡ None }
    ensures adds { IfOk result (λ answer. (task : Task) →
        IsFor (problem_in store.old problem.now) reader.old.version task →
        task.number ≡ number → AddsSection task answer
        reader.old.given (text_of (reader.old.rest ++ cert.old.left.now))
        reader.new.given (text_of (reader.new.rest ++ cert.new.left.now))
        out.old.items out.new.items) }
    ensures goes_on { OnOk result ((0 < reader.new.given) × (reader.new.stopped ≡ None)) }
    ensures version { reader.new.version ≡ reader.old.version }
    ensures grows { Grows store.old store.new }
{
    let _nodes = store.len();
    let Ok(answer) = open(number, reader, cert) else {
        return Err(AllocError);
    };
    add_comment(alloc, number, answer, out)?;
    add_answered(alloc, answer, store, problem, reader, cert, out)?;
    Ok(answer)
}

/// Reads the section of a check of these formulas once more, adds what is written of it, and gives
/// its answer.
pub(crate) fn add_section(
    alloc: Global,
    places: u32,
    number: u64,
    formulas: &[Id],
    store: &mut Store,
    reader: &mut CertReader,
    cert: &mut Held<'_>,
    out: &mut Vec<u8>,
) -> Result<Answer, AllocError>
    requires ids { All (λ id. id < length store.old) formulas.now }
    requires assertions { All IsAssertion (map (tree_at store.old) formulas.now) }
    requires sorts { HaveOneSort (map (tree_at store.old) formulas.now) }
    requires begun { 0 < reader.old.given }
    requires reads { reader.old.stopped ≡ None }
    ensures adds { IfOk result (λ answer. AddsSection
        (task_of (map (tree_at store.old) formulas.now) number reader.old.version) answer
        reader.old.given (text_of (reader.old.rest ++ cert.old.left.now))
        reader.new.given (text_of (reader.new.rest ++ cert.new.left.now))
        out.old.items out.new.items) }
    ensures within { OnOk result
        (length (problem_of (map (tree_at store.old) formulas.now)).prefix ≤ places) }
    ensures goes_on { OnOk result ((0 < reader.new.given) × (reader.new.stopped ≡ None)) }
    ensures version { reader.new.version ≡ reader.old.version }
    ensures grows { Grows store.old store.new }
{
    match prenex(alloc, store, formulas, places) {
        Ok(problem) => add_posed(alloc, number, store, &problem, reader, cert, out),
        Err(_) => Err(AllocError),
    }
}
