//! The formulas that a section's nodes stand for, and the way to its refutation.

ghost use Rattle.std.specs.Prelude.{◌≡◌, ◌≤◌, ◌<◌, None, All, IfErr, IfOk, OnOk, length, true};
ghost use Rattle.qv_io.specs.Source.{TellsAsBefore};
ghost use Rattle.qv_words.specs.Tree.{IsQuantifierFree};
ghost use Rattle.qv_store.specs.Nodes.{tree_at};
ghost use Rattle.qv_store.specs.Stores.{Grows};
ghost use Rattle.qv_store.specs.Walks.{named};
ghost use Rattle.qv_store.specs.Problems.{problem_in, IsPosedIn};
ghost use Rattle.qv_cert.specs.CertReader.{to_give, piece_size};
ghost use Rattle.qv_cert.specs.LineView.{cert_line_of};
ghost use Rattle.qv_cert.specs.Listed.{nothing};
ghost use Rattle.qv_cert.specs.Section.{Task, Listing, Refuting, Rewriting, at_place};
ghost use Rattle.qv_cert.specs.SoFar.{IsSoFar};
ghost use Rattle.qv_cert_nodes.specs.Lists.{listed_in, IsListed};
ghost use Rattle.qv_check_lines.specs.Ending.{EndsBy, TookWith};
ghost use Rattle.qv_check_lines.specs.Judging.{ComesTo, IsFor, IsVerdictFrom};
ghost use Rattle.qv_check.specs.Nodes.{ends_nodes, fits_version, LeadsAlong};
ghost use Rattle.qv_check_lines.specs.Refusing.{IsRefusal};

use crate::nodes::read_nodes;
use qv_cert::{CertReader, Line, RefusalKind};
use qv_cert_formulas::first_list;
use qv_cert_nodes::Listed;
use qv_check_lines::{Numbered, Verdict, read_passes, take_line};
use qv_io::Source;
use qv_rup::Checker;
use qv_store::{Id, Problem, Store};
use qv_words::Answer;
use std::alloc::Global;

// The line behind the nodes, and the formulas that they stand for.
#[derive(Debug, Drop)]
struct Begun {
    next: Numbered,
    formulas: Vec<Id>,
}

// Whether a certificate of this version may have the line.
fn fits_version(version: u64, line: &Line) -> bool
    ensures { result ≡ fits_version version (cert_line_of line.now) }
{
    match line {
        Line::Rewrite { .. } => version == 2,
        Line::Header { .. }
        | Line::Check { .. }
        | Line::VarNode { .. }
        | Line::EigenNode { .. }
        | Line::LitNode { .. }
        | Line::OpNode { .. }
        | Line::Skolem { .. }
        | Line::Instance { .. }
        | Line::Eigen { .. }
        | Line::Lrat
        | Line::Step(_)
        | Line::End => true,
    }
}

// The formulas that the nodes stand for, where the line behind them may stand there.
fn start_list(
    alloc: Global,
    answer: Answer,
    version: u64,
    listed: &Listed,
    store: &mut Store,
    problem: &Problem,
    next: &Numbered,
) -> Result<Vec<Id>, Verdict>
    requires kept { IsListed store.old (problem_in store.old problem.now) listed.now }
    requires posed { IsPosedIn store.old problem.now }
    requires far { IsSoFar (problem_in store.old problem.now) answer
        (listed_in store.old listed.now) }
    requires ends { ends_nodes (cert_line_of next.now.line) ≡ true }
    ensures same { IfOk result (λ ids. (task : Task) →
        IsFor (problem_in store.old problem.now) version task →
        at_place task (Listing answer (listed_in store.old listed.now))
        (cert_line_of next.now.line)
        ≡ at_place task (Rewriting answer (named store.new ids.items))
        (cert_line_of next.now.line)) }
    ensures err { IfErr result (λ verdict. (task : Task) →
        IsFor (problem_in store.old problem.now) version task →
        IsRefusal task (Listing answer (listed_in store.old listed.now))
        (cert_line_of next.now.line) next.now.number verdict) }
    ensures below { IfOk result (λ ids. All (λ id. id < length store.new) ids.items) }
    ensures free { IfOk result (λ ids. All (λ id. IsQuantifierFree (tree_at store.new id))
        ids.items) }
    ensures grows { Grows store.old store.new }
{
    let _nodes = store.len();
    if !fits_version(version, &next.line) {
        return Err(Verdict::Refused {
            line: next.number,
            kind: RefusalKind::Form,
        });
    }
    match first_list(alloc, answer, listed, store, problem) {
        Ok(Some(ids)) => Ok(ids),
        Ok(None) => Err(Verdict::Refused {
            line: next.number,
            kind: RefusalKind::Missing,
        }),
        Err(_) => Err(Verdict::NoMemory),
    }
}

// Reads the nodes, and gives the formulas that they stand for, with the line behind them.
#[tactic(auto, using(qv_check_lines::proofs::Ended::ends_later))]
fn read_list<S: Source>(
    alloc: Global,
    answer: Answer,
    store: &mut Store,
    problem: &Problem,
    reader: &mut CertReader,
    source: &mut S,
) -> Result<Begun, Verdict>
    requires posed { IsPosedIn store.old problem.now }
    requires begun { 0 < reader.old.given }
    requires reads { reader.old.stopped ≡ None }
    ensures goes { IfOk result (λ begun. (task : Task) →
        IsFor (problem_in store.old problem.now) reader.old.version task →
        LeadsAlong task (Listing answer nothing) reader.old.given
        (to_give reader.old.rest (S.left source.old))
        (Rewriting answer (named store.new begun.formulas.items)) begun.next
        (to_give reader.new.rest (S.left source.new))) }
    ensures number { IfOk result (λ begun. begun.next.number ≡ reader.new.given) }
    ensures err { IfErr result (λ verdict. (task : Task) →
        IsFor (problem_in store.old problem.now) reader.old.version task →
        IsVerdictFrom task (Listing answer nothing) reader.old.given
        (to_give reader.old.rest (S.left source.old)) reader.new.given
        (to_give reader.new.rest (S.left source.new)) verdict) }
    ensures below { IfOk result (λ begun. All (λ id. id < length store.new)
        begun.formulas.items) }
    ensures free { IfOk result (λ begun. All (λ id. IsQuantifierFree (tree_at store.new id))
        begun.formulas.items) }
    ensures grows { Grows store.old store.new }
    ensures begun { OnOk result (0 < reader.new.given) }
    ensures reads { OnOk result (reader.new.stopped ≡ None) }
    ensures short { OnOk result (length reader.new.rest < piece_size) }
    ensures version { reader.new.version ≡ reader.old.version }
    ensures ends { IfErr result (λ verdict. EndsBy verdict (S.faults source.old)
        (S.faults source.new) reader.new) }
    ensures took { TookWith S.read_gives S.left reader.old source.old result reader.new
        source.new }
    ensures telling { TellsAsBefore (S.left source.old) (S.left source.new) }
    ensures count { S.faults source.old ≤ S.faults source.new }
{
    let _nodes = store.len();
    let mut listed = Listed::new(alloc);
    let next = read_nodes(answer, &mut listed, store, problem, reader, source)?;
    let formulas = start_list(
        alloc,
        answer,
        reader.version(),
        &listed,
        store,
        problem,
        &next,
    )?;
    Ok(Begun { next, formulas })
}

/// Reads the lines of a section up to `lrat`, and gives a checker of the clauses of its formulas.
#[tactic(auto, using(qv_check_lines::proofs::Ended::ends_later))]
pub fn read_to_lrat<S: Source>(
    alloc: Global,
    answer: Answer,
    store: &mut Store,
    problem: &Problem,
    reader: &mut CertReader,
    source: &mut S,
) -> Result<Checker, Verdict>
    requires posed { IsPosedIn store.old problem.now }
    requires begun { 0 < reader.old.given }
    requires reads { reader.old.stopped ≡ None }
    ensures goes { IfOk result (λ checker. (task : Task) →
        IsFor (problem_in store.old problem.now) reader.old.version task →
        ComesTo task (Listing answer nothing) reader.old.given
        (to_give reader.old.rest (S.left source.old)) (Refuting answer checker)
        reader.new.given (to_give reader.new.rest (S.left source.new))) }
    ensures err { IfErr result (λ verdict. (task : Task) →
        IsFor (problem_in store.old problem.now) reader.old.version task →
        IsVerdictFrom task (Listing answer nothing) reader.old.given
        (to_give reader.old.rest (S.left source.old)) reader.new.given
        (to_give reader.new.rest (S.left source.new)) verdict) }
    ensures grows { Grows store.old store.new }
    ensures begun { OnOk result (0 < reader.new.given) }
    ensures reads { OnOk result (reader.new.stopped ≡ None) }
    ensures short { OnOk result (length reader.new.rest < piece_size) }
    ensures version { reader.new.version ≡ reader.old.version }
    ensures ends { IfErr result (λ verdict. EndsBy verdict (S.faults source.old)
        (S.faults source.new) reader.new) }
    ensures took { TookWith S.read_gives S.left reader.old source.old result reader.new
        source.new }
    ensures telling { TellsAsBefore (S.left source.old) (S.left source.new) }
    ensures count { S.faults source.old ≤ S.faults source.new }
{
    let mut begun = read_list(alloc, answer, store, problem, reader, source)?;
    match take_line(alloc, store, &mut begun.formulas, &begun.next)? {
        Some(checker) => Ok(checker),
        None => read_passes(alloc, store, &mut begun.formulas, reader, source),
    }
}
