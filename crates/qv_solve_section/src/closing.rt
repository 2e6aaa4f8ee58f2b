//! The end of a section.

ghost use Rattle.std.specs.Prelude.{◌≡◌, ◌<◌, ◌^◌, All, IfOk, IfErr, length};
ghost use Rattle.qv_store.specs.Stores.{Grows};
ghost use Rattle.qv_store.specs.Walks.{named};
ghost use Rattle.qv_store.specs.Problems.{problem_in, IsPosedIn};
ghost use Rattle.qv_rewrite_lists.specs.Rewriting.{AreFormulas};
ghost use Rattle.qv_rewrite_passes.specs.Passes.{behind_all, EachChanges};
ghost use Rattle.qv_cert.specs.ClauseList.{clause_list};
ghost use Rattle.qv_cert.specs.Line.{IsCertLine, IsNumber};
ghost use Rattle.qv_cert.specs.Listed.{listed_by};
ghost use Rattle.qv_cert.specs.Section.{first_list};
ghost use Rattle.qv_cert.specs.Shown.{IsListOf};
ghost use Rattle.qv_cert_nodes.specs.Lists.{listed_in, IsListed};
ghost use Rattle.qv_cert_nodes.specs.Pushing.{Lists};
ghost use Rattle.qv_solve_write.specs.Said.{lines_said};
ghost use Rattle.qv_solve_write_laws.specs.WritingLaws.{AreLinesOf};
ghost use Rattle.qv_solve_refute.specs.Greatest.{greatest_variable};
ghost use Rattle.qv_solve_refute.specs.Refuting.{IsCharged, IsForFinal, IsMeasured, IsSpentBy};
ghost use Rattle.qv_solve_refute.specs.Refuting.{variable_limit};
ghost use Rattle.qv_solve_section.specs.Measured.{EachIsForFinal, IsFaultBehind};
ghost use Rattle.qv_solve_section.specs.Sections.{formulas_of, task_of};
ghost use Rattle.qv_solve_section.specs.Sections.{IsClosed, IsCounted, IsRefuted};

use crate::lines::section_lines;
use qv_cert::Line;
use qv_cert_formulas::first_list;
use qv_cert_nodes::Listed;
use qv_cnf::Step;
use qv_meter::{Lane, Meter, PlayFault};
use qv_rewrite_lists::{Rewritten, rewrite};
use qv_solve_refute::refute;
use qv_solve_write::Writing;
use qv_store::{Id, NoMemory, Problem, Store};
use qv_words::Answer;
use std::alloc::Global;

/// The lines of a section, and the greatest variable of the clauses that it refutes.
#[derive(Drop)]
pub struct Closing {
    pub lines: Vec<Line>,
    pub variables: u32,
}

/// The lines of the section of this number and answer, where these list Skolem terms or an
/// expansion list: the passes that pay for its formulas, and a refutation of their clauses.
/// Steps that were noted before are tried for it first; the conflicts of a search are charged to
/// the final lane. Also where memory runs out the store keeps what was put.
pub fn close(
    alloc: Global,
    store: &mut Store,
    problem: &Problem,
    number: u64,
    answer: Answer,
    written: Writing,
    noted: &[Step],
    meter: &mut Meter,
) -> Result<Closing, PlayFault>
    requires posed { IsPosedIn store.old problem.now }
    requires number { IsNumber number }

    // What was written are lines without a fault of such a section, with what they list.
    requires form { All IsCertLine (lines_said written.lines.items) }
    requires lawful { AreLinesOf (problem_in store.old problem.now) answer
        (lines_said written.lines.items) }
    requires section { IsListOf (problem_in store.old problem.now) answer
        (listed_by (problem_in store.old problem.now) (lines_said written.lines.items)) }
    requires listed { Lists store.old (problem_in store.old problem.now) written.listed
        (listed_by (problem_in store.old problem.now) (lines_said written.lines.items)) }

    // Behind whatever passes, they are a final list of the newest record's play.
    requires owed { EachIsForFinal meter.old (formulas_of (problem_in store.old problem.now)
        answer (lines_said written.lines.items)) }
    ensures closed { IfOk result (λ whole. IsClosed (problem_in store.old problem.now) number answer
        (variable_limit meter.old) (lines_said written.lines.items)
        (lines_said whole.lines.items)) }
    ensures section { IfOk result (λ whole. IsCounted
        (task_of (problem_in store.old problem.now) number) answer
        (lines_said whole.lines.items) whole.variables) }
    ensures form { IfOk result (λ whole. All IsCertLine (lines_said whole.lines.items)) }

    // Only where memory runs out, or the meter is spent, are there no lines.
    ensures charged { IsCharged meter.old meter.new result }
    ensures spent { IfErr result (IsSpentBy meter.new) }
    ensures fault { IfErr result (IsFaultBehind meter.old (formulas_of
        (problem_in store.old problem.now) answer (lines_said written.lines.items))) }
    ensures grows { Grows store.old store.new }
{
    meter.lane(Lane::Final);
    let Writing { lines, listed } = written;
    let rewritten = rewritten_list(alloc, store, problem, answer, &listed)?;
    refuted_lines(
        alloc, store, number, answer, lines, &rewritten, noted, meter,
    )
}

// The formulas that were listed, behind the passes that pay.
fn rewritten_list(
    alloc: Global,
    store: &mut Store,
    problem: &Problem,
    answer: Answer,
    listed: &Listed,
) -> Result<Rewritten, NoMemory>
    requires posed { IsPosedIn store.old problem.now }
    requires kept { IsListed store.old (problem_in store.old problem.now) listed.now }
    requires section { IsListOf (problem_in store.old problem.now) answer
        (listed_in store.old listed.now) }
    ensures list { IfOk result (λ made. named store.new made.list.items
        ≡ behind_all made.passes.items (first_list (problem_in store.old problem.now) answer
        (listed_in store.old listed.now))) }
    ensures changes { IfOk result (λ made. EachChanges made.passes.items (first_list
        (problem_in store.old problem.now) answer (listed_in store.old listed.now))) }
    ensures below { IfOk result (λ made. All (λ id. id < length store.new) made.list.items) }
    ensures grows { Grows store.old store.new }
{
    let first = listed_formulas(alloc, store, problem, answer, listed)?;
    rewrite(alloc, store, first)
}

// The formulas that were listed.
fn listed_formulas(
    alloc: Global,
    store: &mut Store,
    problem: &Problem,
    answer: Answer,
    listed: &Listed,
) -> Result<Vec<Id>, NoMemory>
    requires posed { IsPosedIn store.old problem.now }
    requires kept { IsListed store.old (problem_in store.old problem.now) listed.now }
    requires section { IsListOf (problem_in store.old problem.now) answer
        (listed_in store.old listed.now) }
    ensures list { IfOk result (λ ids. named store.new ids.items
        ≡ first_list (problem_in store.old problem.now) answer (listed_in store.old listed.now)) }
    ensures formulas { IfOk result (λ ids. AreFormulas store.new ids.items) }
    ensures grows { Grows store.old store.new }
{
    match first_list(alloc, answer, listed, store, problem)? {
        Some(first) => Ok(first),
        None => unreachable!(),
    }
}

// The lines of a section with these formulas, and a refutation of them.
fn refuted_lines(
    alloc: Global,
    store: &Store,
    number: u64,
    answer: Answer,
    lines: Vec<Line>,
    rewritten: &Rewritten,
    noted: &[Step],
    meter: &mut Meter,
) -> Result<Closing, PlayFault>
    requires number { IsNumber number }
    requires form { All IsCertLine (lines_said lines.items) }
    requires below { All (λ id. id < length store.now) rewritten.now.list.items }
    requires owed { IsForFinal meter.old (named store.now rewritten.now.list.items) }
    ensures refuted { IfOk result (λ whole. IsRefuted number answer (lines_said lines.items)
        rewritten.now.passes.items (named store.now rewritten.now.list.items)
        (lines_said whole.lines.items)) }
    ensures greatest { IfOk result (λ whole. whole.variables
        ≡ greatest_variable (clause_list (named store.now rewritten.now.list.items))) }
    ensures form { IfOk result (λ whole. All IsCertLine (lines_said whole.lines.items)) }
    ensures charged { IsCharged meter.old meter.new result }
    ensures spent { IfErr result (IsSpentBy meter.new) }
    ensures variables { IsMeasured meter.old (named store.now rewritten.now.list.items) result }
{
    match refute(alloc, store, &rewritten.list, noted, meter) {
        Ok(found) => {
            let variables = found.variables;
            let passes = &rewritten.passes;
            let laid = found.refutation.laid();
            let steps = found.refutation.steps(noted);
            let whole = section_lines(alloc, number, answer, lines, passes, laid, steps);
            drop(found);
            let lines = whole?;
            Ok(Closing { lines, variables })
        }
        Err(fault) => {
            drop(lines);
            Err(fault)
        }
    }
}
