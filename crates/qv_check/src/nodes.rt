//! The lines that list, up to the first `w` line or `lrat`.

ghost use Rattle.std.specs.Prelude.{length, ◌≡◌, ◌≤◌, ◌<◌, None, IfErr, IfOk, IfSome, OnOk, true, false};
ghost use Rattle.qv_io.specs.Source.{TellsAsBefore};
ghost use Rattle.qv_words.specs.declared.op.Answer.TheVariants.{Sat, Unsat};
ghost use Rattle.qv_store.specs.Stores.{Grows};
ghost use Rattle.qv_store.specs.Problems.{problem_in, IsPosedIn};
ghost use Rattle.qv_cert.specs.CertReader.{to_give, piece_size};
ghost use Rattle.qv_cert.specs.Faults.{belongs};
ghost use Rattle.qv_cert.specs.Line.{IsCertLine};
ghost use Rattle.qv_cert.specs.LineView.{cert_line_of};
ghost use Rattle.qv_cert.specs.Section.{Task, Listing};
ghost use Rattle.qv_cert.specs.SoFar.{IsSoFar};
ghost use Rattle.qv_cert_nodes.specs.Lists.{listed_in, IsListed};
ghost use Rattle.qv_check_lines.specs.Ending.{EndsBy, TookWith};
ghost use Rattle.qv_check_lines.specs.Judging.{IsFor, IsVerdictFrom};
ghost use Rattle.qv_check.specs.Nodes.{ends_nodes, IsGiven, LeadsAlong, LeadsOn};

use qv_cert::{CertReader, Line, RefusalKind};
use qv_cert_nodes::{Listed, fault_of, list};
use qv_check_lines::{Numbered, Place, Verdict, next_line};
use qv_io::Source;
use qv_store::{Problem, Store};
use qv_words::Answer;

// Whether the line comes behind the nodes.
fn ends_nodes(line: &Line) -> bool
    ensures { result ≡ ends_nodes (cert_line_of line.now) }
{
    match line {
        Line::Rewrite { .. } | Line::Lrat => true,
        Line::Header { .. }
        | Line::Check { .. }
        | Line::VarNode { .. }
        | Line::EigenNode { .. }
        | Line::LitNode { .. }
        | Line::OpNode { .. }
        | Line::Skolem { .. }
        | Line::Instance { .. }
        | Line::Eigen { .. }
        | Line::Step(_)
        | Line::End => false,
    }
}

// Whether the line lists in a section of this answer.
fn belongs(answer: Answer, line: &Line) -> bool
    ensures { result ≡ belongs answer (cert_line_of line.now) }
{
    match answer {
        Answer::Sat => belongs_to_sat(line),
        Answer::Unsat => belongs_to_unsat(line),
        Answer::Unknown => false,
    }
}

fn belongs_to_sat(line: &Line) -> bool
    ensures { result ≡ belongs Sat (cert_line_of line.now) }
{
    match line {
        Line::VarNode { .. } | Line::LitNode { .. } | Line::OpNode { .. } | Line::Skolem { .. } =>
            true,
        Line::Header { .. }
        | Line::Check { .. }
        | Line::EigenNode { .. }
        | Line::Instance { .. }
        | Line::Eigen { .. }
        | Line::Rewrite { .. }
        | Line::Lrat
        | Line::Step(_)
        | Line::End => false,
    }
}

fn belongs_to_unsat(line: &Line) -> bool
    ensures { result ≡ belongs Unsat (cert_line_of line.now) }
{
    match line {
        Line::EigenNode { .. }
        | Line::LitNode { .. }
        | Line::OpNode { .. }
        | Line::Instance { .. }
        | Line::Eigen { .. } => true,
        Line::Header { .. }
        | Line::Check { .. }
        | Line::VarNode { .. }
        | Line::Skolem { .. }
        | Line::Rewrite { .. }
        | Line::Lrat
        | Line::Step(_)
        | Line::End => false,
    }
}

// Lists what a line among the nodes lists.
fn take_node(
    answer: Answer,
    listed: &mut Listed,
    store: &mut Store,
    problem: &Problem,
    next: &Numbered,
) -> Result<(), Verdict>
    requires kept { IsListed store.old (problem_in store.old problem.now) listed.old }
    requires posed { IsPosedIn store.old problem.now }
    requires far { IsSoFar (problem_in store.old problem.now) answer
        (listed_in store.old listed.old) }
    requires node { ends_nodes (cert_line_of next.now.line) ≡ false }
    requires read { IsCertLine (cert_line_of next.now.line) }
    ensures given { (task : Task) → task.problem ≡ problem_in store.old problem.now →
        IsGiven task answer (listed_in store.old listed.old) (cert_line_of next.now.line)
        next.now.number result (listed_in store.new listed.new) }
    ensures kept { OnOk result (IsListed store.new (problem_in store.new problem.now)
        listed.new) }
    ensures posed { IsPosedIn store.new problem.now }
    ensures far { OnOk result (IsSoFar (problem_in store.new problem.now) answer
        (listed_in store.new listed.new)) }
    ensures same { problem_in store.new problem.now ≡ problem_in store.old problem.now }
    ensures grows { Grows store.old store.new }
{
    let _nodes = store.len();
    if !belongs(answer, &next.line) {
        return Err(Verdict::Refused {
            line: next.number,
            kind: RefusalKind::Form,
        });
    }
    if let Some(kind) = fault_of(listed, store, problem, &next.line) {
        return Err(Verdict::Refused {
            line: next.number,
            kind,
        });
    }
    match list(listed, store, problem, &next.line) {
        Ok(()) => Ok(()),
        Err(_) => Err(Verdict::NoMemory),
    }
}

// Reads the next line, and lists it, unless it comes behind the nodes.
fn read_node<S: Source>(
    answer: Answer,
    listed: &mut Listed,
    store: &mut Store,
    problem: &Problem,
    reader: &mut CertReader,
    source: &mut S,
) -> Result<Option<Numbered>, Verdict>
    requires kept { IsListed store.old (problem_in store.old problem.now) listed.old }
    requires posed { IsPosedIn store.old problem.now }
    requires far { IsSoFar (problem_in store.old problem.now) answer
        (listed_in store.old listed.old) }
    requires begun { 0 < reader.old.given }
    requires reads { reader.old.stopped ≡ None }
    ensures goes { IfOk result (λ found. (task : Task) →
        IsFor (problem_in store.old problem.now) reader.old.version task →
        LeadsOn task (Listing answer (listed_in store.old listed.old)) reader.old.given
        (to_give reader.old.rest (S.left source.old))
        (Listing answer (listed_in store.new listed.new)) reader.new.given
        (to_give reader.new.rest (S.left source.new)) found) }
    ensures behind { IfOk result (λ found. IfSome found (λ next.
        ends_nodes (cert_line_of next.line) ≡ true)) }
    ensures number { IfOk result (λ found. IfSome found (λ next.
        next.number ≡ reader.new.given)) }
    ensures err { IfErr result (λ verdict. (task : Task) →
        IsFor (problem_in store.old problem.now) reader.old.version task →
        IsVerdictFrom task (Listing answer (listed_in store.old listed.old)) reader.old.given
        (to_give reader.old.rest (S.left source.old)) reader.new.given
        (to_give reader.new.rest (S.left source.new)) verdict) }
    ensures kept { OnOk result (IsListed store.new (problem_in store.new problem.now)
        listed.new) }
    ensures posed { IsPosedIn store.new problem.now }
    ensures far { OnOk result (IsSoFar (problem_in store.new problem.now) answer
        (listed_in store.new listed.new)) }
    ensures same { problem_in store.new problem.now ≡ problem_in store.old problem.now }
    ensures grows { Grows store.old store.new }
    ensures begun { OnOk result (0 < reader.new.given) }
    ensures reads { OnOk result (reader.new.stopped ≡ None) }
    ensures short { OnOk result (length reader.new.rest < piece_size) }
    ensures version { reader.new.version ≡ reader.old.version }
    ensures ends { IfErr result (λ verdict. EndsBy verdict (S.faults source.old)
        (S.faults source.new) reader.new) }
    ensures took { TookWith S.read_gives S.left reader.old source.old result reader.new
        source.new }
    ensures telling { TellsAsBefore (S.left source.old) (S.left source.new) }
    ensures count { S.faults source.old ≤ S.faults source.new }
{
    let place = Place {
        in_lrat: false,
        node: true,
        rule: reader.version() == 2,
    };
    let next = next_line(reader, source, place)?;
    if ends_nodes(&next.line) {
        return Ok(Some(next));
    }
    take_node(answer, listed, store, problem, &next)?;
    Ok(None)
}

// Reads and lists lines up to the first one behind the nodes, which it gives.
#[tactic(auto, using(qv_check_lines::proofs::Ended::ends_later))]
pub(crate) fn read_nodes<S: Source>(
    answer: Answer,
    listed: &mut Listed,
    store: &mut Store,
    problem: &Problem,
    reader: &mut CertReader,
    source: &mut S,
) -> Result<Numbered, Verdict>
    requires kept { IsListed store.old (problem_in store.old problem.now) listed.old }
    requires posed { IsPosedIn store.old problem.now }
    requires far { IsSoFar (problem_in store.old problem.now) answer
        (listed_in store.old listed.old) }
    requires begun { 0 < reader.old.given }
    requires reads { reader.old.stopped ≡ None }
    ensures goes { IfOk result (λ next. (task : Task) →
        IsFor (problem_in store.old problem.now) reader.old.version task →
        LeadsAlong task (Listing answer (listed_in store.old listed.old)) reader.old.given
        (to_give reader.old.rest (S.left source.old))
        (Listing answer (listed_in store.new listed.new)) next
        (to_give reader.new.rest (S.left source.new))) }
    ensures behind { IfOk result (λ next. ends_nodes (cert_line_of next.line) ≡ true) }
    ensures number { IfOk result (λ next. next.number ≡ reader.new.given) }
    ensures err { IfErr result (λ verdict. (task : Task) →
        IsFor (problem_in store.old problem.now) reader.old.version task →
        IsVerdictFrom task (Listing answer (listed_in store.old listed.old)) reader.old.given
        (to_give reader.old.rest (S.left source.old)) reader.new.given
        (to_give reader.new.rest (S.left source.new)) verdict) }
    ensures kept { OnOk result (IsListed store.new (problem_in store.new problem.now)
        listed.new) }
    ensures posed { IsPosedIn store.new problem.now }
    ensures far { OnOk result (IsSoFar (problem_in store.new problem.now) answer
        (listed_in store.new listed.new)) }
    ensures same { problem_in store.new problem.now ≡ problem_in store.old problem.now }
    ensures grows { Grows store.old store.new }
    ensures begun { OnOk result (0 < reader.new.given) }
    ensures reads { OnOk result (reader.new.stopped ≡ None) }
    ensures short { OnOk result (length reader.new.rest < piece_size) }
    ensures version { reader.new.version ≡ reader.old.version }
    ensures ends { IfErr result (λ verdict. EndsBy verdict (S.faults source.old)
        (S.faults source.new) reader.new) }
    ensures took { TookWith S.read_gives S.left reader.old source.old result reader.new
        source.new }
    ensures telling { TellsAsBefore (S.left source.old) (S.left source.new) }
    ensures count { S.faults source.old ≤ S.faults source.new }
{
    'nodes: for _count in 0..u64::MAX {
        if let Some(next) = read_node(answer, listed, store, problem, reader, source)? {
            return Ok(next);
        }
    }
    // No source has as many lines.
    Err(Verdict::NoMemory)
}
