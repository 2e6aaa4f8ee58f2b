//! The `w` lines of a section, up to `lrat`.

ghost use Rattle.std.specs.Prelude.{◌≡◌, ◌≤◌, ◌<◌, None, All, IfErr, IfOk, OnOk, length};
ghost use Rattle.qv_io.specs.Source.{TellsAsBefore};
ghost use Rattle.qv_words.specs.declared.op.Answer.{Answer};
ghost use Rattle.qv_words.specs.Tree.{IsQuantifierFree};
ghost use Rattle.qv_store.specs.Nodes.{tree_at};
ghost use Rattle.qv_store.specs.Stores.{Grows};
ghost use Rattle.qv_store.specs.Walks.{named};
ghost use Rattle.qv_rewrite_passes.specs.Passes.{behind};
ghost use Rattle.qv_cert.specs.CertReader.{to_give, piece_size};
ghost use Rattle.qv_cert.specs.LineView.{cert_line_of};
ghost use Rattle.qv_cert.specs.Section.{Task, Refuting, Rewriting};
ghost use Rattle.qv_check_lines.specs.Ending.{EndsBy, TookWith};
ghost use Rattle.qv_check_lines.specs.Judging.{ComesTo, IsVerdictFrom};
ghost use Rattle.qv_check_lines.specs.Rewriting.{IsLed, state_with};

use crate::lines::{Numbered, Place, next_line};
use crate::verdict::Verdict;
use qv_cert::{CertReader, Line, RefusalKind};
use qv_cert_formulas::checker_of;
use qv_io::Source;
use qv_rewrite_lists::take;
use qv_rewrite_passes::Pass;
use qv_rup::Checker;
use qv_store::{Id, NoMemory, Store};
use std::alloc::Global;

// Rewrites the formulas by a pass.
fn rewrite(
    alloc: Global,
    store: &mut Store,
    formulas: &mut Vec<Id>,
    pass: Pass,
) -> Result<(), NoMemory>
    requires below { All (λ id. id < length store.old) formulas.old.items }
    requires free { All (λ id. IsQuantifierFree (tree_at store.old id)) formulas.old.items }
    ensures passed { OnOk result (named store.new formulas.new.items
        ≡ behind pass (named store.old formulas.old.items)) }
    ensures below { OnOk result (All (λ id. id < length store.new) formulas.new.items) }
    ensures free { OnOk result (All (λ id. IsQuantifierFree (tree_at store.new id))
        formulas.new.items) }
    ensures grows { Grows store.old store.new }
{
    *formulas = take(alloc, store, pass, formulas)?;
    Ok(())
}

/// What a line behind the nodes does: nothing is there where the formulas are rewritten, and a
/// checker of their clauses where the refutation follows.
#[tactic(auto, using(crate::proofs::Rewritten::grows_none))]
pub fn take_line(
    alloc: Global,
    store: &mut Store,
    formulas: &mut Vec<Id>,
    next: &Numbered,
) -> Result<Option<Checker>, Verdict>
    requires below { All (λ id. id < length store.old) formulas.old.items }
    requires free { All (λ id. IsQuantifierFree (tree_at store.old id)) formulas.old.items }
    ensures taken { (task : Task) (answer : Answer) →
        IsLed task (Rewriting answer (named store.old formulas.old.items)) answer
        (cert_line_of next.now.line) next.now.number result
        (named store.new formulas.new.items) }
    ensures below { OnOk result (All (λ id. id < length store.new) formulas.new.items) }
    ensures free { OnOk result (All (λ id. IsQuantifierFree (tree_at store.new id))
        formulas.new.items) }
    ensures grows { Grows store.old store.new }
{
    match &next.line {
        Line::Rewrite { pass } => match rewrite(alloc, store, formulas, *pass) {
            Ok(()) => Ok(None),
            Err(_) => Err(Verdict::NoMemory),
        },
        Line::Lrat => match checker_of(alloc, store, formulas) {
            Ok(Some(checker)) => Ok(Some(checker)),
            Ok(None) => Err(Verdict::Refused {
                line: next.number,
                kind: RefusalKind::Variables,
            }),
            Err(_) => Err(Verdict::NoMemory),
        },
        Line::Header { .. }
        | Line::Check { .. }
        | Line::VarNode { .. }
        | Line::EigenNode { .. }
        | Line::LitNode { .. }
        | Line::OpNode { .. }
        | Line::Skolem { .. }
        | Line::Instance { .. }
        | Line::Eigen { .. }
        | Line::Step(_)
        | Line::End => Err(Verdict::Refused {
            line: next.number,
            kind: RefusalKind::Form,
        }),
    }
}

// Reads the next line behind the nodes, and says whether the refutation follows.
#[tactic(auto, using(crate::proofs::Rewritten::grows_none))]
fn read_line<S: Source>(
    alloc: Global,
    store: &mut Store,
    formulas: &mut Vec<Id>,
    reader: &mut CertReader,
    source: &mut S,
) -> Result<Option<Checker>, Verdict>
    requires below { All (λ id. id < length store.old) formulas.old.items }
    requires free { All (λ id. IsQuantifierFree (tree_at store.old id)) formulas.old.items }
    requires begun { 0 < reader.old.given }
    requires reads { reader.old.stopped ≡ None }
    ensures goes { IfOk result (λ found. (task : Task) (answer : Answer) →
        ComesTo task (Rewriting answer (named store.old formulas.old.items)) reader.old.given
        (to_give reader.old.rest (S.left source.old))
        (state_with answer found (named store.new formulas.new.items)) reader.new.given
        (to_give reader.new.rest (S.left source.new))) }
    ensures err { IfErr result (λ verdict. (task : Task) (answer : Answer) →
        IsVerdictFrom task (Rewriting answer (named store.old formulas.old.items))
        reader.old.given (to_give reader.old.rest (S.left source.old)) reader.new.given
        (to_give reader.new.rest (S.left source.new)) verdict) }
    ensures below { OnOk result (All (λ id. id < length store.new) formulas.new.items) }
    ensures free { OnOk result (All (λ id. IsQuantifierFree (tree_at store.new id))
        formulas.new.items) }
    ensures grows { Grows store.old store.new }
    ensures begun { OnOk result (0 < reader.new.given) }
    ensures reads { OnOk result (reader.new.stopped ≡ None) }
    ensures short { OnOk result (length reader.new.rest < piece_size) }
    ensures version { reader.new.version ≡ reader.old.version }
    ensures ends { IfErr result (λ verdict. EndsBy verdict (S.faults source.old)
        (S.faults source.new) reader.new) }
    ensures took { TookWith S.read_gives S.left reader.old source.old result reader.new
        source.new }
    ensures telling { TellsAsBefore (S.left source.old) (S.left source.new) }
    ensures count { S.faults source.old ≤ S.faults source.new }
{
    let place = Place {
        in_lrat: false,
        node: false,
        rule: true,
    };
    let next = next_line(reader, source, place)?;
    take_line(alloc, store, formulas, &next)
}

/// Reads the `w` lines up to `lrat`, and gives a checker of the clauses of the formulas that they
/// leave.
#[tactic(auto, using(crate::proofs::Rewritten::grows_none, crate::proofs::Rewritten::grows_on, crate::proofs::Ended::ends_later))]
pub fn read_passes<S: Source>(
    alloc: Global,
    store: &mut Store,
    formulas: &mut Vec<Id>,
    reader: &mut CertReader,
    source: &mut S,
) -> Result<Checker, Verdict>
    requires below { All (λ id. id < length store.old) formulas.old.items }
    requires free { All (λ id. IsQuantifierFree (tree_at store.old id)) formulas.old.items }
    requires begun { 0 < reader.old.given }
    requires reads { reader.old.stopped ≡ None }
    ensures goes { IfOk result (λ checker. (task : Task) (answer : Answer) →
        ComesTo task (Rewriting answer (named store.old formulas.old.items)) reader.old.given
        (to_give reader.old.rest (S.left source.old)) (Refuting answer checker) reader.new.given
        (to_give reader.new.rest (S.left source.new))) }
    ensures err { IfErr result (λ verdict. (task : Task) (answer : Answer) →
        IsVerdictFrom task (Rewriting answer (named store.old formulas.old.items))
        reader.old.given (to_give reader.old.rest (S.left source.old)) reader.new.given
        (to_give reader.new.rest (S.left source.new)) verdict) }
    ensures grows { Grows store.old store.new }
    ensures begun { OnOk result (0 < reader.new.given) }
    ensures reads { OnOk result (reader.new.stopped ≡ None) }
    ensures short { OnOk result (length reader.new.rest < piece_size) }
    ensures version { reader.new.version ≡ reader.old.version }
    ensures ends { IfErr result (λ verdict. EndsBy verdict (S.faults source.old)
        (S.faults source.new) reader.new) }
    ensures took { TookWith S.read_gives S.left reader.old source.old result reader.new
        source.new }
    ensures telling { TellsAsBefore (S.left source.old) (S.left source.new) }
    ensures count { S.faults source.old ≤ S.faults source.new }
{
    'passes: for _count in 0..u64::MAX {
        if let Some(checker) = read_line(alloc, store, formulas, reader, source)? {
            return Ok(checker);
        }
    }
    // No source has as many lines.
    Err(Verdict::NoMemory)
}
