//! The last parts of a section: the passes that rewrite its formulas, and the refutation of their
//! clauses.

ghost use Rattle.std.specs.Prelude.{◌≡◌, ◌≤◌, ◌<◌, None, All, length};
ghost use Rattle.qv_io.specs.Source.{TellsAsBefore};
ghost use Rattle.qv_words.specs.Tree.{IsQuantifierFree};
ghost use Rattle.qv_store.specs.Nodes.{tree_at};
ghost use Rattle.qv_store.specs.Stores.{Grows};
ghost use Rattle.qv_store.specs.Walks.{named};
ghost use Rattle.qv_cert.specs.CertReader.{to_give};
ghost use Rattle.qv_cert.specs.Section.{Task, Refuting, Rewriting};
ghost use Rattle.qv_check_lines.specs.Ending.{EndsBy, TookBy};
ghost use Rattle.qv_check_lines.specs.Judging.{IsVerdictFrom};

use crate::rewriting::read_passes;
use crate::steps::read_steps;
use crate::verdict::Verdict;
use qv_cert::CertReader;
use qv_io::Source;
use qv_rup::Checker;
use qv_store::{Id, Store};
use qv_words::Answer;
use std::alloc::Global;

/// Reads the refutation of clauses that a checker was given, up to the section's end, and says how
/// the section of this answer ends. Each step goes to the checker as its line is read.
#[tactic(auto, using(crate::proofs::Ended::ends_later))]
pub fn check_refutation<S: Source>(
    answer: Answer,
    checker: &mut Checker,
    reader: &mut CertReader,
    source: &mut S,
) -> Verdict
    requires begun { 0 < reader.old.given }
    requires reads { reader.old.stopped ≡ None }
    ensures verdict { (task : Task) → IsVerdictFrom task (Refuting answer checker.old)
        reader.old.given (to_give reader.old.rest (S.left source.old)) reader.new.given
        (to_give reader.new.rest (S.left source.new)) result }
    ensures version { reader.new.version ≡ reader.old.version }
    ensures ends { EndsBy result (S.faults source.old) (S.faults source.new) reader.new }
    ensures took { TookBy S.read_gives S.left reader.old source.old result reader.new
        source.new }
    ensures telling { TellsAsBefore (S.left source.old) (S.left source.new) }
    ensures count { S.faults source.old ≤ S.faults source.new }
{
    match read_steps(checker, reader, source) {
        Ok(()) => Verdict::Accepted(answer),
        Err(verdict) => verdict,
    }
}

/// Reads further passes that rewrite formulas, and then the refutation of the clauses of what they
/// leave, up to the section's end, and says how the section of this answer ends.
#[tactic(auto, using(crate::proofs::Ended::ends_later))]
pub fn check_rewriting<S: Source>(
    alloc: Global,
    answer: Answer,
    store: &mut Store,
    formulas: &mut Vec<Id>,
    reader: &mut CertReader,
    source: &mut S,
) -> Verdict
    requires below { All (λ id. id < length store.old) formulas.old.items }
    requires free { All (λ id. IsQuantifierFree (tree_at store.old id)) formulas.old.items }
    requires begun { 0 < reader.old.given }
    requires reads { reader.old.stopped ≡ None }
    ensures verdict { (task : Task) →
        IsVerdictFrom task (Rewriting answer (named store.old formulas.old.items))
        reader.old.given (to_give reader.old.rest (S.left source.old)) reader.new.given
        (to_give reader.new.rest (S.left source.new)) result }
    ensures grows { Grows store.old store.new }
    ensures version { reader.new.version ≡ reader.old.version }
    ensures ends { EndsBy result (S.faults source.old) (S.faults source.new) reader.new }
    ensures took { TookBy S.read_gives S.left reader.old source.old result reader.new
        source.new }
    ensures telling { TellsAsBefore (S.left source.old) (S.left source.new) }
    ensures count { S.faults source.old ≤ S.faults source.new }
{
    match read_passes(alloc, store, formulas, reader, source) {
        Ok(mut checker) => check_refutation(answer, &mut checker, reader, source),
        Err(verdict) => verdict,
    }
}
