//! A whole section.

ghost use Rattle.std.specs.Prelude.{◌≡◌, ◌≤◌, ◌<◌, None};
ghost use Rattle.qv_io.specs.Source.{TellsAsBefore};
ghost use Rattle.qv_store.specs.Stores.{Grows};
ghost use Rattle.qv_store.specs.Problems.{problem_in, IsPosedIn};
ghost use Rattle.qv_cert.specs.CertReader.{to_give};
ghost use Rattle.qv_cert.specs.Listed.{nothing};
ghost use Rattle.qv_cert.specs.Section.{Task, Listing, Opening};
ghost use Rattle.qv_check_lines.specs.Ending.{EndsBy, TookBy};
ghost use Rattle.qv_check_lines.specs.Judging.{IsFor, IsVerdictFrom};

use crate::leaving::read_to_lrat;
use crate::opening::{close, open};
use qv_cert::CertReader;
use qv_check_lines::{Verdict, check_refutation};
use qv_io::Source;
use qv_store::{Problem, Store};
use qv_words::Answer;
use std::alloc::Global;

// Reads a section of this answer behind its `check` line.
#[tactic(auto, using(qv_check_lines::proofs::Ended::ends_later))]
fn check_list<S: Source>(
    alloc: Global,
    answer: Answer,
    store: &mut Store,
    problem: &Problem,
    reader: &mut CertReader,
    source: &mut S,
) -> Verdict
    requires posed { IsPosedIn store.old problem.now }
    requires begun { 0 < reader.old.given }
    requires reads { reader.old.stopped ≡ None }
    ensures verdict { (task : Task) →
        IsFor (problem_in store.old problem.now) reader.old.version task →
        IsVerdictFrom task (Listing answer nothing) reader.old.given
        (to_give reader.old.rest (S.left source.old)) reader.new.given
        (to_give reader.new.rest (S.left source.new)) result }
    ensures grows { Grows store.old store.new }
    ensures version { reader.new.version ≡ reader.old.version }
    ensures ends { EndsBy result (S.faults source.old) (S.faults source.new) reader.new }
    ensures took { TookBy S.read_gives S.left reader.old source.old result reader.new
        source.new }
    ensures telling { TellsAsBefore (S.left source.old) (S.left source.new) }
    ensures count { S.faults source.old ≤ S.faults source.new }
{
    match read_to_lrat(alloc, answer, store, problem, reader, source) {
        Ok(mut checker) => check_refutation(answer, &mut checker, reader, source),
        Err(verdict) => verdict,
    }
}

// Reads the section of this number, and says how it ends for a problem of the store. Each line is
// judged as it is read.
#[tactic(auto, using(qv_check_lines::proofs::Ended::ends_later))]
pub(crate) fn check_section<S: Source>(
    alloc: Global,
    number: u64,
    store: &mut Store,
    problem: &Problem,
    reader: &mut CertReader,
    source: &mut S,
) -> Verdict
    requires posed { IsPosedIn store.old problem.now }
    requires begun { 0 < reader.old.given }
    requires reads { reader.old.stopped ≡ None }
    ensures verdict { (task : Task) →
        IsFor (problem_in store.old problem.now) reader.old.version task →
        task.number ≡ number → IsVerdictFrom task Opening reader.old.given
        (to_give reader.old.rest (S.left source.old)) reader.new.given
        (to_give reader.new.rest (S.left source.new)) result }
    ensures grows { Grows store.old store.new }
    ensures version { reader.new.version ≡ reader.old.version }
    ensures ends { EndsBy result (S.faults source.old) (S.faults source.new) reader.new }
    ensures took { TookBy S.read_gives S.left reader.old source.old result reader.new
        source.new }
    ensures telling { TellsAsBefore (S.left source.old) (S.left source.new) }
    ensures count { S.faults source.old ≤ S.faults source.new }
{
    let _nodes = store.len();
    match open(number, reader, source) {
        Ok(Answer::Unknown) => close(reader, source),
        Ok(Answer::Sat) => check_list(alloc, Answer::Sat, store, problem, reader, source),
        Ok(Answer::Unsat) => check_list(alloc, Answer::Unsat, store, problem, reader, source),
        Err(verdict) => verdict,
    }
}
