//! The check of the section of one check-sat.

ghost use Rattle.std.specs.Prelude.{◌≡◌, ◌≢◌, ◌≤◌, ◌<◌, ◌⊎◌, None, All, IsSome, length, map};
ghost use Rattle.qv_io.specs.Source.{TellsAsBefore};
ghost use Rattle.qv_words.specs.declared.op.Answer.TheVariants.{Sat, Unsat};
ghost use Rattle.qv_words.specs.Problem.{problem_of};
ghost use Rattle.qv_words.specs.Truth.{IsAssertion, AreTrue, HaveOneSort};
ghost use Rattle.qv_store.specs.Nodes.{tree_at};
ghost use Rattle.qv_store.specs.Stores.{Grows};
ghost use Rattle.qv_cert.specs.CertReader.{to_give};
ghost use Rattle.qv_cert.specs.Section.{Opening};
ghost use Rattle.qv_check_laws.specs.AnswerLaws.{task_of};
ghost use Rattle.qv_check_lines.specs.declared.verdict.Verdict.TheVariants.{Accepted, NoMemory};
ghost use Rattle.qv_check_lines.specs.declared.verdict.Verdict.TheVariants.{PrefixLimit};
ghost use Rattle.qv_check_lines.specs.Ending.{EndsBy, TookBy};
ghost use Rattle.qv_check_lines.specs.Judging.{IsVerdictFrom};

use crate::section::check_section;
use qv_cert::CertReader;
use qv_check_lines::Verdict;
use qv_io::Source;
use qv_prenex::{PrenexFault, prenex};
use qv_store::{Id, Store};
use std::alloc::Global;

/// Reads the section of the check-sat of this number, at which these formulas are asserted, and
/// says how it ends: it is accepted, or it is refused at a line by a kind. Each line is judged as
/// it is read, and behind that of the verdict none is read. Where the problem of the formulas has
/// more than so many places nothing is read. The store may keep further terms.
pub fn check_one<S: Source>(
    alloc: Global,
    store: &mut Store,
    assertions: &[Id],
    number: u64,
    places: u32,
    reader: &mut CertReader,
    source: &mut S,
) -> Verdict
    requires ids { All (λ id. id < length store.old) assertions.now }
    requires assertions { All IsAssertion (map (tree_at store.old) assertions.now) }
    requires sorts { HaveOneSort (map (tree_at store.old) assertions.now) }
    requires begun { 0 < reader.old.given }
    requires reads { reader.old.stopped ≡ None }
    // Where the source tells its bytes, the verdict is that of the definitions on the lines that
    // come, at exactly its line.
    ensures verdict { IsVerdictFrom (task_of (map (tree_at store.old) assertions.now) number
        reader.old.version) Opening reader.old.given
        (to_give reader.old.rest (S.left source.old)) reader.new.given
        (to_give reader.new.rest (S.left source.new)) result }

    // What an accepted answer says is so.
    ensures sat { IsSome (S.left source.old) → result ≡ Accepted Sat →
        AreTrue (map (tree_at store.old) assertions.now) }
    ensures unsat { IsSome (S.left source.old) → result ≡ Accepted Unsat →
        AreTrue (map (tree_at store.old) assertions.now) → ⊥ }

    // The limit, exactly.
    ensures over { result ≡ PrefixLimit →
        places < length (problem_of (map (tree_at store.old) assertions.now)).prefix }
    ensures within { places < length (problem_of (map (tree_at store.old) assertions.now)).prefix →
        (result ≡ PrefixLimit) ⊎ (result ≡ NoMemory) }
    ensures unread { result ≡ PrefixLimit →
        (reader.new ≡ reader.old) × (source.new ≡ source.old) }

    // Told or not: how much was read, and when reading failed.
    ensures ends { result ≢ PrefixLimit → EndsBy result (S.faults source.old)
        (S.faults source.new) reader.new }
    ensures version { reader.new.version ≡ reader.old.version }
    ensures grows { Grows store.old store.new }
    ensures telling { TellsAsBefore (S.left source.old) (S.left source.new) }
    ensures count { S.faults source.old ≤ S.faults source.new }

    // Told or not: which bytes were taken, and where the rest begins.
    ensures took { TookBy S.read_gives S.left reader.old source.old result reader.new
        source.new }
{
    match prenex(alloc, store, assertions, places) {
        Ok(problem) => check_section(alloc, number, store, &problem, reader, source),
        Err(PrenexFault::PrefixLimit) => Verdict::PrefixLimit,
        Err(PrenexFault::NoMemory) => Verdict::NoMemory,
    }
}
