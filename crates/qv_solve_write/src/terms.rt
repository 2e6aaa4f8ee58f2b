//! The lines of Skolem terms.

ghost use Rattle.std.specs.Prelude.{◌≡◌, ◌<◌, ◌≤◌, ◌^◌, ◌∷◌, ◌++◌, [], List, All, IfOk, OnOk};
ghost use Rattle.std.specs.Prelude.{length};
ghost use Rattle.qv_words.specs.Skolem.{SkolemOk, SkolemTerm};
ghost use Rattle.qv_store.specs.Stores.{Grows};
ghost use Rattle.qv_store.specs.Problems.{problem_in, IsPosedIn};
ghost use Rattle.qv_cert.specs.Line.{IsCertLine};
ghost use Rattle.qv_cert.specs.Listed.{listed_by};
ghost use Rattle.qv_cert_nodes.specs.Pushing.{Lists};
ghost use Rattle.qv_skolem.specs.Skolems.{skolem_in, skolems_in};
ghost use Rattle.qv_solve_write_laws.specs.Writing.{term_lines};
ghost use Rattle.qv_solve_write_laws.specs.WritingLaws.{AreLinesOf};
ghost use Rattle.qv_solve_write.specs.Ranges.{IsTermInRange};
ghost use Rattle.qv_solve_write.specs.Said.{lines_said};
ghost use Rattle.qv_solve_write.specs.Writers.{lines_of, nodes_of, IsWriting};

use crate::listing::list_all;
use crate::writer::Writer;
use crate::writing::Writing;
use qv_cert::Line;
use qv_skolem::Skolem;
use qv_store::{NoMemory, Problem, Store};
use qv_words::Answer;
use std::alloc::Global;

/// The lines of a Skolem section: for each term the nodes that are new, in post-order, and then the
/// line of its place. Also where memory runs out the store keeps what was put.
pub fn term_lines(
    alloc: Global,
    store: &mut Store,
    problem: &Problem,
    terms: &[Skolem],
) -> Result<Writing, NoMemory>
    requires posed { IsPosedIn store.old problem.now }
    requires few { length problem.now.prefix.items ≤ 2 ^ 62 }
    requires below { All (λ s. s.term < length store.old) terms.now }
    requires section { SkolemOk (problem_in store.old problem.now)
        (skolems_in store.old terms.now) }
    ensures lines { IfOk result (λ written. lines_said written.lines.items
        ≡ term_lines [] (skolems_in store.old terms.now)) }
    ensures form { IfOk result (λ written. All IsCertLine (lines_said written.lines.items)) }

    // They may stand in a sat section, without a fault, and list these terms.
    ensures lawful { IfOk result (λ written. AreLinesOf (problem_in store.old problem.now)
        Answer.Sat (lines_said written.lines.items)) }
    ensures terms { IfOk result (λ written.
        (listed_by (problem_in store.old problem.now) (lines_said written.lines.items)).terms
        ≡ skolems_in store.old terms.now) }

    // That is what stands beside them.
    ensures listed { IfOk result (λ written. Lists store.new (problem_in store.old problem.now)
        written.listed (listed_by (problem_in store.old problem.now)
        (lines_said written.lines.items))) }
    ensures grows { Grows store.old store.new }
{
    let lines = write_terms(alloc, store, terms)?;
    let listed = list_all(alloc, store, problem, &lines)?;
    Ok(Writing { lines, listed })
}

// The lines of terms.
fn write_terms(alloc: Global, store: &Store, terms: &[Skolem]) -> Result<Vec<Line>, NoMemory>
    requires below { All (λ s. s.term < length store.now) terms.now }
    requires range { All IsTermInRange (skolems_in store.now terms.now) }
    ensures lines { IfOk result (λ lines. lines_said lines.items
        ≡ term_lines [] (skolems_in store.now terms.now)) }
    ensures form { IfOk result (λ lines. All IsCertLine (lines_said lines.items)) }
{
    let mut writer = Writer::new(alloc);
    'written: for term in terms {
        write_term(&mut writer, store, *term)?;
    }
    Ok(writer.into_lines())
}

// The lines of one more term.
fn write_term(writer: &mut Writer, store: &Store, term: Skolem) -> Result<(), NoMemory>
    requires writing { IsWriting store.now writer.old }
    requires below { term.term < length store.now }
    requires range { IsTermInRange (skolem_in store.now term) }
    ensures lines { OnOk result ((rest : List SkolemTerm) →
        lines_of writer.new ++ term_lines (nodes_of store.now writer.new) rest
        ≡ lines_of writer.old
        ++ term_lines (nodes_of store.now writer.old) (skolem_in store.now term ∷ rest)) }
    ensures writing { OnOk result (IsWriting store.now writer.new) }
{
    writer.write_nodes(store, Answer::Sat, term.term)?;
    let node = writer.number(store, term.term);
    writer.write(Line::Skolem {
        place: term.place,
        node,
    })
}
