//! The lines of expansion lists.

ghost use Rattle.std.specs.Prelude.{◌≡◌, ◌<◌, ◌^◌, ◌∷◌, ◌++◌, [], suc, List, All, IfOk, OnOk};
ghost use Rattle.std.specs.Prelude.{length};
ghost use Rattle.qv_words.specs.Expansion.{ExpansionLine, IsExpansion};
ghost use Rattle.qv_store.specs.Stores.{Grows};
ghost use Rattle.qv_store.specs.Problems.{problem_in, IsPosedIn};
ghost use Rattle.qv_cert.specs.Line.{IsCertLine, IsNumber};
ghost use Rattle.qv_cert.specs.Listed.{listed_by};
ghost use Rattle.qv_cert_nodes.specs.Pushing.{Lists};
ghost use Rattle.qv_expand.specs.Trees.{line_in, lines_in, IsLineIn};
ghost use Rattle.qv_solve_write_laws.specs.Writing.{expansion_lines};
ghost use Rattle.qv_solve_write_laws.specs.WritingLaws.{AreLinesOf};
ghost use Rattle.qv_solve_write.specs.Ranges.{IsLineInRange};
ghost use Rattle.qv_solve_write.specs.Said.{lines_said};
ghost use Rattle.qv_solve_write.specs.Writers.{lines_of, nodes_of, IsWriting};

use crate::listing::list_all;
use crate::writer::Writer;
use crate::writing::Writing;
use qv_cert::Line;
use qv_expand::TreeLine;
use qv_store::{NoMemory, Problem, Store};
use qv_words::Answer;
use std::alloc::Global;

/// The lines of an expansion list: for each of its lines the nodes of its term that are new, in
/// post-order, and then the line itself. Also where memory runs out the store keeps what was put.
pub fn expansion_lines(
    alloc: Global,
    store: &mut Store,
    problem: &Problem,
    tree: &[TreeLine],
) -> Result<Writing, NoMemory>
    requires posed { IsPosedIn store.old problem.now }
    requires few { length tree.now < 2 ^ 62 }
    requires below { All (IsLineIn store.old) tree.now }
    requires section { IsExpansion (problem_in store.old problem.now)
        (lines_in store.old tree.now) }
    ensures lines { IfOk result (λ written. lines_said written.lines.items
        ≡ expansion_lines 1 [] (lines_in store.old tree.now)) }
    ensures form { IfOk result (λ written. All IsCertLine (lines_said written.lines.items)) }

    // They may stand in an unsat section, without a fault, and list this list.
    ensures lawful { IfOk result (λ written. AreLinesOf (problem_in store.old problem.now)
        Answer.Unsat (lines_said written.lines.items)) }
    ensures tree { IfOk result (λ written.
        (listed_by (problem_in store.old problem.now) (lines_said written.lines.items)).lines
        ≡ lines_in store.old tree.now) }

    // That is what stands beside them.
    ensures listed { IfOk result (λ written. Lists store.new (problem_in store.old problem.now)
        written.listed (listed_by (problem_in store.old problem.now)
        (lines_said written.lines.items))) }
    ensures grows { Grows store.old store.new }
{
    let lines = write_tree(alloc, store, tree)?;
    let listed = list_all(alloc, store, problem, &lines)?;
    Ok(Writing { lines, listed })
}

// The lines of an expansion list.
fn write_tree(alloc: Global, store: &Store, tree: &[TreeLine]) -> Result<Vec<Line>, NoMemory>
    requires few { length tree.now < 2 ^ 62 }
    requires below { All (IsLineIn store.now) tree.now }
    requires range { All IsLineInRange (lines_in store.now tree.now) }
    ensures lines { IfOk result (λ lines. lines_said lines.items
        ≡ expansion_lines 1 [] (lines_in store.now tree.now)) }
    ensures form { IfOk result (λ lines. All IsCertLine (lines_said lines.items)) }
{
    let mut writer = Writer::new(alloc);
    'written: for (index, line) in tree.iter().enumerate() {
        write_line(&mut writer, store, index as u64 + 1, *line)?;
    }
    Ok(writer.into_lines())
}

// The lines of one more line of an expansion list.
fn write_line(
    writer: &mut Writer,
    store: &Store,
    number: u64,
    line: TreeLine,
) -> Result<(), NoMemory>
    requires writing { IsWriting store.now writer.old }
    requires number { IsNumber number }
    requires below { IsLineIn store.now line }
    requires range { IsLineInRange (line_in store.now line) }
    ensures lines { OnOk result ((rest : List ExpansionLine) →
        lines_of writer.new ++ expansion_lines (suc number) (nodes_of store.now writer.new) rest
        ≡ lines_of writer.old ++ expansion_lines number (nodes_of store.now writer.old)
        (line_in store.now line ∷ rest)) }
    ensures writing { OnOk result (IsWriting store.now writer.new) }
{
    let parent = line.parent;
    match line.instance {
        Some(id) => {
            writer.write_nodes(store, Answer::Unsat, id)?;
            let node = writer.number(store, id);
            writer.write(Line::Instance {
                line: number,
                parent,
                node,
            })
        }
        None => writer.write(Line::Eigen {
            line: number,
            parent,
        }),
    }
}
