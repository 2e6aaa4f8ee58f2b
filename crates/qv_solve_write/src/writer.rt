//! Lines while they are written.

ghost use Rattle.std.specs.Prelude.{◌≡◌, ◌<◌, ◌∷◌, ◌++◌, [], List, Contains, OnOk, length};
ghost use Rattle.qv_words.specs.Clauses.{with_nodes};
ghost use Rattle.qv_words.specs.Tree.{Tree};
ghost use Rattle.qv_store.specs.Nodes.{tree_at};
ghost use Rattle.qv_cert.specs.Line.{IsCertLine, IsNumber};
ghost use Rattle.qv_cert.specs.LineView.{cert_line_of};
ghost use Rattle.qv_solve_write_laws.specs.Writing.{number_of, tree_lines};
ghost use Rattle.qv_solve_write.specs.Ranges.{IsInRange};
ghost use Rattle.qv_solve_write.specs.Said.{lines_said};

use crate::nodes::{node_line, number_of};
use qv_cert::Line;
use qv_store::{Id, NoMemory, Store, Walk};
use qv_words::Answer;
use std::alloc::Global;

// The nodes that have lines, and the lines so far.
#[derive(Drop)]
pub(crate) struct Writer {
    walk: Walk,
    lines: Vec<Line>,
}

impl Writer {
    ghost use Rattle.qv_solve_write.specs.Writers.{lines_of, nodes_of, IsWriting};

    // Nothing is written.
    pub(crate) fn new(alloc: Global) -> Writer
        ensures nodes { (trees : List Tree) → nodes_of trees result ≡ [] }
        ensures lines { lines_of result ≡ [] }
        ensures writing { (trees : List Tree) → IsWriting trees result }
    {
        Writer {
            walk: Walk::new(alloc),
            lines: Vec::new(alloc),
        }
    }

    // Writes the nodes of a term that have no lines yet.
    pub(crate) fn write_nodes(
        &mut self,
        store: &Store,
        answer: Answer,
        id: Id,
    ) -> Result<(), NoMemory>
        requires writing { IsWriting store.now self.old }
        requires id { id < length store.now }
        requires range { IsInRange (tree_at store.now id) }
        ensures nodes { OnOk result (nodes_of store.now self.new
            ≡ with_nodes (nodes_of store.now self.old) (tree_at store.now id)) }
        ensures lines { OnOk result (lines_of self.new ≡ lines_of self.old
            ++ tree_lines answer (nodes_of store.now self.old) (tree_at store.now id)) }
        ensures has { OnOk result (Contains self.new.walk id) }
        ensures writing { OnOk result (IsWriting store.now self.new) }
    {
        let alloc = *self.lines.allocator();
        let known = self.walk.len();
        self.walk.visit(store, id)?;
        'nodes: for place in known..self.walk.len() {
            let line = node_line(alloc, store, &self.walk, answer, place)?;
            self.lines.push(line)?;
        }
        Ok(())
    }

    // The number of a node that has a line.
    pub(crate) fn number(&self, store: &Store, id: Id) -> u64
        requires writing { IsWriting store.now self.now }
        requires has { Contains self.now.walk id }
        ensures number { result ≡ number_of (nodes_of store.now self.now) (tree_at store.now id) }
        ensures small { IsNumber result }
    {
        number_of(store, &self.walk, id)
    }

    // Writes a line.
    pub(crate) fn write(&mut self, line: Line) -> Result<(), NoMemory>
        requires { IsCertLine (cert_line_of line) }
        ensures lines { OnOk result (lines_of self.new
            ≡ lines_of self.old ++ cert_line_of line ∷ []) }
        ensures nodes { (trees : List Tree) → nodes_of trees self.new ≡ nodes_of trees self.old }
        ensures writing { (trees : List Tree) → IsWriting trees self.old →
            OnOk result (IsWriting trees self.new) }
    {
        self.lines.push(line)?;
        Ok(())
    }

    // The lines.
    pub(crate) fn into_lines(self) -> Vec<Line>
        ensures { lines_said result.items ≡ lines_of self }
    {
        let Writer { walk: _, lines } = self;
        lines
    }
}
