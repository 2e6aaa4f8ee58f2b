//! A reader of lines that uses memory again.

ghost use Rattle.std.specs.Prelude.{◌≡◌, Some, None, IfOk, IsErrOf};
ghost use Rattle.qv_cnf.specs.LratLine.{line_of};
ghost use Rattle.qv_lrat_text.specs.Grammar.{lrat_line, IsLine};

use crate::fault::LineFault;
use crate::reading::read_step;
use qv_cnf::{Lit, Step};
use std::alloc::Global;
use std::mem;

/// Reads lines of LRAT proofs one by one. A step that it gets back lends its memory to the next.
#[derive(Debug, Drop)]
pub struct LineReader {
    alloc: Global,
    lits: Vec<Lit>,
    hints: Vec<i64>,
    ids: Vec<u64>,
}

impl LineReader {
    pub fn new(alloc: Global) -> LineReader {
        LineReader {
            alloc,
            lits: Vec::new(alloc),
            hints: Vec::new(alloc),
            ids: Vec::new(alloc),
        }
    }

    /// The step that the line says: the text of one line, with or without its LF.
    pub fn read(&mut self, line: &[u8]) -> Result<Step, LineFault>
        ensures read { IfOk result (λ step. lrat_line line.now ≡ Some (line_of step)) }
        ensures in_range { IfOk result (λ step. IsLine (line_of step)) }
        ensures form { IsErrOf result LineFault.Form → lrat_line line.now ≡ None }
    {
        read_step(self, line)
    }

    /// Takes a step back that isn't needed any more.
    pub fn reuse(&mut self, step: Step) {
        match step {
            Step::Add { lits, hints, .. } => {
                self.lits = lits;
                self.hints = hints;
            }
            Step::Delete { ids, .. } => self.ids = ids,
        }
    }

    // A list for literals.
    pub(crate) fn lits(&mut self) -> Vec<Lit> {
        mem::replace(&mut self.lits, Vec::new(self.alloc))
    }

    // A list for hints.
    pub(crate) fn hints(&mut self) -> Vec<i64> {
        mem::replace(&mut self.hints, Vec::new(self.alloc))
    }

    // A list for the ids of clauses that are deleted.
    pub(crate) fn ids(&mut self) -> Vec<u64> {
        mem::replace(&mut self.ids, Vec::new(self.alloc))
    }
}
