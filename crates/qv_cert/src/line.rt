//! Lines of certificates, and sections.

use qv_cnf::Step;
use qv_rewrite_passes::Pass;
use qv_words::{Answer, Op, Word};

/// A line of a certificate.
#[derive(Debug, Drop)]
pub enum Line {
    /// The first line, with the certificate's version.
    Header { version: u64 },
    /// A section begins, of the `check-sat` of this number, counted from 1.
    Check { number: u64, answer: Answer },
    /// The node is the universal variable at the place.
    VarNode { node: u64, place: u64 },
    /// The node is the eigenvariable of the line.
    EigenNode { node: u64, line: u64 },
    /// The node is the literal of the word.
    LitNode { node: u64, word: Word },
    /// The node is the operator's application to the earlier nodes `kids`.
    OpNode { node: u64, op: Op, kids: Vec<u64> },
    /// The existential at the place has the node's term.
    Skolem { place: u64, node: u64 },
    /// The line is below its parent, and the universal there has the node's term.
    Instance { line: u64, parent: u64, node: u64 },
    /// The line is below its parent, and the existential there is the line's eigenvariable.
    Eigen { line: u64, parent: u64 },
    /// The pass rewrites the list of formulas.
    Rewrite { pass: Pass },
    /// The refutation follows.
    Lrat,
    /// A line of the refutation.
    Step(Step),
    /// The section ends.
    End,
}

/// The lines of a section, from its `check` line to its `end`.
#[derive(Debug, Drop)]
pub struct Section {
    pub lines: Vec<Line>,
}
