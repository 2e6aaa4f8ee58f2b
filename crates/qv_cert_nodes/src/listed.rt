//! What the lines of a section listed.

ghost use Rattle.std.specs.Prelude.{◌≡◌, ◌==◌, ◌||◌, ◌^◌, suc, ◌<◌, ℕ, List, IsTrue, OnOk};
ghost use Rattle.std.specs.Prelude.{length};
ghost use Rattle.std.specs.Prelude.{is_some};
ghost use Rattle.qv_words.specs.Tree.{Tree};
ghost use Rattle.qv_words.specs.Problem.{Problem};
ghost use Rattle.std.specs.List.{list_any};
ghost use Rattle.qv_store.specs.Nodes.{tree_at};
ghost use Rattle.qv_cert.specs.Listed.{nothing, tree_of_node, grown_line, eigen_sort};
ghost use Rattle.qv_cert.specs.Faults.{depth_of};
ghost use Rattle.qv_cert_nodes.specs.Lists.{mark_at};

use qv_store::{Id, NoMemory};
use std::alloc::Global;

/// The term of a place.
#[derive(Clone, Copy, Debug)]
pub struct Term {
    pub place: u64,
    pub id: Id,
}

/// A line of an expansion list: what stands for the place below its parent, which is a line's number
/// or 0 for the root.
#[derive(Clone, Copy, Debug)]
pub struct Branch {
    pub parent: u64,
    pub id: Id,
    /// How many places have something on its path.
    pub depth: u64,
    /// Whether it is the line's own variable.
    pub is_eigen: bool,
}

/// Nodes, and the terms of places or the lines of an expansion list.
#[derive(Debug, Drop)]
pub struct Listed {
    pub(crate) nodes: Vec<Id>,
    // Of each node, one more than the greatest level of its variables, or 0.
    pub(crate) reaches: Vec<u64>,
    pub(crate) terms: Vec<Term>,
    // Of each place up to the greatest that has a term, whether it has one.
    pub(crate) marks: Vec<bool>,
    pub(crate) branches: Vec<Branch>,
}

impl Listed {
    ghost use Rattle.std.specs.Option.{option_copied};
    ghost use Rattle.qv_cert_nodes.specs.Lists.{listed_in, reach_of, branch_numbered, IsListed};
    ghost use Rattle.qv_cert_nodes.specs.Lists.{HasTerms, IsNodeOf, depth_in};
    ghost use Rattle.qv_cert_nodes.specs.Lists.{id_at, reach_at, has_number, MarksTerms};
    ghost use Rattle.qv_cert_nodes.specs.Pushing.{HasNode, HasTerm, HasBranch};

    /// Nothing is listed.
    pub fn new(alloc: Global) -> Listed
        ensures nothing { (trees : List Tree) → listed_in trees result ≡ nothing }
        ensures kept { (trees : List Tree) (p : Problem) → IsListed trees p result }
    {
        Listed {
            nodes: Vec::new(alloc),
            reaches: Vec::new(alloc),
            terms: Vec::new(alloc),
            marks: Vec::new(alloc),
            branches: Vec::new(alloc),
        }
    }

    /// Whether the next node has this number.
    pub fn is_next_node(&self, node: u64) -> bool
        ensures { (trees : List Tree) →
            result ≡ (node == suc (length (listed_in trees self.now).nodes)) }
    {
        node == self.nodes.len() as u64 + 1
    }

    /// Whether the next line has this number.
    pub fn is_next_line(&self, line: u64) -> bool
        ensures { (trees : List Tree) →
            result ≡ (line == suc (length (listed_in trees self.now).lines)) }
    {
        line == self.branches.len() as u64 + 1
    }

    /// Whether there is a node of this number.
    pub fn has_node(&self, node: u64) -> bool
        ensures there { IsTrue result → IsNodeOf self.now node }
        ensures node { result ≡ has_number self.now node }
    {
        node > 0 && node <= self.nodes.len() as u64
    }

    /// The term of a node.
    pub fn node(&self, node: u64) -> Id
        requires { IsNodeOf self.now node }
        ensures id { result ≡ id_at self.now node }
        ensures tree { (trees : List Tree) → tree_at trees result
            ≡ tree_of_node (listed_in trees self.now) node }
        ensures below { (trees : List Tree) → HasTerms trees self.now → result < length trees }
    {
        self.nodes[node as usize - 1]
    }

    /// One more than the greatest level of a node's variables, or 0.
    pub fn reach(&self, node: u64) -> u64
        requires there { IsNodeOf self.now node }
        requires beside { length self.now.reaches.items ≡ length self.now.nodes.items }
        ensures beside { result ≡ reach_at self.now node }
        ensures reach { (trees : List Tree) (p : Problem) → IsListed trees p self.now →
            result ≡ reach_of (tree_of_node (listed_in trees self.now) node) }
    {
        self.reaches[node as usize - 1]
    }

    /// Whether there is a line of this number, or it is the root's.
    pub fn is_line(&self, line: u64) -> bool
        ensures { (trees : List Tree) (p : Problem) →
            result ≡ is_some (grown_line p (listed_in trees self.now) line) }
    {
        line <= self.branches.len() as u64
    }

    // What is kept of a line.
    pub(crate) fn branch(&self, line: u64) -> Option<&Branch>
        ensures { option_copied result ≡ branch_numbered self.now line }
    {
        if line == 0 {
            return None;
        }
        self.branches.get(line as usize - 1)
    }

    /// How deep a line is.
    pub fn depth(&self, line: u64) -> u64
        ensures kept { result ≡ depth_in self.now line }
        ensures depth { (trees : List Tree) (p : Problem) → IsListed trees p self.now →
            result ≡ depth_of p (listed_in trees self.now) line }
    {
        match self.branch(line) {
            Some(branch) => branch.depth,
            None => 0,
        }
    }

    /// Whether a line has an eigenvariable.
    pub fn has_eigen(&self, line: u64) -> bool
        ensures { (trees : List Tree) (p : Problem) → IsListed trees p self.now →
            result ≡ is_some (eigen_sort p (listed_in trees self.now) line) }
    {
        match self.branch(line) {
            Some(branch) => branch.is_eigen,
            None => false,
        }
    }

    /// Whether a place has a term.
    pub fn has_term(&self, place: u64) -> bool
        requires { MarksTerms self.now }
        ensures { result ≡ list_any (λ t. t.place == place) self.now.terms.items }
    {
        match self.marks.get(place as usize) {
            Some(marked) => *marked,
            None => false,
        }
    }

    /// The terms of places, in the order of their lines.
    pub fn terms(&self) -> &[Term]
        ensures { result.now ≡ self.now.terms.items }
    {
        &self.terms
    }

    /// The lines of an expansion list, from the first one on.
    pub fn branches(&self) -> &[Branch]
        ensures { result.now ≡ self.now.branches.items }
    {
        &self.branches
    }

    // One more node.
    pub(crate) fn push_node(&mut self, id: Id, reach: u64) -> Result<(), NoMemory>
        ensures { OnOk result (HasNode self.old self.new id reach) }
    {
        self.nodes.reserve(1)?;
        self.reaches.push(reach)?;
        self.nodes.push_reserved(id);
        Ok(())
    }

    // One more term.
    pub(crate) fn push_term(&mut self, term: Term) -> Result<(), NoMemory>
        requires { term.place < 2 ^ 63 }
        ensures { OnOk result (HasTerm self.old self.new term) }
    {
        self.terms.reserve(1)?;
        mark(&mut self.marks, term.place as usize)?;
        self.terms.push_reserved(term);
        Ok(())
    }

    // One more line.
    pub(crate) fn push_branch(&mut self, branch: Branch) -> Result<(), NoMemory>
        ensures { OnOk result (HasBranch self.old self.new branch) }
    {
        self.branches.push(branch)?;
        Ok(())
    }
}

// Marks a place. Those that come with it are not marked.
fn mark(marks: &mut Vec<bool>, place: usize) -> Result<(), NoMemory>
    requires { place < 2 ^ 63 }
    ensures { OnOk result ((other : ℕ) →
        mark_at marks.new.items other ≡ (mark_at marks.old.items other || place == other)) }
{
    if place >= marks.len() {
        marks.resize(place + 1, false)?;
    }
    marks[place] = true;
    Ok(())
}
