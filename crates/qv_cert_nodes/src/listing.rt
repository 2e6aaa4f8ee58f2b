//! One more line that lists.

ghost use Rattle.std.specs.Prelude.{◌≡◌, ◌<◌, ◌≤◌, ◌^◌, None, List, All, IfOk, OnOk, length};
ghost use Rattle.std.specs.Prelude.{unwrap_or, IsTrue, map};
ghost use Rattle.qv_words.specs.declared.sort.Sort.TheVariants.{Bool as BoolSort};
ghost use Rattle.qv_words.specs.Sort.{IsLawful};
ghost use Rattle.qv_words.specs.Word.{word_sort, word_value};
ghost use Rattle.qv_words.specs.Tree.{Tree, Variable, Literal, Apply, tree_sort};
ghost use Rattle.qv_words.specs.Expansion.{sort_at};
ghost use Rattle.qv_words.specs.Expansion.{Instance as InstanceOf, Eigen as EigenOf};
ghost use Rattle.qv_words.specs.Problem.{Problem as PlainProblem};
ghost use Rattle.qv_words.specs.Skolem.{SkolemTerm};
ghost use Rattle.qv_store.specs.Nodes.{tree_at, trees_at};
ghost use Rattle.qv_store.specs.Stores.{Grows, StandsAt};
ghost use Rattle.qv_store.specs.Problems.{problem_in, IsPosedIn};
ghost use Rattle.qv_cert.specs.LineView.{cert_line_of};
ghost use Rattle.qv_cert.specs.Listed.{listing, with_node, with_term, with_line, tree_of_node};
ghost use Rattle.qv_cert.specs.Listed.{trees_of_nodes, eigen_sort};
ghost use Rattle.qv_cert.specs.Faults.{first_fit, faults_of, has_rank};
ghost use Rattle.qv_cert_nodes.specs.Lists.{listed_in, reach_of, IsListed, HasTerms, IsNodeOf};
ghost use Rattle.qv_cert_nodes.specs.Lists.{IsLawfulPlace, IsEigenLine};
ghost use Rattle.qv_cert_nodes.specs.Lists.{depth_in, id_at, reach_of_nodes};
ghost use Rattle.qv_cert_nodes.specs.Pushing.{Lists};

use crate::listed::{Branch, Listed, Term};
use qv_cert::Line;
use qv_store::{Id, NoMemory, Node, Problem, Store};
use qv_words::{Op, Word};
use smallvec::SmallVec;

/// Lists what a line without faults lists. Where memory runs out the store may hold further terms.
pub fn list(
    listed: &mut Listed,
    store: &mut Store,
    problem: &Problem,
    line: &Line,
) -> Result<(), NoMemory>
    requires kept { IsListed store.old (problem_in store.old problem.now) listed.old }
    requires posed { IsPosedIn store.old problem.now }
    requires clean { first_fit (faults_of (problem_in store.old problem.now)
        (listed_in store.old listed.old) (cert_line_of line.now)) ≡ None }
    ensures lists { OnOk result (Lists store.new (problem_in store.old problem.now) listed.new
        (listing (problem_in store.old problem.now) (listed_in store.old listed.old)
        (cert_line_of line.now))) }
    ensures grows { Grows store.old store.new }
{
    let _nodes = store.len();
    match line {
        Line::VarNode { node: _, place } => list_variable(listed, store, problem, *place),
        Line::EigenNode { node: _, line } => list_eigen_node(listed, *line),
        Line::LitNode { node: _, word } => list_literal(listed, store, *word),
        Line::OpNode { node: _, op, kids } => list_operator(listed, store, *op, kids),
        Line::Skolem { place, node } => list_term(listed, *place, *node),
        Line::Instance {
            line: _,
            parent,
            node,
        } => list_instance(listed, *parent, *node),
        Line::Eigen { line: _, parent } => list_eigen(listed, store, problem, *parent),
        Line::Header { .. }
        | Line::Check { .. }
        | Line::Rewrite { .. }
        | Line::Lrat
        | Line::Step(_)
        | Line::End => Ok(()),
    }
}

// A universal's node.
fn list_variable(
    listed: &mut Listed,
    store: &mut Store,
    problem: &Problem,
    place: u64,
) -> Result<(), NoMemory>
    requires { IsLawfulPlace problem.now place }
    ensures lists { (p : PlainProblem) → IsListed store.old p listed.old →
        OnOk result (Lists store.new p listed.new
        (with_node (Variable place (sort_at (problem_in store.old problem.now) place))
        (listed_in store.old listed.old))) }
    ensures grows { Grows store.old store.new }
{
    let sort = problem.prefix[place as usize].sort;
    let id = store.put(Node::Var { level: place, sort })?;
    listed.push_node(id, place + 1)
}

// An eigenvariable's node.
fn list_eigen_node(listed: &mut Listed, line: u64) -> Result<(), NoMemory>
    requires { IsEigenLine listed.old line }
    ensures { (trees : List Tree) (p : PlainProblem) → IsListed trees p listed.old →
        OnOk result (Lists trees p listed.new
        (with_node (Variable line (unwrap_or (eigen_sort p (listed_in trees listed.old) line)
        BoolSort)) (listed_in trees listed.old))) }
{
    let id = listed.branches[line as usize - 1].id;
    listed.push_node(id, line + 1)
}

// A literal's node.
fn list_literal(listed: &mut Listed, store: &mut Store, word: Word) -> Result<(), NoMemory>
    ensures lists { (p : PlainProblem) → IsListed store.old p listed.old →
        OnOk result (Lists store.new p listed.new
        (with_node (Literal (word_sort word) (word_value word))
        (listed_in store.old listed.old))) }
    ensures grows { Grows store.old store.new }
{
    let id = store.put(Node::Lit { word })?;
    listed.push_node(id, 0)
}

// An operator's node.
fn list_operator(
    listed: &mut Listed,
    store: &mut Store,
    op: Op,
    kids: &[u64],
) -> Result<(), NoMemory>
    requires terms { HasTerms store.old listed.old }
    requires beside { length listed.old.reaches.items ≡ length listed.old.nodes.items }
    requires there { All (IsNodeOf listed.old) kids.now }
    requires rank { IsTrue (has_rank (Apply op (trees_of_nodes
        (listed_in store.old listed.old) kids.now))) }
    ensures lists { (p : PlainProblem) → IsListed store.old p listed.old →
        OnOk result (Lists store.new p listed.new
        (with_node (Apply op (trees_of_nodes (listed_in store.old listed.old) kids.now))
        (listed_in store.old listed.old))) }
    ensures grows { Grows store.old store.new }
{
    let _nodes = store.len();
    let reach = reach_of_nodes(listed, kids);
    let kids = ids_of_nodes(listed, kids)?;
    let id = store.put(Node::App { op, kids })?;
    listed.push_node(id, reach)
}

// The terms of nodes.
fn ids_of_nodes(listed: &Listed, nodes: &[u64]) -> Result<SmallVec<Id, 3>, NoMemory>
    requires { All (IsNodeOf listed.now) nodes.now }
    ensures { IfOk result (λ ids. ids.items ≡ map (id_at listed.now) nodes.now) }
{
    let mut ids = SmallVec::new(*listed.nodes.allocator());
    'nodes: for node in nodes {
        ids.push(listed.node(*node))?;
    }
    Ok(ids)
}

// The greatest reach of these nodes.
fn reach_of_nodes(listed: &Listed, nodes: &[u64]) -> u64
    requires beside { length listed.now.reaches.items ≡ length listed.now.nodes.items }
    requires there { All (IsNodeOf listed.now) nodes.now }
    ensures { result ≡ reach_of_nodes listed.now nodes.now }
{
    let mut greatest = 0;
    'nodes: for node in nodes {
        let reach = listed.reach(*node);
        if greatest < reach {
            greatest = reach;
        }
    }
    greatest
}

// A place's term.
fn list_term(listed: &mut Listed, place: u64, node: u64) -> Result<(), NoMemory>
    requires place { place < 2 ^ 63 }
    requires node { IsNodeOf listed.old node }
    ensures { (trees : List Tree) (p : PlainProblem) → IsListed trees p listed.old →
        OnOk result (Lists trees p listed.new (with_term
        (record { place = place; term = tree_of_node (listed_in trees listed.old) node })
        (listed_in trees listed.old))) }
{
    let id = listed.node(node);
    listed.push_term(Term { place, id })
}

// An instance.
fn list_instance(listed: &mut Listed, parent: u64, node: u64) -> Result<(), NoMemory>
    requires node { IsNodeOf listed.old node }
    requires parent { parent ≤ length listed.old.branches.items }
    requires depth { depth_in listed.old parent < 2 ^ 63 }
    ensures { (trees : List Tree) (p : PlainProblem) → IsListed trees p listed.old →
        OnOk result (Lists trees p listed.new (with_line
        (InstanceOf parent (tree_of_node (listed_in trees listed.old) node))
        (listed_in trees listed.old))) }
{
    let id = listed.node(node);
    let depth = listed.depth(parent) + 1;
    listed.push_branch(Branch {
        parent,
        id,
        depth,
        is_eigen: false,
    })
}

// An eigenvariable's line.
fn list_eigen(
    listed: &mut Listed,
    store: &mut Store,
    problem: &Problem,
    parent: u64,
) -> Result<(), NoMemory>
    requires parent { parent ≤ length listed.old.branches.items }
    requires place { IsLawfulPlace problem.now (depth_in listed.old parent) }
    ensures lists { IsListed store.old (problem_in store.old problem.now) listed.old →
        OnOk result (Lists store.new (problem_in store.old problem.now) listed.new (with_line
        (EigenOf parent) (listed_in store.old listed.old))) }
    ensures grows { Grows store.old store.new }
{
    let depth = listed.depth(parent);
    let sort = problem.prefix[depth as usize].sort;
    let line = listed.branches.len() as u64 + 1;
    let id = store.put(Node::Var { level: line, sort })?;
    listed.push_branch(Branch {
        parent,
        id,
        depth: depth + 1,
        is_eigen: true,
    })
}
