//! The first fault of a line that lists.

ghost use Rattle.std.specs.Prelude.{◌≡◌, ℕ, Some, List, All, IsTrue};
ghost use Rattle.std.specs.List.{list_all};
ghost use Rattle.qv_words.specs.Tree.{Tree, Apply, tree_sort};
ghost use Rattle.qv_words.specs.Problem.{Problem as PlainProblem};
ghost use Rattle.qv_store.specs.Problems.{problem_in};
ghost use Rattle.qv_cert.specs.Line.{VariableNode, EigenNode, LiteralNode, OperatorNode, Skolem};
ghost use Rattle.qv_cert.specs.Line.{Instance, Eigen};
ghost use Rattle.qv_cert.specs.LineView.{cert_line_of};
ghost use Rattle.qv_cert.specs.Listed.{tree_of_node, trees_of_nodes};
ghost use Rattle.qv_cert.specs.Faults.{first_fit, faults_of, is_parent, has_rank};
ghost use Rattle.qv_cert_nodes.specs.Lists.{listed_in, IsListed, HasTerms, IsNodeOf};
ghost use Rattle.qv_cert_nodes.specs.Lists.{has_number};

use crate::listed::Listed;
use crate::places::{has_sort, is_existential, is_universal};
use qv_cert::{Line, RefusalKind};
use qv_store::{Problem, Store};
use qv_words::{Op, Sort, result_sort};

/// The first kind of refusal that fits a line that lists, if one does. Other lines have none.
pub fn fault_of(
    listed: &Listed,
    store: &Store,
    problem: &Problem,
    line: &Line,
) -> Option<RefusalKind>
    requires { IsListed store.now (problem_in store.now problem.now) listed.now }
    ensures { result ≡ first_fit (faults_of (problem_in store.now problem.now)
        (listed_in store.now listed.now) (cert_line_of line.now)) }
{
    match line {
        Line::VarNode { node, place } => variable_fault(listed, problem, *node, *place),
        Line::EigenNode { node, line } => eigen_node_fault(listed, *node, *line),
        Line::LitNode { node, word: _ } => literal_fault(listed, *node),
        Line::OpNode { node, op, kids } => operator_fault(listed, store, *node, *op, kids),
        Line::Skolem { place, node } => term_fault(listed, store, problem, *place, *node),
        Line::Instance { line, parent, node } => {
            instance_fault(listed, store, problem, *line, *parent, *node)
        }
        Line::Eigen { line, parent } => eigen_fault(listed, problem, *line, *parent),
        Line::Header { .. }
        | Line::Check { .. }
        | Line::Rewrite { .. }
        | Line::Lrat
        | Line::Step(_)
        | Line::End => None,
    }
}

// Of a universal's node.
fn variable_fault(listed: &Listed, problem: &Problem, node: u64, place: u64) -> Option<RefusalKind>
    ensures { (trees : List Tree) → result ≡ first_fit (faults_of
        (problem_in trees problem.now) (listed_in trees listed.now) (VariableNode node place)) }
{
    if !listed.is_next_node(node) {
        return Some(RefusalKind::Order);
    }
    if !is_universal(problem, place) {
        return Some(RefusalKind::Place);
    }
    None
}

// Of an eigenvariable's node.
fn eigen_node_fault(listed: &Listed, node: u64, line: u64) -> Option<RefusalKind>
    ensures { (trees : List Tree) (p : PlainProblem) → IsListed trees p listed.now →
        result ≡ first_fit (faults_of p (listed_in trees listed.now) (EigenNode node line)) }
{
    if !listed.is_next_node(node) {
        return Some(RefusalKind::Order);
    }
    if !listed.has_eigen(line) {
        return Some(RefusalKind::Eigenvariable);
    }
    None
}

// Of a literal's node.
fn literal_fault(listed: &Listed, node: u64) -> Option<RefusalKind>
    ensures { (trees : List Tree) (p : PlainProblem) (s : Sort) (value : ℕ) →
        result ≡ first_fit (faults_of p (listed_in trees listed.now) (LiteralNode node s value)) }
{
    if !listed.is_next_node(node) {
        return Some(RefusalKind::Order);
    }
    None
}

// Of an operator's node.
fn operator_fault(
    listed: &Listed,
    store: &Store,
    node: u64,
    op: Op,
    kids: &[u64],
) -> Option<RefusalKind>
    requires { HasTerms store.now listed.now }
    ensures { (p : PlainProblem) → result ≡ first_fit (faults_of p
        (listed_in store.now listed.now) (OperatorNode node op kids.now)) }
{
    if !listed.is_next_node(node) {
        return Some(RefusalKind::Order);
    }
    if !has_nodes(listed, kids) {
        return Some(RefusalKind::Node);
    }
    if !has_rank(listed, store, op, kids) {
        return Some(RefusalKind::Rank);
    }
    None
}

// Whether each of these numbers is a node's.
fn has_nodes(listed: &Listed, nodes: &[u64]) -> bool
    ensures there { IsTrue result → All (IsNodeOf listed.now) nodes.now }
    ensures nodes { result ≡ list_all (has_number listed.now) nodes.now }
{
    nodes.iter().all(|node| listed.has_node(*node))
}

// Whether these nodes have a rank for the operator.
fn has_rank(listed: &Listed, store: &Store, op: Op, kids: &[u64]) -> bool
    requires listed { HasTerms store.now listed.now }
    requires there { All (IsNodeOf listed.now) kids.now }
    ensures { result ≡ has_rank (Apply op (trees_of_nodes (listed_in store.now listed.now)
        kids.now)) }
{
    match kids {
        [] => result_sort(op, &[]).is_some(),
        [a] => result_sort(op, &[sort_of(listed, store, *a)]).is_some(),
        [a, b] => {
            let sorts = [sort_of(listed, store, *a), sort_of(listed, store, *b)];
            result_sort(op, &sorts).is_some()
        }
        [a, b, c] => {
            let sorts = [
                sort_of(listed, store, *a),
                sort_of(listed, store, *b),
                sort_of(listed, store, *c),
            ];
            result_sort(op, &sorts).is_some()
        }
        [_, _, _, _, ..] => false,
    }
}

// The sort of a node.
fn sort_of(listed: &Listed, store: &Store, node: u64) -> Sort
    requires listed { HasTerms store.now listed.now }
    requires there { IsNodeOf listed.now node }
    ensures { tree_sort (tree_of_node (listed_in store.now listed.now) node) ≡ Some result }
{
    store.sort(listed.node(node))
}

// Of a place's term.
fn term_fault(
    listed: &Listed,
    store: &Store,
    problem: &Problem,
    place: u64,
    node: u64,
) -> Option<RefusalKind>
    requires { IsListed store.now (problem_in store.now problem.now) listed.now }
    ensures { result ≡ first_fit (faults_of (problem_in store.now problem.now)
        (listed_in store.now listed.now) (Skolem place node)) }
{
    if !listed.has_node(node) {
        return Some(RefusalKind::Node);
    }
    if !is_existential(problem, place) {
        return Some(RefusalKind::Place);
    }
    if listed.has_term(place) {
        return Some(RefusalKind::Repeated);
    }
    if !has_sort(problem, place, sort_of(listed, store, node)) {
        return Some(RefusalKind::Sort);
    }
    if listed.reach(node) > place {
        return Some(RefusalKind::Dependence);
    }
    None
}

// Of an instance.
fn instance_fault(
    listed: &Listed,
    store: &Store,
    problem: &Problem,
    line: u64,
    parent: u64,
    node: u64,
) -> Option<RefusalKind>
    requires { IsListed store.now (problem_in store.now problem.now) listed.now }
    ensures { result ≡ first_fit (faults_of (problem_in store.now problem.now)
        (listed_in store.now listed.now) (Instance line parent node)) }
{
    if !listed.is_next_line(line) {
        return Some(RefusalKind::Order);
    }
    if !listed.has_node(node) {
        return Some(RefusalKind::Node);
    }
    if !is_parent(listed, problem, parent) {
        return Some(RefusalKind::Parent);
    }
    let depth = listed.depth(parent);
    if !is_universal(problem, depth) {
        return Some(RefusalKind::Quantifier);
    }
    if !has_sort(problem, depth, sort_of(listed, store, node)) {
        return Some(RefusalKind::Sort);
    }
    None
}

// Of an eigenvariable's line.
fn eigen_fault(listed: &Listed, problem: &Problem, line: u64, parent: u64) -> Option<RefusalKind>
    ensures { (trees : List Tree) →
        IsListed trees (problem_in trees problem.now) listed.now →
        result ≡ first_fit (faults_of (problem_in trees problem.now)
        (listed_in trees listed.now) (Eigen line parent)) }
{
    if !listed.is_next_line(line) {
        return Some(RefusalKind::Order);
    }
    if !is_parent(listed, problem, parent) {
        return Some(RefusalKind::Parent);
    }
    if !is_existential(problem, listed.depth(parent)) {
        return Some(RefusalKind::Quantifier);
    }
    None
}

// Whether a line may stand below this one.
fn is_parent(listed: &Listed, problem: &Problem, parent: u64) -> bool
    ensures { (trees : List Tree) →
        IsListed trees (problem_in trees problem.now) listed.now → result ≡ is_parent
        (problem_in trees problem.now) (listed_in trees listed.now) parent }
{
    listed.is_line(parent) && listed.depth(parent) != problem.prefix.len() as u64
}
