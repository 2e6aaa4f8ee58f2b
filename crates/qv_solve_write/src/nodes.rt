//! The lines of a walk's nodes.

ghost use Rattle.std.specs.Prelude.{◌≡◌, ◌<◌, All, Contains, IfOk, length, slice_index, take};
ghost use Rattle.std.specs.List.{AllZip};
ghost use Rattle.qv_store.specs.Nodes.{tree_at};
ghost use Rattle.qv_store.specs.Walks.{IsWalk, named};
ghost use Rattle.qv_cert.specs.Line.{IsCertLine, IsNumber, OperatorNode};
ghost use Rattle.qv_cert.specs.LineView.{cert_line_of};
ghost use Rattle.qv_solve_write_laws.specs.Writing.{node_line, number_of, variable_line};
ghost use Rattle.qv_solve_write.specs.Places.{IsNumbered};
ghost use Rattle.qv_solve_write.specs.Ranges.{IsInRange};

use qv_cert::Line;
use qv_store::{Id, NoMemory, Node, Store, Walk};
use qv_words::{Answer, Op};
use std::alloc::Global;

// The line of the node at a place of a walk.
pub(crate) fn node_line(
    alloc: Global,
    store: &Store,
    walk: &Walk,
    answer: Answer,
    place: usize,
) -> Result<Line, NoMemory>
    requires walk { IsWalk store.now walk.now }
    requires place { place < length walk.now }
    requires range { IsInRange (tree_at store.now (slice_index walk.now place)) }
    ensures line { IfOk result (λ line. cert_line_of line ≡ node_line answer
        (take place (named store.now walk.now)) (tree_at store.now (slice_index walk.now place))) }
    ensures form { IfOk result (λ line. IsCertLine (cert_line_of line)) }
{
    let id = walk.ids()[place];
    let node = number_of(store, walk, id);
    match store.node(id) {
        Node::Var { level, .. } => Ok(variable_line(answer, node, *level)),
        Node::Lit { word } => Ok(Line::LitNode { node, word: *word }),
        Node::App { op, kids } => {
            let kids = numbers_of(alloc, store, walk, kids.as_slice())?;
            Ok(operator_line(node, *op, kids))
        }
        // A term of a section has no others.
        Node::Const { .. } | Node::All { .. } | Node::Ex { .. } => Ok(Line::End),
    }
}

// The line of a variable's node.
fn variable_line(answer: Answer, node: u64, level: u64) -> Line
    requires node { IsNumber node }
    requires level { IsNumber level }
    ensures line { cert_line_of result ≡ variable_line answer node level }
    ensures form { IsCertLine (cert_line_of result) }
{
    match answer {
        Answer::Sat => Line::VarNode { node, place: level },
        Answer::Unsat => Line::EigenNode { node, line: level },
        Answer::Unknown => Line::End,
    }
}

// The line of an operator's node.
fn operator_line(node: u64, op: Op, kids: Vec<u64>) -> Line
    requires node { IsNumber node }
    requires kids { All IsNumber kids.items }
    ensures line { cert_line_of result ≡ OperatorNode node op kids.items }
    ensures form { IsCertLine (cert_line_of result) }
{
    Line::OpNode { node, op, kids }
}

// The number of a walk's node: it is one more than its place.
pub(crate) fn number_of(store: &Store, walk: &Walk, id: Id) -> u64
    requires walk { IsWalk store.now walk.now }
    requires has { Contains walk.now id }
    ensures numbered { IsNumbered walk.now id result }
    ensures number { result ≡ number_of (named store.now walk.now) (tree_at store.now id) }
{
    let _nodes = store.len();
    walk.position(id) as u64 + 1
}

// The numbers of nodes.
fn numbers_of(alloc: Global, store: &Store, walk: &Walk, ids: &[Id]) -> Result<Vec<u64>, NoMemory>
    requires walk { IsWalk store.now walk.now }
    requires has { All (Contains walk.now) ids.now }
    ensures { IfOk result (λ numbers. AllZip (IsNumbered walk.now) ids.now numbers.items) }
{
    let mut numbers = Vec::with_capacity(alloc, ids.len())?;
    'numbered: for id in ids {
        numbers.push(number_of(store, walk, *id))?;
    }
    Ok(numbers)
}
