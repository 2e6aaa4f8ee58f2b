//! The two sides of a conjunction, or of a disjunction.

ghost use Rattle.std.specs.Prelude.{◌≡◌, ◌<◌, true, false, length};
ghost use Rattle.qv_store.specs.Nodes.{tree_at};
ghost use Rattle.qv_choose_clauses.specs.Sides.{connects, AreSidesOf, AreKidsOf};

use qv_store::{Id, Node, Store};
use qv_words::Op;

// What a term joins, by `and` or else by `or`.
pub(crate) fn sides_of(store: &Store, id: Id, both: bool) -> Option<(Id, Id)>
    requires { id < length store.now }
    ensures { AreSidesOf both store.now id result }
{
    match store.node(id) {
        Node::App { op, kids } => two_of(*op, kids.as_slice(), both),
        _ => None,
    }
}

// The arguments of a connective.
fn two_of(op: Op, kids: &[Id], both: bool) -> Option<(Id, Id)>
    ensures { AreKidsOf both op kids.now result }
{
    match kids {
        [] => None,
        [_] => None,
        [a, b] => {
            if connects(op, both) {
                Some((*a, *b))
            } else {
                None
            }
        }
        [_, _, _, ..] => None,
    }
}

fn connects(op: Op, both: bool) -> bool
    ensures { result ≡ connects both op }
{
    if both { is_and(op) } else { is_or(op) }
}

fn is_and(op: Op) -> bool
    ensures { result ≡ connects true op }
{
    match op {
        Op::And => true,
        _ => false,
    }
}

fn is_or(op: Op) -> bool
    ensures { result ≡ connects false op }
{
    match op {
        Op::Or => true,
        _ => false,
    }
}
