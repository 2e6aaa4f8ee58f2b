//! What is kept beside each node, so that it is known in constant time.

ghost use Rattle.std.specs.Prelude.{◌≡◌, ◌<◌, ◌≤◌, ◌+◌, ◌^◌, false, length, All, Some, IsSome};
ghost use Rattle.std.specs.Prelude.{unwrap_or};
ghost use Rattle.std.specs.List.{list_any};
ghost use Rattle.qv_words.specs.Rank.{result_sort};
ghost use Rattle.qv_store.specs.Nodes.{HasChildrenBelow, children};
ghost use Rattle.qv_store.specs.Facts.{facts_at, sorts_at, deepest, sort_over, is_quantified_over};

use crate::id::Id;
use crate::node::Node;
use qv_words::{Op, Sort, result_sort};

// Facts of a term.
#[derive(Clone, Copy, Debug)]
pub(crate) struct Facts {
    // 1 of a leaf, and otherwise one more than that of the deepest child. It stands first, so that
    // the facts of a node take 8 bytes.
    pub(crate) depth: u32,
    pub(crate) sort: Sort,
    // Whether a quantifier stands in it.
    pub(crate) quantified: bool,
}

impl Facts {
    // Those of a node, over those of the terms before it.
    pub(crate) fn of(node: &Node, before: &[Facts]) -> Facts
        requires children { HasChildrenBelow (length before.now) node.now }
        requires sorted { IsSome (sort_over before.now node.now) }
        requires shallow { deepest before.now (children node.now) + 1 < 2 ^ 32 }
        ensures sort { sort_over before.now node.now ≡ Some result.sort }
        ensures depth { result.depth ≡ deepest before.now (children node.now) + 1 }
        ensures quantified { result.quantified ≡ is_quantified_over before.now node.now }
    {
        match node {
            Node::Const { sort, .. } | Node::Var { sort, .. } => Facts::leaf(*sort),
            Node::Lit { word } => Facts::leaf(word.sort()),
            Node::App { op, kids } => Facts {
                sort: application_sort(*op, kids.as_slice(), before).unwrap_or(Sort::Bool),
                depth: deepest(kids.as_slice(), before) + 1,
                quantified: some_quantified(kids.as_slice(), before),
            },
            Node::All { body, .. } | Node::Ex { body, .. } => Facts {
                sort: Sort::Bool,
                depth: before[body.place()].depth + 1,
                quantified: true,
            },
        }
    }

    fn leaf(sort: Sort) -> Facts
        ensures sort { result.sort ≡ sort }
        ensures depth { result.depth ≡ 1 }
        ensures quantified { result.quantified ≡ false }
    {
        Facts {
            sort,
            depth: 1,
            quantified: false,
        }
    }
}

// The sort of an operator's application, if it has one.
fn application_sort(op: Op, kids: &[Id], before: &[Facts]) -> Option<Sort>
    requires { All (λ kid. kid < length before.now) kids.now }
    ensures { result ≡ result_sort op (sorts_at before.now kids.now) }
{
    let sort = |kid: &Id| before[kid.place()].sort;
    match kids {
        [] => result_sort(op, &[]),
        [a] => result_sort(op, &[sort(a)]),
        [a, b] => result_sort(op, &[sort(a), sort(b)]),
        [a, b, c] => result_sort(op, &[sort(a), sort(b), sort(c)]),
        [_, _, _, _, ..] => None,
    }
}

// The depth of the deepest of these terms.
fn deepest(kids: &[Id], before: &[Facts]) -> u32
    requires { All (λ kid. kid < length before.now) kids.now }
    ensures { result ≡ deepest before.now kids.now }
{
    let mut depth = 0;
    'kids: for kid in kids {
        let other = before[kid.place()].depth;
        if depth < other {
            depth = other;
        }
    }
    depth
}

// Whether a quantifier stands in one of these terms.
fn some_quantified(kids: &[Id], before: &[Facts]) -> bool
    requires { All (λ kid. kid < length before.now) kids.now }
    ensures { result ≡ list_any (λ kid. (facts_at before.now kid).quantified) kids.now }
{
    kids.iter().any(|kid| before[kid.place()].quantified)
}
