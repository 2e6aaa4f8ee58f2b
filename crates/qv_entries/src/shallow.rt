//! What shallow terms mean at a point, found without a walk: equations of bits of places.

ghost use Rattle.std.specs.Prelude.{◌<◌, [], All, IfSome, length};
ghost use Rattle.qv_words.specs.Sorted.{IsSorted};
ghost use Rattle.qv_words.specs.Tree.{Apply};
ghost use Rattle.qv_store.specs.Evaluating.{HasValue, IsWordOf};
ghost use Rattle.qv_store.specs.Nodes.{tree_at, trees_at};

use qv_store::{Id, Node, Store};
use qv_words::{Op, Word, apply};

// The word of an operator with two arguments that are bits of places, places or literals; none for
// other terms.
pub(crate) fn equation_word(store: &Store, id: Id, point: &[Word]) -> Option<Word>
    requires id { id < length store.now }
    requires value { HasValue [] point.now (tree_at store.now id) }
    ensures { IfSome result (λ word. IsWordOf [] point.now (tree_at store.now id) word) }
{
    match store.node(id) {
        Node::App { op, kids } => word_of_two(store, *op, kids.as_slice(), point),
        _ => None,
    }
}

// The same of its operator and its arguments.
fn word_of_two(store: &Store, op: Op, kids: &[Id], point: &[Word]) -> Option<Word>
    requires kids { All (λ kid. kid < length store.now) kids.now }
    requires sorted { IsSorted (Apply op (trees_at store.now kids.now)) }
    requires value { HasValue [] point.now (Apply op (trees_at store.now kids.now)) }
    ensures { IfSome result (λ word.
        IsWordOf [] point.now (Apply op (trees_at store.now kids.now)) word) }
{
    match kids {
        [a, b] => {
            let first = part_word(store, *a, point)?;
            let second = part_word(store, *b, point)?;
            Some(apply(op, &[first, second]))
        }
        _ => None,
    }
}

// The word of an operator with one argument that is a place or a literal, or of such a one.
fn part_word(store: &Store, id: Id, point: &[Word]) -> Option<Word>
    requires id { id < length store.now }
    requires value { HasValue [] point.now (tree_at store.now id) }
    ensures { IfSome result (λ word. IsWordOf [] point.now (tree_at store.now id) word) }
{
    match store.node(id) {
        Node::App { op, kids } => word_of_one(store, *op, kids.as_slice(), point),
        _ => leaf_word(store, id, point),
    }
}

// The same of its operator and its argument.
fn word_of_one(store: &Store, op: Op, kids: &[Id], point: &[Word]) -> Option<Word>
    requires kids { All (λ kid. kid < length store.now) kids.now }
    requires sorted { IsSorted (Apply op (trees_at store.now kids.now)) }
    requires value { HasValue [] point.now (Apply op (trees_at store.now kids.now)) }
    ensures { IfSome result (λ word.
        IsWordOf [] point.now (Apply op (trees_at store.now kids.now)) word) }
{
    match kids {
        [kid] => {
            let word = leaf_word(store, *kid, point)?;
            Some(apply(op, &[word]))
        }
        _ => None,
    }
}

// The word of a place or a literal.
fn leaf_word(store: &Store, id: Id, point: &[Word]) -> Option<Word>
    requires id { id < length store.now }
    requires value { HasValue [] point.now (tree_at store.now id) }
    ensures { IfSome result (λ word. IsWordOf [] point.now (tree_at store.now id) word) }
{
    match store.node(id) {
        Node::Var { level, .. } => Some(point[*level as usize]),
        Node::Lit { word } => Some(*word),
        _ => None,
    }
}
