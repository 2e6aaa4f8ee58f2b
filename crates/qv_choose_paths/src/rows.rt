//! The rows of inverse terms: which there are, and what they give.

ghost use Rattle.std.specs.Prelude.{◌≡◌, ◌<◌, IfOk, OnOk, Some, length, option_map};
ghost use Rattle.qv_words.specs.Tree.{tree_sort};
ghost use Rattle.qv_words.specs.Sorted.{IsSorted};
ghost use Rattle.qv_words.specs.Word.{word_sort, word_value};
ghost use Rattle.qv_words.specs.Choice.{literal_value, put_in_row};
ghost use Rattle.qv_words.specs.InverseLaws.{has_row, IsOver};
ghost use Rattle.qv_terms.specs.View.{tree};
ghost use Rattle.qv_store.specs.Nodes.{tree_at};
ghost use Rattle.qv_store.specs.Stores.{StandsAt, AreShared, Grows};
ghost use Rattle.qv_choose_paths.specs.Rows.{uses_other, sort_at, IsRowWord};

use qv_store::{Id, NoMemory, Node, Store};
use qv_terms::{Term, Values, eval};
use qv_trees::plant;
use qv_words::{Op, Word};
use std::alloc::Global;

// Whether the operator has a row for an argument, by the other one, where that is a literal.
pub(crate) fn has_row(op: Op, other: Option<Word>) -> bool
    ensures { result ≡ has_row op (option_map word_value other) }
{
    match op {
        Op::BvMul => match other {
            Some(word) => word.value() != 0,
            None => false,
        },
        Op::BvNot
        | Op::BvNeg
        | Op::BvAnd
        | Op::BvOr
        | Op::BvXor
        | Op::BvNand
        | Op::BvNor
        | Op::BvXnor
        | Op::BvAdd
        | Op::BvSub
        | Op::BvUdiv
        | Op::BvUrem
        | Op::BvShl
        | Op::BvLshr
        | Op::BvAshr
        | Op::Concat
        | Op::Extract(_, _)
        | Op::Repeat(_)
        | Op::ZeroExtend(_)
        | Op::SignExtend(_)
        | Op::RotateLeft(_)
        | Op::RotateRight(_) => true,
        _ => false,
    }
}

// Whether the other argument stands in the row for the argument at this position.
pub(crate) fn uses_other(op: Op, position: usize) -> bool
    ensures { result ≡ uses_other op position }
{
    match op {
        Op::BvXor
        | Op::BvXnor
        | Op::BvAdd
        | Op::BvSub
        | Op::BvUdiv
        | Op::BvShl
        | Op::BvLshr
        | Op::BvAshr => true,
        Op::BvUrem => position != 0,
        _ => false,
    }
}

// A term's value where it is a literal.
pub(crate) fn literal(store: &Store, id: Id) -> Option<Word>
    requires { id < length store.now }
    ensures { option_map word_value result ≡ literal_value (tree_at store.now id) }
{
    match store.node(id) {
        Node::Lit { word } => Some(*word),
        _ => None,
    }
}

/// What a row gives at the words of the other argument and of the target.
pub fn row_word(alloc: Global, row: &Term, other: Word, target: Word) -> Result<Word, NoMemory>
    requires sorted { IsSorted (tree row.now) }
    requires over { IsOver (word_sort other) (word_sort target) (tree row.now) }
    ensures sort { IfOk result (λ word. tree_sort (tree row.now) ≡ Some (word_sort word)) }
    ensures word { IfOk result (IsRowWord (tree row.now) other target) }
{
    let levels = vec![in alloc; other, target]?;
    let values = Values {
        consts: Vec::new(alloc),
        levels,
    };
    Ok(eval(row, &values))
}

/// A row over terms of the store: the other argument and the target.
pub fn put_row(
    alloc: Global,
    store: &mut Store,
    row: &Term,
    other: Id,
    target: Id,
) -> Result<Id, NoMemory>
    requires other { other < length store.old }
    requires target { target < length store.old }
    requires sorted { IsSorted (tree row.now) }
    requires over { IsOver (sort_at store.old other) (sort_at store.old target) (tree row.now) }
    ensures id { IfOk result (λ id. StandsAt store.new id
        (put_in_row (tree_at store.old other) (tree_at store.old target) (tree row.now))) }
    ensures grows { Grows store.old store.new }
    ensures shared { OnOk result (AreShared store.new) }
{
    let _before = store.len();
    let id = plant(alloc, store, row)?;
    let made = store.put_in(id, &[Some(other), Some(target)])?;
    let _behind = store.len();
    Ok(made)
}
