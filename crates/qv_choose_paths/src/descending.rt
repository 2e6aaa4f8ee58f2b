//! The way down from a term to a place.

ghost use Rattle.std.specs.Prelude.{◌≡◌, ◌<◌, ◌∷◌, [], IfOk, IfSome, None, Some, length};
ghost use Rattle.std.specs.Prelude.{option_map};
ghost use Rattle.qv_words.specs.Word.{word_sort};
ghost use Rattle.qv_words.specs.Tree.{Apply, Nil, Cons, tree_sort};
ghost use Rattle.qv_words.specs.Inverse.{inverse_term};
ghost use Rattle.qv_words.specs.Choice.{literal_value};
ghost use Rattle.qv_terms.specs.View.{tree};
ghost use Rattle.qv_store.specs.Nodes.{tree_at, trees_at};
ghost use Rattle.qv_store.specs.Stores.{AreShared, Grows};
ghost use Rattle.qv_store.specs.Walks.{IsEarlier};
ghost use Rattle.qv_choose_paths.specs.Rows.{sort_at};
ghost use Rattle.qv_choose_paths.specs.Looks.{way_of};
ghost use Rattle.qv_choose_paths.specs.Sights.{IsScene, AreSorted};
ghost use Rattle.qv_choose_paths.specs.Steps.{AreKids, IsStep, IsOtherWord, MakesStep, Arrives};
ghost use Rattle.qv_choose_paths.specs.Steps.{ArrivesAs, IsPlaceWord};

use crate::rows::{literal, put_row, row_word};
use crate::seeing::{Sight, Trial};
use crate::ways::{Step, Way};
use qv_inverse::invert;
use qv_store::{Id, NoMemory, Node, Store};
use qv_terms::Term;
use qv_words::{Op, Word};
use std::alloc::Global;

// The step down from a term to which the way is open, unless it is the place.
fn step_down(alloc: Global, store: &Store, sight: &Sight, id: Id) -> Result<Option<Step>, NoMemory>
    requires scene { IsScene store.now sight.now }
    requires id { IsEarlier sight.now.walk (length sight.now.walk) id }
    requires way { way_of sight.now.place (tree_at store.now id) ≡ Way.Open }
    ensures { IfOk result (IsStep sight.now.place store.now sight.now.walk id) }
{
    match store.node(id) {
        Node::App { op, kids } => step_through(alloc, store, sight, id, *op, kids.as_slice()),
        _ => Ok(None),
    }
}

// The step down through an operator.
fn step_through(
    alloc: Global,
    store: &Store,
    sight: &Sight,
    id: Id,
    op: Op,
    kids: &[Id],
) -> Result<Option<Step>, NoMemory>
    requires scene { IsScene store.now sight.now }
    requires way { way_of sight.now.place (tree_at store.now id) ≡ Way.Open }
    requires kids { AreKids store.now sight.now.walk id op kids.now }
    ensures { IfOk result (IsStep sight.now.place store.now sight.now.walk id) }
{
    match kids {
        [] => unreachable!(),
        [a] => step_to_only(alloc, store, sight, id, op, *a),
        [a, b] => step_to_one(alloc, store, sight, id, op, *a, *b),
        [_, _, _, ..] => unreachable!(),
    }
}

// The step to the only argument.
fn step_to_only(
    alloc: Global,
    store: &Store,
    sight: &Sight,
    id: Id,
    op: Op,
    a: Id,
) -> Result<Option<Step>, NoMemory>
    requires scene { IsScene store.now sight.now }
    requires way { way_of sight.now.place (tree_at store.now id) ≡ Way.Open }
    requires kids { AreKids store.now sight.now.walk id op (a ∷ []) }
    ensures { IfOk result (IsStep sight.now.place store.now sight.now.walk id) }
{
    let sort = store.sort(a);
    let row = invert(alloc, op, 0, &[sort], None)?;
    Ok(step_of(row, None, a))
}

// The step to the one of two in which the place stands.
fn step_to_one(
    alloc: Global,
    store: &Store,
    sight: &Sight,
    id: Id,
    op: Op,
    a: Id,
    b: Id,
) -> Result<Option<Step>, NoMemory>
    requires scene { IsScene store.now sight.now }
    requires way { way_of sight.now.place (tree_at store.now id) ≡ Way.Open }
    requires kids { AreKids store.now sight.now.walk id op (a ∷ b ∷ []) }
    ensures { IfOk result (IsStep sight.now.place store.now sight.now.walk id) }
{
    match sight.look(store, a).way {
        Way::Absent => step_to_second(alloc, store, sight, id, op, a, b),
        _ => step_to_first(alloc, store, sight, id, op, a, b),
    }
}

// The step to the first of two.
fn step_to_first(
    alloc: Global,
    store: &Store,
    sight: &Sight,
    id: Id,
    op: Op,
    a: Id,
    b: Id,
) -> Result<Option<Step>, NoMemory>
    requires scene { IsScene store.now sight.now }
    requires way { way_of sight.now.place (tree_at store.now id) ≡ Way.Open }
    requires kids { AreKids store.now sight.now.walk id op (a ∷ b ∷ []) }
    requires first { way_of sight.now.place (tree_at store.now a) ≡ Way.Absent → ⊥ }
    ensures { IfOk result (IsStep sight.now.place store.now sight.now.walk id) }
{
    let left = store.sort(a);
    let right = store.sort(b);
    let value = literal(store, b);
    let row = invert(alloc, op, 0, &[left, right], value)?;
    Ok(step_of(row, Some(b), a))
}

// The step to the second of two.
fn step_to_second(
    alloc: Global,
    store: &Store,
    sight: &Sight,
    id: Id,
    op: Op,
    a: Id,
    b: Id,
) -> Result<Option<Step>, NoMemory>
    requires scene { IsScene store.now sight.now }
    requires way { way_of sight.now.place (tree_at store.now id) ≡ Way.Open }
    requires kids { AreKids store.now sight.now.walk id op (a ∷ b ∷ []) }
    requires first { way_of sight.now.place (tree_at store.now a) ≡ Way.Absent }
    ensures { IfOk result (IsStep sight.now.place store.now sight.now.walk id) }
{
    let left = store.sort(a);
    let right = store.sort(b);
    let value = literal(store, a);
    let row = invert(alloc, op, 1, &[left, right], value)?;
    Ok(step_of(row, Some(a), b))
}

// The step by a row, where there is one.
fn step_of(row: Option<Term>, other: Option<Id>, next: Id) -> Option<Step>
    ensures { MakesStep (option_map tree row) other next result }
{
    match row {
        Some(row) => Some(Step { row, other, next }),
        None => None,
    }
}

/// What arrives at the place down from a term where the target there has this word, at the point.
pub fn word_down(
    alloc: Global,
    store: &Store,
    trial: &Trial,
    id: Id,
    word: Word,
) -> Result<Word, NoMemory>
    requires scene { IsScene store.now trial.now.sight }
    requires sorted { AreSorted store.now trial.now.sight.walk trial.now.words.items }
    requires id { IsEarlier trial.now.sight.walk (length trial.now.sight.walk) id }
    requires way { way_of trial.now.sight.place (tree_at store.now id) ≡ Way.Open }
    requires sort { tree_sort (tree_at store.now id) ≡ Some (word_sort word) }
    ensures arrives { IfOk result (ArrivesAs trial.now.sight.place store.now trial.now.sight.walk
        trial.now.words.items id word) }
    ensures place { IfOk result
        (IsPlaceWord trial.now.sight.place store.now trial.now.sight.walk) }
{
    let mut at = id;
    let mut target = word;
    'down: while let Some(step) = step_down(alloc, store, &trial.sight, at)? {
        let other = other_word(store, trial, step.other, target);
        target = row_word(alloc, &step.row, other, target)?;
        at = step.next;
    }
    Ok(target)
}

// The word of the other argument, or the target where there is none.
fn other_word(store: &Store, trial: &Trial, other: Option<Id>, target: Word) -> Word
    requires sorted { AreSorted store.now trial.now.sight.walk trial.now.words.items }
    requires other { IfSome other
        (IsEarlier trial.now.sight.walk (length trial.now.sight.walk)) }
    ensures { IsOtherWord trial.now.sight.walk trial.now.words.items other target result }
{
    match other {
        Some(id) => trial.word(store, id),
        None => target,
    }
}

/// What arrives at the place down from a term where the target there is this term. Also where memory
/// runs out the store keeps what was put.
pub fn put_down(
    alloc: Global,
    store: &mut Store,
    sight: &Sight,
    id: Id,
    target: Id,
) -> Result<Id, NoMemory>
    requires scene { IsScene store.old sight.now }
    requires id { IsEarlier sight.now.walk (length sight.now.walk) id }
    requires way { way_of sight.now.place (tree_at store.old id) ≡ Way.Open }
    requires target { target < length store.old }
    requires sort { tree_sort (tree_at store.old target) ≡ tree_sort (tree_at store.old id) }
    ensures id { IfOk result (Arrives sight.now.place store.old id target store.new) }
    ensures grows { Grows store.old store.new }
{
    let mut at = id;
    let mut made = target;
    'down: while let Some(step) = step_down(alloc, store, sight, at)? {
        let other = step.other.unwrap_or(made);
        made = put_row(alloc, store, &step.row, other, made)?;
        at = step.next;
    }
    Ok(made)
}
