//! Words that made formulas true, looked at under others.

ghost use Rattle.std.specs.Prelude.{◌≡◌, ◌<◌, All, IsSomeAnd, IsTrue, [], length, slice_get};
ghost use Rattle.qv_words.specs.Sort.{IsLawful};
ghost use Rattle.qv_words.specs.Word.{word_sort};
ghost use Rattle.qv_store.specs.Nodes.{tree_at};
ghost use Rattle.qv_store.specs.Walks.{IsWalk};
ghost use Rattle.qv_store.specs.Evaluating.{HaveValues};
ghost use Rattle.qv_solve_offer.specs.Valued.{IsValuedIn};

use crate::constants::{put, visit_all};
use qv_store::{Id, NoMemory, Node, Store, Walk};
use qv_words::{Sort, Word};
use std::alloc::Global;

// The words of the constants of formulas, by index, if all of these are true under the last ones,
// where a constant that has none of its sort is 0. There are none where there were none.
pub(crate) fn standing(
    alloc: Global,
    store: &Store,
    formulas: &[Id],
    last: &[Option<Word>],
) -> Result<Option<Vec<Option<Word>>>, NoMemory>
    requires ids { All (λ id. id < length store.now) formulas.now }
{
    if last.is_empty() {
        return Ok(None);
    }
    let mut words = Vec::new(alloc);
    let hold = put_standing(alloc, &mut words, store, formulas, last)?;
    Ok(if hold { Some(words) } else { None })
}

// Puts these words, and says whether all formulas are true under them.
fn put_standing(
    alloc: Global,
    words: &mut Vec<Option<Word>>,
    store: &Store,
    formulas: &[Id],
    last: &[Option<Word>],
) -> Result<bool, NoMemory>
    requires ids { All (λ id. id < length store.now) formulas.now }
{
    let mut walk = Walk::new(alloc);
    visit_all(&mut walk, store, formulas)?;
    put_last(words, store, &walk, last)?;
    are_true(alloc, store, &walk, formulas, words)
}

// Puts the last words of the constants among the terms.
fn put_last(
    words: &mut Vec<Option<Word>>,
    store: &Store,
    walk: &Walk,
    last: &[Option<Word>],
) -> Result<(), NoMemory>
    requires walk { IsWalk store.now walk.now }
{
    'terms: for id in walk.ids() {
        if let Node::Const { index, .. } = store.node(*id) {
            put(words, *index, last_or_zero(last, *index, store.sort(*id)))?;
        }
    }
    Ok(())
}

// The last word of an index, where it has this sort, and otherwise the 0 of the sort.
fn last_or_zero(last: &[Option<Word>], index: u64, sort: Sort) -> Option<Word>
    requires { IsLawful sort }
{
    match last.get(index as usize) {
        Some(Some(word)) if word.sort() == sort => Some(*word),
        _ => Word::new(sort, 0),
    }
}

// The words, with one where none is.
fn filled(alloc: Global, words: &[Option<Word>]) -> Result<Vec<Word>, NoMemory> {
    let mut filled = Vec::with_capacity(alloc, words.len())?;
    'words: for word in words {
        filled.push(word.unwrap_or(Word::truth(false)))?;
    }
    Ok(filled)
}

// Whether formulas of a walk are true under these words for the constants.
fn are_true(
    alloc: Global,
    store: &Store,
    walk: &Walk,
    formulas: &[Id],
    words: &[Option<Word>],
) -> Result<bool, NoMemory>
    requires walk { IsWalk store.now walk.now }
{
    let consts = filled(alloc, words)?;
    if !have_values(store, walk, &consts) {
        return Ok(false);
    }
    let values = store.eval_all(walk, &consts, &[])?;
    Ok(are_ones(walk, formulas, &values))
}

// Whether each term of a walk has a value under these words for the constants.
fn have_values(store: &Store, walk: &Walk, consts: &[Word]) -> bool
    requires walk { IsWalk store.now walk.now }
    ensures { IsTrue result → HaveValues consts.now [] store.now walk.now }
{
    'terms: for id in walk.ids() {
        if !is_valued(store, *id, consts) {
            return false;
        }
    }
    true
}

// Whether a term has one where its children do.
fn is_valued(store: &Store, id: Id, consts: &[Word]) -> bool
    requires { id < length store.now }
    ensures { IsTrue result → IsValuedIn consts.now (tree_at store.now id) }
{
    match store.node(id) {
        Node::Const { index, sort } => is_word_at(consts, *index, *sort),
        Node::Lit { .. } | Node::App { .. } => true,
        Node::Var { .. } | Node::All { .. } | Node::Ex { .. } => false,
    }
}

// Whether a word of this sort stands here.
fn is_word_at(words: &[Word], index: u64, sort: Sort) -> bool
    ensures { IsTrue result
        → IsSomeAnd (slice_get words.now index) (λ word. word_sort word ≡ sort) }
{
    match words.get(index as usize) {
        Some(word) => word.sort() == sort,
        None => false,
    }
}

// Whether the values of formulas are 1, where they are those of a walk's terms.
fn are_ones(walk: &Walk, formulas: &[Id], values: &[Word]) -> bool
    requires many { length values.now ≡ length walk.now }
{
    'formulas: for formula in formulas {
        if !walk.contains(*formula) || walk.result_of(values, *formula).value() != 1 {
            return false;
        }
    }
    true
}
