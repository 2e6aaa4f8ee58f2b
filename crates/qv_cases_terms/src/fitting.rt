//! Whether terms, and the constants and variables of a store, are as a call asks. The latter is
//! asked of all of them, those of other terms too.

ghost use Rattle.std.specs.Prelude.{◌≡◌, ◌<◌, ◌↔◌, IsSomeAnd, IsTrue, length, slice_get};
ghost use Rattle.qv_words.specs.Word.{word_sort};
ghost use Rattle.qv_words.specs.Tree.{IsQuantifierFree};
ghost use Rattle.qv_store.specs.Nodes.{tree_at};
ghost use Rattle.qv_store.specs.Stores.{AreShared};
ghost use Rattle.qv_cases_terms.specs.Leaves.{IsFit, AreFitBelow, IsAny, IsWordAt, IsOfLevel};

use qv_store::{Id, Node, Store};
use qv_words::{Sort, Word};

/// Whether a store has a term of this number.
pub fn has(store: &Store, id: Id) -> bool
    ensures { IsTrue result ↔ (id < length store.now) }
{
    id.number() < store.len()
}

/// Whether a term is of the store and has no quantifiers.
pub fn is_plain(store: &Store, id: Id) -> bool
    ensures id { IsTrue result → id < length store.now }
    ensures free { IsTrue result → IsQuantifierFree (tree_at store.now id) }
    ensures shared { IsTrue result → AreShared store.now }
{
    if has(store, id) {
        !store.quantified(id)
    } else {
        false
    }
}

/// Whether each constant and each variable has a word of its sort.
pub fn have_words(store: &Store, consts: &[Word], places: &[Word]) -> bool
    ensures { IsTrue result → AreFitBelow (IsWordAt consts.now) (IsWordAt places.now)
        store.now (length store.now) }
{
    'terms: for number in 0..store.len() {
        if !has_word(store, store.id_at(number), consts, places) {
            return false;
        }
    }
    true
}

fn has_word(store: &Store, id: Id, consts: &[Word], places: &[Word]) -> bool
    requires { id < length store.now }
    ensures { IsTrue result
        → IsFit (IsWordAt consts.now) (IsWordAt places.now) (tree_at store.now id) }
{
    match store.node(id) {
        Node::Const { index, sort } => is_word_at(consts, *index, *sort),
        Node::Var { level, sort } => is_word_at(places, *level, *sort),
        Node::Lit { .. } | Node::App { .. } | Node::All { .. } | Node::Ex { .. } => true,
    }
}

// Whether a word of this sort stands here.
fn is_word_at(words: &[Word], index: u64, sort: Sort) -> bool
    ensures { IsTrue result
        → IsSomeAnd (slice_get words.now index) (λ word. word_sort word ≡ sort) }
{
    match words.get(index as usize) {
        Some(word) => word.sort() == sort,
        None => false,
    }
}

/// The value of a term of the store without quantifiers under words for all constants and variables
/// of the store.
pub fn value(store: &Store, id: Id, consts: &[Word], places: &[Word]) -> Option<Word> {
    if !is_plain(store, id) {
        return None;
    }
    if !have_words(store, consts, places) {
        return None;
    }
    store.eval_at(id, consts, places).ok()
}

// Whether each variable of this level has this sort.
pub(crate) fn have_level_sort(store: &Store, level: u64, sort: Sort) -> bool
    ensures { IsTrue result
        → AreFitBelow IsAny (IsOfLevel level sort) store.now (length store.now) }
{
    'terms: for number in 0..store.len() {
        if !has_level_sort(store, store.id_at(number), level, sort) {
            return false;
        }
    }
    true
}

fn has_level_sort(store: &Store, id: Id, level: u64, sort: Sort) -> bool
    requires { id < length store.now }
    ensures { IsTrue result → IsFit IsAny (IsOfLevel level sort) (tree_at store.now id) }
{
    match store.node(id) {
        Node::Var {
            level: other,
            sort: of,
        } => { if *other == level { *of == sort } else { true } }
        Node::Const { .. }
        | Node::Lit { .. }
        | Node::App { .. }
        | Node::All { .. }
        | Node::Ex { .. } => true,
    }
}
