//! The words of terms at one point, each found once.

ghost use Rattle.std.specs.Prelude.{◌≡◌, ◌<◌, ◌++◌, ◌∷◌, List, [], All, IfOk, IsSome, OnOk, length};
ghost use Rattle.qv_words.specs.declared.word.Word.{Word};
ghost use Rattle.qv_words.specs.Word.{sorts_of};
ghost use Rattle.qv_words.specs.Rank.{result_sort};
ghost use Rattle.qv_store.specs.Nodes.{tree_at};
ghost use Rattle.qv_store.specs.Walks.{IsEarlier, IsFound};
ghost use Rattle.qv_store.specs.Evaluating.{AreFound, IsApplied, HasValue, IsNext, IsWordOf};
ghost use Rattle.qv_entries.specs.Tables.{AreKept, IsTable};

use qv_store::{Id, NoMemory, Node, Store, Walk};
use qv_words::{Op, Word, apply};
use std::alloc::Global;

// Terms that were asked for at a point, with all below them, and the word of each.
#[derive(Drop)]
pub(crate) struct Table {
    walk: Walk,
    words: Vec<Word>,
}

impl Table {
    // No terms.
    pub(crate) fn new(alloc: Global) -> Table
        ensures walk { result.walk ≡ [] }
        ensures words { result.words.items ≡ [] }
    {
        Table {
            walk: Walk::new(alloc),
            words: Vec::new(alloc),
        }
    }

    // A term's word. Only those below it that have none yet are evaluated.
    pub(crate) fn word(&mut self, store: &Store, id: Id, point: &[Word]) -> Result<Word, NoMemory>
        requires table { IsTable store.now point.now self.old }
        requires id { id < length store.now }
        requires value { HasValue [] point.now (tree_at store.now id) }
        ensures table { OnOk result (IsTable store.now point.now self.new) }
        ensures word { IfOk result (IsWordOf [] point.now (tree_at store.now id)) }
    {
        self.walk.visit(store, id)?;
        fill(&mut self.words, &self.walk, store, point)?;
        Ok(*self.walk.result_of(&self.words, id))
    }
}

// Finds the words of those terms of a walk that have none.
fn fill(words: &mut Vec<Word>, walk: &Walk, store: &Store, point: &[Word]) -> Result<(), NoMemory>
    requires { AreKept store.now point.now walk.now words.old.items }
    ensures kept { OnOk result (AreKept store.now point.now walk.now words.new.items) }
    ensures all { OnOk result (length words.new.items ≡ length walk.now) }
{
    'terms: while words.len() < walk.len() {
        let word = next_word(words, walk, store, point);
        words.push(word)?;
    }
    Ok(())
}

// The word of the first term of a walk that has none.
fn next_word(words: &[Word], walk: &Walk, store: &Store, point: &[Word]) -> Word
    requires kept { AreKept store.now point.now walk.now words.now }
    requires left { length words.now < length walk.now }
    ensures { AreKept store.now point.now walk.now (words.now ++ result ∷ []) }
{
    let terms = walk.ids();
    let place = words.len();
    let id = terms[place];
    evaluate(id, words, walk, store, point)
}

// The word of the next term of a walk, over those of the terms before it.
fn evaluate(id: Id, words: &[Word], walk: &Walk, store: &Store, point: &[Word]) -> Word
    requires id { id < length store.now }
    requires next { IsNext [] point.now store.now walk.now words.now id }
    ensures { IsWordOf [] point.now (tree_at store.now id) result }
{
    match store.node(id) {
        Node::Var { level, .. } => point[*level as usize],
        Node::Lit { word } => *word,
        Node::App { op, kids } => apply_to(*op, kids.as_slice(), words, walk),
        Node::Const { .. } => unreachable!(),
        Node::All { .. } | Node::Ex { .. } => unreachable!(),
    }
}

// The operator's value at the words of these terms.
fn apply_to(op: Op, kids: &[Id], words: &[Word], walk: &Walk) -> Word
    requires kids { All (IsEarlier walk.now (length words.now)) kids.now }
    requires rank { (args : List Word) → AreFound walk.now words.now kids.now args
        → IsSome (result_sort op (sorts_of args)) }
    ensures { IsApplied op walk.now words.now kids.now result }
{
    match kids {
        [] => apply(op, &[]),
        [a] => apply(op, &[word_at(*a, words, walk)]),
        [a, b] => apply(op, &[word_at(*a, words, walk), word_at(*b, words, walk)]),
        [a, b, c] => apply(
            op,
            &[
                word_at(*a, words, walk),
                word_at(*b, words, walk),
                word_at(*c, words, walk),
            ],
        ),
        [_, _, _, _, ..] => unreachable!(),
    }
}

// The word that was found for a term.
fn word_at(id: Id, words: &[Word], walk: &Walk) -> Word
    requires { IsEarlier walk.now (length words.now) id }
    ensures { IsFound walk.now words.now id result }
{
    *walk.result_of(words, id)
}
