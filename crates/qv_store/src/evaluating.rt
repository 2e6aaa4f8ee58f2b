//! What terms without quantifiers mean under words for their leaves.

ghost use Rattle.std.specs.Prelude.{◌≡◌, ◌<◌, List, All, IfOk, IsSome, Some, length};
ghost use Rattle.qv_words.specs.declared.word.Word.{Word};
ghost use Rattle.qv_words.specs.Word.{word_sort, word_value, sorts_of};
ghost use Rattle.qv_words.specs.Rank.{result_sort};
ghost use Rattle.qv_words.specs.Tree.{tree_sort, IsQuantifierFree};
ghost use Rattle.qv_words.specs.Values.{HasWords, MeansUnder};
ghost use Rattle.qv_store.specs.Nodes.{tree_at};
ghost use Rattle.qv_store.specs.Walks.{IsWalk, IsEarlier, IsFound};
ghost use Rattle.qv_store.specs.Evaluating.{IsWordOf, HaveValues, AreWords, AreFound, IsApplied};
ghost use Rattle.qv_store.specs.Evaluating.{IsNext};

use crate::id::Id;
use crate::node::Node;
use crate::store::{NoMemory, Store};
use crate::walk::Walk;
use qv_words::{Op, Word, apply};

impl Store {
    /// What a term without quantifiers means under words for its constants, by index, and for its
    /// variables, by level, in time proportional to the number of distinct terms below it.
    pub fn eval_at(&self, id: Id, consts: &[Word], places: &[Word]) -> Result<Word, NoMemory>
        requires id { id < length self.now }
        requires quantifier_free { IsQuantifierFree (tree_at self.now id) }
        requires words { HasWords consts.now places.now (tree_at self.now id) }
        ensures sort { IfOk result (λ word. tree_sort (tree_at self.now id)
            ≡ Some (word_sort word)) }
        ensures value { IfOk result (λ word. MeansUnder consts.now places.now
            (tree_at self.now id) (word_value word)) }
    {
        let mut walk = Walk::new(self.allocator());
        walk.visit(self, id)?;
        let words = self.eval_all(&walk, consts, places)?;
        Ok(*walk.result_of(&words, id))
    }

    /// What each term of a walk means under these words, in their order, in time proportional to
    /// their number.
    pub fn eval_all(
        &self,
        walk: &Walk,
        consts: &[Word],
        places: &[Word],
    ) -> Result<Vec<Word>, NoMemory>
        requires walk { IsWalk self.now walk.now }
        requires values { HaveValues consts.now places.now self.now walk.now }
        ensures many { IfOk result (λ words. length words.items ≡ length walk.now) }
        ensures words { IfOk result (λ words. AreWords consts.now places.now
            self.now walk.now words.items) }
    {
        let mut words = Vec::new(self.allocator());
        'terms: for term in walk.ids() {
            let word = evaluate(self, *term, walk, &words, consts, places);
            words.push(word)?;
        }
        Ok(words)
    }
}

// The word of the next term of a walk, over those of the terms before it.
fn evaluate(
    store: &Store,
    id: Id,
    walk: &Walk,
    words: &[Word],
    consts: &[Word],
    places: &[Word],
) -> Word
    requires id { id < length store.now }
    requires next { IsNext consts.now places.now store.now walk.now words.now id }
    ensures { IsWordOf consts.now places.now (tree_at store.now id) result }
{
    match store.node(id) {
        Node::Const { index, .. } => consts[*index as usize],
        Node::Var { level, .. } => places[*level as usize],
        Node::Lit { word } => *word,
        Node::App { op, kids } => apply_to(*op, kids.as_slice(), walk, words),
        Node::All { .. } | Node::Ex { .. } => unreachable!(),
    }
}

// The operator's value at the words of these terms.
fn apply_to(op: Op, kids: &[Id], walk: &Walk, words: &[Word]) -> Word
    requires kids { All (IsEarlier walk.now (length words.now)) kids.now }
    requires rank { (args : List Word) → AreFound walk.now words.now kids.now args
        → IsSome (result_sort op (sorts_of args)) }
    ensures { IsApplied op walk.now words.now kids.now result }
{
    match kids {
        [] => apply(op, &[]),
        [a] => apply(op, &[word_at(*a, walk, words)]),
        [a, b] => apply(op, &[word_at(*a, walk, words), word_at(*b, walk, words)]),
        [a, b, c] => apply(
            op,
            &[
                word_at(*a, walk, words),
                word_at(*b, walk, words),
                word_at(*c, walk, words),
            ],
        ),
        [_, _, _, _, ..] => unreachable!(),
    }
}

// The word that was found for a term.
fn word_at(id: Id, walk: &Walk, words: &[Word]) -> Word
    requires { IsEarlier walk.now (length words.now) id }
    ensures { IsFound walk.now words.now id result }
{
    *walk.result_of(words, id)
}
