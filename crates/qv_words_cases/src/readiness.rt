//! Whether a term may be evaluated, or replaced in.

ghost use Rattle.std.specs.Prelude.{◌≡◌, IsTrue, IsSomeAnd, slice_get};
ghost use Rattle.qv_words.specs.Tree.{IsQuantifierFree, AreQuantifierFree};
ghost use Rattle.qv_words.specs.Values.{HasWords};
ghost use Rattle.qv_words.specs.Word.{word_sort};
ghost use Rattle.qv_terms.specs.View.{tree, trees};
ghost use Rattle.qv_words_cases.specs.Ready.{HaveWords};

use qv_terms::{Term, Values};
use qv_words::{Sort, Word};

/// Whether a term has no quantifiers.
#[cycle(plain)]
pub fn is_plain(term: &Term) -> bool
    ensures { IsTrue result → IsQuantifierFree (tree term.now) }
{
    match term {
        Term::Const { .. } | Term::Var { .. } | Term::Lit { .. } => true,
        Term::App { kids, .. } => are_plain(kids),
        Term::All { .. } | Term::Ex { .. } => false,
    }
}

// Whether all of these haven't.
#[cycle(plain)]
fn are_plain(terms: &[Term]) -> bool
    ensures { IsTrue result → AreQuantifierFree (trees terms.now) }
{
    for term in terms {
        if !is_plain(term) {
            return false;
        }
    }
    true
}

/// Whether a term has no quantifiers, and a word of its sort for each leaf.
#[cycle(words)]
pub fn has_words(term: &Term, values: &Values) -> bool
    ensures { IsTrue result
        → HasWords values.now.consts.items values.now.levels.items (tree term.now) }
{
    match term {
        Term::Const { index, sort } => is_word_at(&values.consts, *index, *sort),
        Term::Var { level, sort } => is_word_at(&values.levels, *level, *sort),
        Term::Lit { .. } => true,
        Term::App { kids, .. } => have_words(kids, values),
        Term::All { .. } | Term::Ex { .. } => false,
    }
}

// Whether each leaf of all of these has.
#[cycle(words)]
fn have_words(terms: &[Term], values: &Values) -> bool
    ensures { IsTrue result
        → HaveWords values.now.consts.items values.now.levels.items (trees terms.now) }
{
    for term in terms {
        if !has_words(term, values) {
            return false;
        }
    }
    true
}

// Whether a word of this sort stands here.
fn is_word_at(words: &[Word], index: u64, sort: Sort) -> bool
    ensures { IsTrue result
        → IsSomeAnd (slice_get words.now index) (λ word. word_sort word ≡ sort) }
{
    match words.get(index as usize) {
        Some(word) => word.sort() == sort,
        None => false,
    }
}
