//! Inverse terms, which are printed as `v0:8`, `8:ff` and `(bvadd v1:8 v0:8)`.

ghost use Rattle.std.specs.Prelude.{All};
ghost use Rattle.qv_words.specs.Sort.{IsLawful};

use qv_cases_rows::{Answer, Words};
use qv_cases_terms::{operator, say_leaf, say_operator, say_word, sorts, word};
use qv_inverse::invert;
use qv_terms::Term;
use qv_words::{Op, Sort, Word, result_sort};
use std::alloc::Global;

/// `OPERATOR POSITION OTHER SORTS`: OTHER is a word where the other argument is a literal, or `-`.
pub fn say_inverse(alloc: Global, words: &mut Words<'_>, out: &mut Answer) {
    let op = operator(alloc, words.next());
    let position = words.number();
    let other = other_of(words.next());
    match (op, other, sorts(alloc, words.rest())) {
        (Some(op), Some(other), Some(sorts)) => {
            say_inverted(alloc, op, position, &sorts, other, out)
        }
        _ => out.refuse(),
    }
}

fn other_of(text: &str) -> Option<Option<Word>> {
    if text == "-" {
        Some(None)
    } else {
        Some(Some(word(text)?))
    }
}

// The inverse term, where the sorts have a rank and one of the arguments is at the position.
fn say_inverted(
    alloc: Global,
    op: Op,
    position: usize,
    sorts: &[Sort],
    other: Option<Word>,
    out: &mut Answer,
)
    requires { All IsLawful sorts.now }
{
    if position >= sorts.len() || result_sort(op, sorts).is_none() {
        out.refuse();
        return;
    }
    match invert(alloc, op, position, sorts, other) {
        Ok(Some(row)) => say_term(out, &row),
        Ok(None) => out.say("none"),
        Err(_) => out.refuse(),
    }
}

// A term without constants and quantifiers.
#[cycle(term)]
fn say_term(out: &mut Answer, term: &Term) {
    match term {
        Term::Var { level, sort } => say_leaf(out, 'v', *level, *sort),
        Term::Lit { word } => say_word(out, *word),
        Term::App { op, kids } => {
            out.put('(');
            say_operator(out, *op);
            say_terms(out, kids);
            out.put(')');
        }
        _ => out.refuse(),
    }
}

// Terms, each behind a blank.
#[cycle(term)]
fn say_terms(out: &mut Answer, terms: &[Term]) {
    for term in terms {
        out.put(' ');
        say_term(out, term);
    }
}
