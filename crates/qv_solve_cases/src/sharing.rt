//! The words that the checks of a script are offered.

ghost use Rattle.qv_solve_offer.specs.Sharing.{IsShared};

use crate::offers::known;
use qv_cases_rows::{Answer, Words};
use qv_cases_terms::{say_word, terms};
use qv_solve_offer::Shared;
use qv_store::{Id, Store};
use qv_words::Word;
use std::alloc::Global;

/// `TERM;TERM;.. / TERM;TERM;.. / ..`: says the words that each of these checks of one store is
/// offered, with a slash between them, or `none`.
pub fn say_shared(alloc: Global, words: &mut Words<'_>, out: &mut Answer) {
    let mut store = Store::new(alloc);
    match checks(alloc, &mut store, words.rest()) {
        Some(checks) => say_all(alloc, &store, &checks, out),
        None => out.refuse(),
    }
}

// The formulas of each check.
fn checks(alloc: Global, store: &mut Store, text: &str) -> Option<Vec<Vec<Id>>> {
    let mut checks = Vec::new(alloc);
    for part in text.split('/') {
        checks.push(terms(alloc, store, part)?).ok()?;
    }
    Some(checks)
}

fn say_all(alloc: Global, store: &Store, checks: &[Vec<Id>], out: &mut Answer) {
    let mut shared = Shared::new(alloc);
    'checks: for (at, formulas) in checks.iter().enumerate() {
        if at > 0 {
            out.say(" / ");
        }
        say_next(alloc, store, &mut shared, formulas, out);
    }
}

// The words that the next check is offered.
fn say_next(alloc: Global, store: &Store, shared: &mut Shared, formulas: &[Id], out: &mut Answer)
    requires { IsShared store.now shared.old }
    ensures { IsShared store.now shared.new }
{
    match known(alloc, store, formulas) {
        Some(known) => say_words(&shared.words(store, &known), out),
        None => out.refuse(),
    }
}

// Says words, `-` where an index has none, or `none`.
fn say_words(words: &[Option<Word>], out: &mut Answer) {
    if words.is_empty() {
        out.say("none");
    }
    'words: for (at, word) in words.iter().enumerate() {
        if at > 0 {
            out.put(' ');
        }
        match word {
            Some(word) => say_word(out, *word),
            None => out.put('-'),
        }
    }
}
