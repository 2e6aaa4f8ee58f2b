//! Terms, from their words.

ghost use Rattle.std.specs.Prelude.{OnSome};
ghost use Rattle.qv_store.specs.Stores.{Grows};

use crate::parsing::{operator, read_binder, read_leaf};
use crate::putting::{put_application, put_binder, put_leaf};
use qv_store::{Id, Store};
use std::alloc::Global;

/// The one term of a text. `dup` is the last term once more.
pub fn term(alloc: Global, store: &mut Store, text: &str) -> Option<Id>
    ensures { OnSome result (Grows store.old store.new) }
{
    let mut stack = Vec::new(alloc);
    'words: for word in text.split_whitespace() {
        let id = put_word(alloc, store, word, &mut stack)?;
        stack.push(id).ok()?;
    }
    let id = stack.pop()?;
    if stack.is_empty() { Some(id) } else { None }
}

/// The terms of a text, with a semicolon between them. An empty text has none.
pub fn terms(alloc: Global, store: &mut Store, text: &str) -> Option<Vec<Id>> {
    let mut ids = Vec::new(alloc);
    if !text.is_empty() {
        for part in text.split(';') {
            ids.push(term(alloc, store, part)?).ok()?;
        }
    }
    Some(ids)
}

/// The same, where `-` stands for no term.
pub fn some_terms(alloc: Global, store: &mut Store, text: &str) -> Option<Vec<Option<Id>>> {
    let mut ids = Vec::new(alloc);
    if !text.is_empty() {
        for part in text.split(';') {
            let held = if part == "-" {
                None
            } else {
                Some(term(alloc, store, part)?)
            };
            ids.push(held).ok()?;
        }
    }
    Some(ids)
}

// A leaf, or what stands above the terms on top of the stack.
fn put_word(alloc: Global, store: &mut Store, word: &str, stack: &mut Vec<Id>) -> Option<Id>
    ensures { OnSome result (Grows store.old store.new) }
{
    if word == "dup" {
        return stack.last().copied();
    }
    if let Some(found) = read_leaf(word) {
        return put_leaf(store, found);
    }
    if let Some(binder) = read_binder(word) {
        return put_binder(store, binder, stack.pop()?);
    }
    put_application(alloc, store, operator(alloc, word)?, stack)
}
