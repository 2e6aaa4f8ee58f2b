//! The words of constants in a model.

ghost use Rattle.std.specs.Prelude.{◌<◌, All, OnOk, length};
ghost use Rattle.qv_store.specs.Walks.{IsWalk};
ghost use Rattle.qv_solve_offer.specs.Asking.{IsBase};

use crate::base::Base;
use qv_store::{Id, NoMemory, Node, Store, Walk};
use qv_words::Word;
use std::alloc::{AllocError, Global};

// Words of constants of greater indices aren't kept.
const MOST_CONSTANTS: u64 = 1 << 24;

// The words that the constants of formulas have in a model, by their indices.
pub(crate) fn words_in(
    alloc: Global,
    store: &Store,
    formulas: &[Id],
    base: &Base,
    model: &[bool],
) -> Result<Vec<Option<Word>>, NoMemory>
    requires ids { All (λ id. id < length store.now) formulas.now }
    requires base { IsBase store.now base.now }
{
    let mut walk = Walk::new(alloc);
    visit_all(&mut walk, store, formulas)?;
    let mut words = Vec::new(alloc);
    put_all(&mut words, store, &walk, base, model)?;
    Ok(words)
}

// The terms of formulas.
pub(crate) fn visit_all(walk: &mut Walk, store: &Store, formulas: &[Id]) -> Result<(), NoMemory>
    requires ids { All (λ id. id < length store.now) formulas.now }
    requires walk { IsWalk store.now walk.old }
    ensures walk { IsWalk store.now walk.new }
{
    'formulas: for formula in formulas {
        walk.visit(store, *formula)?;
    }
    Ok(())
}

// Puts the words of the constants among the terms.
fn put_all(
    words: &mut Vec<Option<Word>>,
    store: &Store,
    walk: &Walk,
    base: &Base,
    model: &[bool],
) -> Result<(), NoMemory>
    requires walk { IsWalk store.now walk.now }
    requires base { IsBase store.now base.now }
{
    'terms: for id in walk.ids() {
        if let Node::Const { index, .. } = store.node(*id) {
            put(words, *index, base.word(store, *id, model))?;
        }
    }
    Ok(())
}

// Puts a word at an index, behind as many places as there must be.
pub(crate) fn put(
    words: &mut Vec<Option<Word>>,
    index: u64,
    word: Option<Word>,
) -> Result<(), AllocError> {
    if index >= MOST_CONSTANTS {
        return Ok(());
    }
    let index = index as usize;
    'places: for _place in words.len()..index + 1 {
        words.push(None)?;
    }
    if index < words.len() {
        words[index] = word;
    }
    Ok(())
}
