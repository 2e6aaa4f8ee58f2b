//! The answers to cases: terms with a semicolon between them, or `no terms`.

use crate::ready::{is_block, is_region, is_true};
use qv_cases_rows::{Answer, Words};
use qv_cases_terms::{is_plain, say_terms, term, words};
use qv_choose::{candidates, choose};
use qv_store::{Id, Store};
use qv_words::Word;
use std::alloc::Global;

/// Says the terms of `choose FIRST END WORDS | REGION`, or of `candidates FIRST END PLACE | REGION`.
pub fn say_chosen(alloc: Global, is_choice: bool, words: &mut Words<'_>, out: &mut Answer) {
    let mut store = Store::new(alloc);
    let made = if is_choice {
        chosen_terms(alloc, &mut store, words)
    } else {
        candidate_terms(alloc, &mut store, words)
    };
    match made {
        Some(ids) => say_terms(alloc, out, &store, &ids),
        None => out.refuse(),
    }
}

// `choose FIRST END WORDS | REGION`: the terms of a block at a point.
fn chosen_terms(alloc: Global, store: &mut Store, given: &mut Words<'_>) -> Option<Vec<Id>> {
    let first = given.number::<u64>();
    let end = given.number::<u64>();
    let (point, text) = given.rest().split_once('|')?;
    let point = words(alloc, point)?;
    let region = term(alloc, store, text)?;
    chosen(alloc, store, region, first, end, &point)
}

// The terms, where the conditions of the choice hold.
fn chosen(
    alloc: Global,
    store: &mut Store,
    region: Id,
    first: u64,
    end: u64,
    point: &[Word],
) -> Option<Vec<Id>> {
    if !is_block(first, end, point) {
        return None;
    }
    if !is_region(store, region, point) {
        return None;
    }
    if !is_true(store, region, point) {
        return None;
    }
    choose(alloc, store, region, first, end, point).ok()
}

// `candidates FIRST END PLACE | REGION`: those for a place of a block.
fn candidate_terms(alloc: Global, store: &mut Store, given: &mut Words<'_>) -> Option<Vec<Id>> {
    let first = given.number::<u64>();
    let end = given.number::<u64>();
    let level = given.number::<u64>();
    let (_, text) = given.rest().split_once('|')?;
    let region = term(alloc, store, text)?;
    if !is_plain(store, region) {
        return None;
    }
    candidates(alloc, store, region, first, end, level).ok()
}
