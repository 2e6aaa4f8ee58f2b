//! Which formulas may be left out together.

ghost use Rattle.std.specs.Prelude.{◌<◌, All, IfSome, length};

use qv_cases_rows::{Answer, Words};
use qv_cases_terms::{has, terms};
use qv_solve_offer::unneeded;
use qv_store::{Id, Store};
use std::alloc::Global;

/// `PLACES TERM;TERM;..`: says which of the places may be left out together, with blanks between them,
/// or `none`.
pub fn say_offered(alloc: Global, words: &mut Words<'_>, out: &mut Answer) {
    let named = words.next();
    match offered(alloc, named, words.rest()) {
        Some(places) => say_places(&places, out),
        None => out.refuse(),
    }
}

fn offered(alloc: Global, named: &str, text: &str) -> Option<Vec<u64>> {
    let mut store = Store::new(alloc);
    let named = places(alloc, named)?;
    let ids = terms(alloc, &mut store, text)?;
    let formulas = known(alloc, &store, &ids)?;
    unneeded(alloc, &store, &formulas, &named).ok()
}

fn places(alloc: Global, text: &str) -> Option<Vec<u64>> {
    let mut places = Vec::new(alloc);
    for part in text.split(',') {
        places.push(part.parse::<u64>().ok()?).ok()?;
    }
    Some(places)
}

/// The terms again, where each is of the store.
pub fn known(alloc: Global, store: &Store, ids: &[Id]) -> Option<Vec<Id>>
    ensures { IfSome result (λ known. All (λ id. id < length store.now) known.items) }
{
    let mut known = Vec::new(alloc);
    'ids: for id in ids {
        if !has(store, *id) {
            return None;
        }
        known.push(*id).ok()?;
    }
    Some(known)
}

fn say_places(places: &[u64], out: &mut Answer) {
    if places.is_empty() {
        out.say("none");
    }
    'places: for (at, place) in places.iter().enumerate() {
        if at > 0 {
            out.put(' ');
        }
        out.show(*place);
    }
}
