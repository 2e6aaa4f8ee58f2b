//! What passes and simplification make of terms.

ghost use Rattle.std.specs.Prelude.{◌<◌, All, IfSome, length};
ghost use Rattle.qv_words.specs.Tree.{IsQuantifierFree};
ghost use Rattle.qv_store.specs.Nodes.{tree_at};

use crate::posed::{Part, say_posed};
use qv_cases_rows::{Answer, Cases, Words};
use qv_cases_terms::{
    is_plain, say_term, say_terms, say_word, term, terms, value, words as parse_words,
};
use qv_rewrite::simplify;
use qv_rewrite_lists::take;
use qv_rewrite_passes::{name_of_pass, pass_named};
use qv_store::{Id, Store};
use qv_words::Word;
use std::alloc::Global;
use std::str;

enum Call {
    Name,
    Pass,
    Simplify,
    At,
    Prenex(Part),
}

static CALLS: [(&str, Call); 7] = [
    ("name", Call::Name),
    ("pass", Call::Pass),
    ("simplify", Call::Simplify),
    ("at", Call::At),
    ("prenex", Call::Prenex(Part::Whole)),
    ("count", Call::Prenex(Part::Counts)),
    ("within", Call::Prenex(Part::Within)),
];

/// The cases have no state.
#[derive(Clone, Copy)]
pub struct RewriteCases {
    pub alloc: Global,
}

impl Cases for RewriteCases {
    fn answer(&mut self, words: &mut Words<'_>, out: &mut Answer) {
        let mut store = Store::new(self.alloc);
        match words.pick(&CALLS) {
            Some(Call::Name) => name_row(out, words.next()),
            Some(Call::Pass) => pass_row(self.alloc, out, &mut store, words),
            Some(Call::Simplify) => simplify_row(self.alloc, out, &mut store, words.rest()),
            Some(Call::At) => at_row(self.alloc, out, &mut store, words),
            Some(Call::Prenex(part)) => say_posed(self.alloc, *part, &mut store, words, out),
            None => out.refuse(),
        }
    }
}

// `name NAME`: the name of the pass that has this name, or `none`
fn name_row(out: &mut Answer, name: &str) {
    match pass_named(name.as_bytes()) {
        Some(pass) => out.give(str::from_utf8(name_of_pass(pass)).ok()),
        None => out.say("none"),
    }
}

// `pass NAME TERMS`: terms with a semicolon between them, or `no terms`.
fn pass_row(alloc: Global, out: &mut Answer, store: &mut Store, words: &mut Words<'_>) {
    let name = words.next();
    match passed(alloc, store, name, words.rest()) {
        Some(ids) => say_terms(alloc, out, store, &ids),
        None => out.refuse(),
    }
}

fn passed(alloc: Global, store: &mut Store, name: &str, text: &str) -> Option<Vec<Id>> {
    let pass = pass_named(name.as_bytes())?;
    let ids = terms(alloc, store, text)?;
    let plain = plain_terms(alloc, store, &ids)?;
    take(alloc, store, pass, &plain).ok()
}

// The terms again, where each is of the store and has no quantifiers.
fn plain_terms(alloc: Global, store: &Store, ids: &[Id]) -> Option<Vec<Id>>
    ensures ids { IfSome result (λ plain. All (λ id. id < length store.now) plain.items) }
    ensures free { IfSome result (λ plain.
        All (λ id. IsQuantifierFree (tree_at store.now id)) plain.items) }
{
    let mut plain = Vec::new(alloc);
    'ids: for id in ids {
        if !is_plain(store, *id) {
            return None;
        }
        plain.push(*id).ok()?;
    }
    Some(plain)
}

// `simplify TERM`
fn simplify_row(alloc: Global, out: &mut Answer, store: &mut Store, text: &str) {
    match simplified(alloc, store, text) {
        Some(id) => say_term(alloc, out, store, id),
        None => out.refuse(),
    }
}

fn simplified(alloc: Global, store: &mut Store, text: &str) -> Option<Id> {
    let id = term(alloc, store, text)?;
    simple(alloc, store, id)
}

fn simple(alloc: Global, store: &mut Store, id: Id) -> Option<Id> {
    if !is_plain(store, id) {
        return None;
    }
    simplify(alloc, store, id).ok()
}

// `at NAME CONSTANTS | PLACES | TERM`, and the same of `simplify`: the term that is made, and the
// value before and after.
fn at_row(alloc: Global, out: &mut Answer, store: &mut Store, words: &mut Words<'_>) {
    let name = words.next();
    match read_point(alloc, store, words.rest()) {
        Some(point) => say_at(alloc, out, store, name, &point),
        None => out.refuse(),
    }
}

// A term, and words for its constants and its variables.
#[derive(Drop)]
struct Point {
    id: Id,
    consts: Vec<Word>,
    places: Vec<Word>,
}

fn read_point(alloc: Global, store: &mut Store, case: &str) -> Option<Point> {
    let (consts, behind) = case.split_once('|')?;
    let (places, text) = behind.split_once('|')?;
    let id = term(alloc, store, text)?;
    let consts = parse_words(alloc, consts)?;
    let places = parse_words(alloc, places)?;
    Some(Point { id, consts, places })
}

fn say_at(alloc: Global, out: &mut Answer, store: &mut Store, name: &str, point: &Point) {
    match made_by(alloc, store, name, point.id) {
        Some(made) => {
            say_term(alloc, out, store, made);
            say_value(out, store, point.id, point);
            say_value(out, store, made, point);
        }
        None => out.refuse(),
    }
}

// What a pass makes of a term, or what simplifying it makes.
fn made_by(alloc: Global, store: &mut Store, name: &str, id: Id) -> Option<Id> {
    if name == "simplify" {
        return simple(alloc, store, id);
    }
    let pass = pass_named(name.as_bytes())?;
    let plain = plain_terms(alloc, store, &[id])?;
    let made = take(alloc, store, pass, &plain).ok()?;
    made.first().copied()
}

fn say_value(out: &mut Answer, store: &Store, id: Id, point: &Point) {
    out.put(' ');
    match value(store, id, &point.consts, &point.places) {
        Some(word) => say_word(out, word),
        None => out.refuse(),
    }
}
