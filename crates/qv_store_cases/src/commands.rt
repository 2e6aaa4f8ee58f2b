//! What the calls of a store, `copy_terms`, `grow`, `plant` and a problem make of terms.

ghost use Rattle.qv_words.specs.Sorted.{IsSorted};
ghost use Rattle.qv_terms.specs.View.{tree};
ghost use Rattle.qv_store.specs.Walks.{IsWalk};

use crate::problems::problem_row;
use crate::ready::{are_terms, has_all, have_their_sorts};
use crate::saying::{say_boxed, say_number};
use qv_cases_rows::{Answer, Cases, Words};
use qv_cases_terms::{
    has, is_plain, say_node, say_sort, say_term, say_word, some_terms, term, terms, value, words,
};
use qv_store::{Id, Store, Walk};
use qv_terms::Term;
use qv_trees::{Copied, copy_terms, grow, plant};
use qv_words::Word;
use std::alloc::Global;

/// The cases have no state.
#[derive(Clone, Copy)]
pub struct TreeCases {
    pub alloc: Global,
}

impl Cases for TreeCases {
    fn answer(&mut self, words: &mut Words<'_>, out: &mut Answer) {
        let mut store = Store::new(self.alloc);
        match words.next() {
            "facts" => facts_row(self.alloc, out, &mut store, words.rest()),
            "eval" => eval_row(self.alloc, out, &mut store, words.rest()),
            "put_in" => put_in_row(self.alloc, out, &mut store, words.rest()),
            "copy" => copy_row(self.alloc, out, &mut store, words.rest()),
            "apart" => apart_row(self.alloc, out, &mut store, words.rest()),
            "round" => round_row(self.alloc, out, &mut store, words.rest()),
            "walk" => walk_row(self.alloc, out, &mut store, words.rest()),
            "problem" => problem_row(self.alloc, out, &mut store, words.rest()),
            _ => out.refuse(),
        }
    }
}

// `facts TERM`: the sort, the depth, whether a quantifier stands in it, and how many terms there
// are
fn facts_row(alloc: Global, out: &mut Answer, store: &mut Store, case: &str) {
    match term(alloc, store, case) {
        Some(id) => say_facts(out, store, id),
        None => out.refuse(),
    }
}

fn say_facts(out: &mut Answer, store: &Store, id: Id) {
    if !has(store, id) {
        out.refuse();
        return;
    }
    say_sort(out, store.sort(id));
    say_number(out, ' ', store.depth(id));
    out.say(if store.quantified(id) {
        " quantified"
    } else {
        " free"
    });
    say_number(out, ' ', store.len());
}

// `eval WORDS/WORDS/TERM`
fn eval_row(alloc: Global, out: &mut Answer, store: &mut Store, case: &str) {
    match evaluated(alloc, store, case) {
        Some(word) => say_word(out, word),
        None => out.refuse(),
    }
}

fn evaluated(alloc: Global, store: &mut Store, case: &str) -> Option<Word> {
    let (consts, behind) = case.split_once('/')?;
    let (places, text) = behind.split_once('/')?;
    let id = term(alloc, store, text)?;
    let consts = words(alloc, consts)?;
    let places = words(alloc, places)?;
    value(store, id, &consts, &places)
}

// `put_in TERMS/TERM`
fn put_in_row(alloc: Global, out: &mut Answer, store: &mut Store, case: &str) {
    match replaced(alloc, store, case) {
        Some(id) => say_term(alloc, out, store, id),
        None => out.refuse(),
    }
}

fn replaced(alloc: Global, store: &mut Store, case: &str) -> Option<Id> {
    let (given, text) = case.split_once('/')?;
    let terms = some_terms(alloc, store, given)?;
    let id = term(alloc, store, text)?;
    put_in(store, id, &terms)
}

fn put_in(store: &mut Store, id: Id, terms: &[Option<Id>]) -> Option<Id> {
    if !is_plain(store, id) {
        return None;
    }
    if !are_terms(store, terms) {
        return None;
    }
    if !have_their_sorts(store, terms) {
        return None;
    }
    store.put_in(id, terms).ok()
}

// `copy TERM`: the nodes of a copy
fn copy_row(alloc: Global, out: &mut Answer, store: &mut Store, case: &str) {
    let is_read = term(alloc, store, case).is_some();
    match store.copy() {
        Ok(copied) if is_read => say_nodes(out, &copied),
        _ => out.refuse(),
    }
}

// Nodes, with their children by their numbers.
fn say_nodes(out: &mut Answer, store: &Store) {
    for number in 0..store.len() {
        if number > 0 {
            out.say(", ");
        }
        let node = store.node(store.id_at(number));
        for kid in node.children() {
            say_number(out, '#', kid.number());
            out.put(' ');
        }
        say_node(out, node);
    }
}

// `apart TERMS/TERMS`: the nodes of a store in which the second terms alone stand, and their
// numbers there
fn apart_row(alloc: Global, out: &mut Answer, store: &mut Store, case: &str) {
    match read_apart(alloc, store, case) {
        Some(ids) => say_apart(alloc, out, store, &ids),
        None => out.refuse(),
    }
}

fn read_apart(alloc: Global, store: &mut Store, case: &str) -> Option<Vec<Id>> {
    let (others, text) = case.split_once('/')?;
    terms(alloc, store, others)?;
    terms(alloc, store, text)
}

fn say_apart(alloc: Global, out: &mut Answer, store: &Store, ids: &[Id]) {
    if !has_all(store, ids) {
        out.refuse();
        return;
    }
    match copy_terms(alloc, store, ids) {
        Ok(copied) => say_copied(out, &copied),
        Err(_) => out.refuse(),
    }
}

fn say_copied(out: &mut Answer, copied: &Copied) {
    say_nodes(out, &copied.store);
    if copied.ids.is_empty() {
        out.say("no terms");
    }
    for id in &copied.ids {
        out.put(' ');
        say_number(out, '@', id.number());
    }
}

// `round TERM`: its number, the boxed term behind it, and the numbers at which that is planted in
// this store and in an empty one, each with how many terms there are then
fn round_row(alloc: Global, out: &mut Answer, store: &mut Store, case: &str) {
    match term(alloc, store, case) {
        Some(id) => say_round(alloc, out, store, id),
        None => out.refuse(),
    }
}

fn say_round(alloc: Global, out: &mut Answer, store: &mut Store, id: Id) {
    if !has(store, id) {
        out.refuse();
        return;
    }
    say_number(out, '#', id.number());
    say_number(out, ' ', store.len());
    out.put(' ');
    match grow(alloc, store, id) {
        Ok(grown) => say_planted(alloc, out, store, &grown),
        Err(_) => out.refuse(),
    }
}

fn say_planted(alloc: Global, out: &mut Answer, store: &mut Store, grown: &Term)
    requires { IsSorted (tree grown.now) }
{
    say_boxed(out, grown);
    say_planted_in(alloc, out, store, grown);
    say_planted_in(alloc, out, &mut Store::new(alloc), grown);
}

fn say_planted_in(alloc: Global, out: &mut Answer, store: &mut Store, grown: &Term)
    requires { IsSorted (tree grown.now) }
{
    match plant(alloc, store, grown) {
        Ok(id) => {
            out.put(' ');
            say_number(out, '#', id.number());
            say_number(out, ' ', store.len());
        }
        Err(_) => out.refuse(),
    }
}

// `walk NUMBER/TERMS`: the walk through the terms, the last one first, where the first one stands,
// and whether it is in the walk when this number of terms is kept
fn walk_row(alloc: Global, out: &mut Answer, store: &mut Store, case: &str) {
    match read_walk(alloc, store, case) {
        Some((keep, ids)) => say_walk(alloc, out, store, keep, &ids),
        None => out.refuse(),
    }
}

fn read_walk(alloc: Global, store: &mut Store, case: &str) -> Option<(u64, Vec<Id>)> {
    let (keep, text) = case.split_once('/')?;
    let keep = keep.parse::<u64>().ok()?;
    let ids = terms(alloc, store, text)?;
    Some((keep, ids))
}

fn say_walk(alloc: Global, out: &mut Answer, store: &Store, keep: u64, ids: &[Id]) {
    let mut walk = Walk::new(alloc);
    let is_walked = visit_all(&mut walk, store, ids).is_some();
    match ids.first() {
        Some(first) if is_walked => say_walked(out, &mut walk, keep, *first),
        _ => out.refuse(),
    }
}

fn visit_all(walk: &mut Walk, store: &Store, ids: &[Id]) -> Option<()>
    requires { IsWalk store.now walk.old }
{
    let mut left = ids.len();
    'ids: while left > 0 {
        left -= 1;
        let id = ids[left];
        if !has(store, id) {
            return None;
        }
        walk.visit(store, id).ok()?;
    }
    Some(())
}

fn say_walked(out: &mut Answer, walk: &mut Walk, keep: u64, first: Id) {
    for id in walk.ids() {
        say_number(out, '#', id.number());
        out.put(' ');
    }
    if walk.contains(first) {
        say_number(out, '@', walk.position(first) as u64);
    }
    walk.truncate(keep as usize);
    out.say(if walk.contains(first) {
        " kept"
    } else {
        " gone"
    });
    say_number(out, ' ', walk.len() as u64);
}
