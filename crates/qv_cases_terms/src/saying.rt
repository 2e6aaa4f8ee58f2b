//! Terms, nodes, words and sorts, as they are printed.

use crate::fitting::has;
use qv_cases_rows::Answer;
use qv_sorts::name_of;
use qv_store::{Id, Node, Store};
use qv_words::{Op, Sort, Word};
use std::alloc::Global;
use std::str;

/// Says terms, with a semicolon between them, or `no terms`.
pub fn say_terms(alloc: Global, out: &mut Answer, store: &Store, ids: &[Id]) {
    if ids.is_empty() {
        out.say("no terms");
    }
    for place in 0..ids.len() {
        if place > 0 {
            out.say("; ");
        }
        say_term(alloc, out, store, ids[place]);
    }
}

// A term that waits: to be entered, or to be said when its arguments are.
#[derive(Clone, Copy)]
enum Visit {
    Enter(Id),
    Leave(Id),
}

/// Says a term of the store.
pub fn say_term(alloc: Global, out: &mut Answer, store: &Store, id: Id) {
    let mut waiting = Vec::new(alloc);
    wait(out, &mut waiting, Visit::Enter(id));
    for _step in 0..u64::MAX {
        match waiting.pop() {
            Some(next) => enter_or_leave(out, store, &mut waiting, next),
            None => return,
        }
    }
}

fn enter_or_leave(out: &mut Answer, store: &Store, waiting: &mut Vec<Visit>, next: Visit) {
    match next {
        Visit::Enter(id) => enter(out, store, waiting, id),
        Visit::Leave(id) => leave(out, store, waiting, id),
    }
}

fn wait(out: &mut Answer, waiting: &mut Vec<Visit>, next: Visit) {
    if waiting.push(next).is_err() {
        out.refuse();
    }
}

// The arguments wait to be entered, the first one on top.
fn enter(out: &mut Answer, store: &Store, waiting: &mut Vec<Visit>, id: Id) {
    wait(out, waiting, Visit::Leave(id));
    if has(store, id) {
        for kid in store.node(id).children().iter().rev() {
            wait(out, waiting, Visit::Enter(*kid));
        }
    }
}

// A blank stands behind each term but the last.
fn leave(out: &mut Answer, store: &Store, waiting: &[Visit], id: Id) {
    if has(store, id) {
        say_node(out, store.node(id));
    } else {
        out.refuse();
    }
    if !waiting.is_empty() {
        out.put(' ');
    }
}

/// Says the top of a term: a leaf, an operator or a quantifier.
pub fn say_node(out: &mut Answer, node: &Node) {
    match node {
        Node::Const { index, sort } => say_leaf(out, 'c', *index, *sort),
        Node::Var { level, sort } => say_leaf(out, 'v', *level, *sort),
        Node::Lit { word } => say_word(out, *word),
        Node::App { op, .. } => say_operator(out, *op),
        Node::All { level, sort, .. } => say_binder(out, "All:", *level, *sort),
        Node::Ex { level, sort, .. } => say_binder(out, "Ex:", *level, *sort),
    }
}

/// Says the letter, the number and the sort of a constant or a variable.
pub fn say_leaf(out: &mut Answer, letter: char, number: u64, sort: Sort) {
    out.put(letter);
    out.show(number);
    out.put(':');
    say_sort(out, sort);
}

/// Says a quantifier with its level and its sort.
pub fn say_binder(out: &mut Answer, name: &str, level: u64, sort: Sort) {
    out.say(name);
    out.show(level);
    out.put(':');
    say_sort(out, sort);
}

/// Says a word: its sort, and its value in hexadecimal digits.
pub fn say_word(out: &mut Answer, word: Word) {
    say_sort(out, word.sort());
    out.put(':');
    out.hex(word.value());
}

/// Says a sort.
pub fn say_sort(out: &mut Answer, sort: Sort) {
    match sort {
        Sort::Bool => out.say("bool"),
        Sort::Bits(width) => out.show(width),
    }
}

/// Says an operator's name with its indices.
pub fn say_operator(out: &mut Answer, op: Op) {
    out.give(str::from_utf8(name_of(op)).ok());
    match op {
        Op::Extract(i, j) => {
            say_index(out, i);
            say_index(out, j);
        }
        Op::Repeat(k)
        | Op::ZeroExtend(k)
        | Op::SignExtend(k)
        | Op::RotateLeft(k)
        | Op::RotateRight(k) => say_index(out, k),
        _ => {}
    }
}

// An index, behind a colon.
fn say_index(out: &mut Answer, number: u128) {
    out.put(':');
    out.show(number);
}
