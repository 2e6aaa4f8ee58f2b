//! Terms, as they are printed: each distinct one below them once, children first, by its number.

ghost use Rattle.std.specs.Prelude.{◌↔◌, ◌<◌, IsTrue, length};

use qv_cases_rows::Answer;
use qv_sorts::name_of;
use qv_store::{Id, Node, Store, Walk};
use qv_words::{Op, Sort};
use std::alloc::Global;
use std::str;

// A term with more distinct ones below it is printed in short.
const MOST: usize = 40;

/// A sort.
pub fn say_sort(out: &mut Answer, sort: Sort) {
    match sort {
        Sort::Bool => out.say("bool"),
        Sort::Bits(width) => out.show(width),
    }
}

// An index, behind a colon.
fn say_index(out: &mut Answer, number: u128) {
    out.put(':');
    out.show(number);
}

// An operator's name with its indices.
fn say_operator(out: &mut Answer, op: Op) {
    out.give(str::from_utf8(name_of(op)).ok());
    match op {
        Op::Extract(i, j) => {
            say_index(out, i);
            say_index(out, j);
        }
        Op::Repeat(k)
        | Op::ZeroExtend(k)
        | Op::SignExtend(k)
        | Op::RotateLeft(k)
        | Op::RotateRight(k) => say_index(out, k),
        _ => {}
    }
}

// A letter, a number and a sort.
fn say_named(out: &mut Answer, letter: char, number: u64, sort: Sort) {
    out.put(letter);
    out.show(number);
    out.put(':');
    say_sort(out, sort);
}

// The top of a term.
fn say_top(out: &mut Answer, node: &Node) {
    match node {
        Node::Const { index, sort } => say_named(out, 'c', *index, *sort),
        Node::Var { level, sort } => say_named(out, 'v', *level, *sort),
        Node::Lit { word } => {
            say_sort(out, word.sort());
            out.put('=');
            out.hex(word.value());
        }
        Node::App { op, .. } => say_operator(out, *op),
        Node::All { level, sort, .. } => say_named(out, 'A', *level, *sort),
        Node::Ex { level, sort, .. } => say_named(out, 'E', *level, *sort),
    }
}

// The top of a term, with its children by their numbers in a walk.
fn say_node(out: &mut Answer, walk: &Walk, node: &Node) {
    say_top(out, node);
    for kid in node.children() {
        if walk.contains(*kid) {
            out.put(' ');
            out.show(walk.position(*kid));
        } else {
            out.refuse();
        }
    }
}

// Whether a store has a term of this number.
fn has(store: &Store, id: Id) -> bool
    ensures { IsTrue result ↔ (id < length store.now) }
{
    id.number() < store.len()
}

/// A term.
pub fn say_term(alloc: Global, out: &mut Answer, store: &Store, id: Id) {
    if !has(store, id) {
        out.refuse();
        return;
    }
    let mut walk = Walk::new(alloc);
    match walk.visit(store, id) {
        Ok(()) => say_walk(out, store, &walk, id),
        Err(_) => out.refuse(),
    }
}

fn say_walk(out: &mut Answer, store: &Store, walk: &Walk, id: Id)
    requires { id < length store.now }
{
    if walk.len() > MOST {
        out.show(walk.len());
        out.say(" terms, depth ");
        out.show(store.depth(id));
        out.say(", ");
        say_node(out, walk, store.node(id));
        return;
    }
    let mut is_first = true;
    for id in walk.ids() {
        if !is_first {
            out.say("; ");
        }
        is_first = false;
        say_here(out, store, walk, *id);
    }
}

// A term of a walk, if the store has it.
fn say_here(out: &mut Answer, store: &Store, walk: &Walk, id: Id) {
    if has(store, id) {
        say_node(out, walk, store.node(id));
    } else {
        out.refuse();
    }
}
