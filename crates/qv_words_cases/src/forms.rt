//! Terms, as cases write them: `c0:8`, `v0:bool`, `8:ff`, `(bvadd T T)` and `(forall:0:8 T)`.

use qv_cases_terms::{operator, sort, word};
use qv_terms::Term;
use qv_words::{Op, Sort};
use std::alloc::Global;

// What stands behind an open parenthesis.
#[derive(Drop)]
enum Head {
    Apply(Op),
    ForAll(u64, Sort),
    Exists(u64, Sort),
}

// A form that isn't closed yet, with the terms in it so far.
#[derive(Drop)]
struct Unclosed {
    head: Head,
    kids: Vec<Term>,
}

/// The one term of a text.
pub fn term(alloc: Global, text: &str) -> Option<Term> {
    let mut found = Vec::new(alloc);
    if read_all(alloc, text, &mut found) && found.len() == 1 {
        found.pop()?
    } else {
        None
    }
}

/// Adds the terms of a text, where `-` stands for none. Whether they could be read.
pub fn read_all(alloc: Global, text: &str, done: &mut Vec<Option<Term>>) -> bool {
    let mut unclosed = Vec::new(alloc);
    let mut are_read = true;
    for word in text.split_whitespace() {
        let is_read = read(alloc, word, done, &mut unclosed);
        are_read = are_read && is_read;
    }
    are_read && unclosed.is_empty()
}

// Takes a word: an open form or a term, with so many forms closed behind it.
fn read(
    alloc: Global,
    word: &str,
    done: &mut Vec<Option<Term>>,
    unclosed: &mut Vec<Unclosed>,
) -> bool {
    if word == "-" {
        done.push(None).is_ok()
    } else {
        let (first, _) = word.split_once(')').unwrap_or((word, ""));
        let closed = word.len().saturating_sub(first.len());
        read_first(alloc, first, done, unclosed) && close_each(alloc, closed, done, unclosed)
    }
}

// Closes so many forms.
fn close_each(
    alloc: Global,
    count: usize,
    done: &mut Vec<Option<Term>>,
    unclosed: &mut Vec<Unclosed>,
) -> bool {
    let mut are_closed = true;
    for _ in 0..count {
        let is_closed = close(alloc, done, unclosed);
        are_closed = are_closed && is_closed;
    }
    are_closed
}

fn read_first(
    alloc: Global,
    text: &str,
    done: &mut Vec<Option<Term>>,
    unclosed: &mut Vec<Unclosed>,
) -> bool {
    match text.strip_prefix('(') {
        Some(text) => open(alloc, text, unclosed),
        None => put(leaf(text), done, unclosed),
    }
}

// Goes into a form.
fn open(alloc: Global, text: &str, unclosed: &mut Vec<Unclosed>) -> bool {
    match head_of(alloc, text) {
        Some(head) => {
            let kids = Vec::new(alloc);
            unclosed.push(Unclosed { head, kids }).is_ok()
        }
        None => false,
    }
}

// Puts a term behind those of the innermost form.
fn put(term: Option<Term>, done: &mut Vec<Option<Term>>, unclosed: &mut [Unclosed]) -> bool {
    match term {
        Some(term) => put_term(term, done, unclosed),
        None => false,
    }
}

fn put_term(term: Term, done: &mut Vec<Option<Term>>, unclosed: &mut [Unclosed]) -> bool {
    match unclosed.last_mut() {
        Some(form) => form.kids.push(term).is_ok(),
        None => done.push(Some(term)).is_ok(),
    }
}

// Closes the innermost form.
fn close(alloc: Global, done: &mut Vec<Option<Term>>, unclosed: &mut Vec<Unclosed>) -> bool {
    match unclosed.pop() {
        Some(form) => put(closed(alloc, form), done, unclosed),
        None => false,
    }
}

fn closed(alloc: Global, form: Unclosed) -> Option<Term> {
    let Unclosed { head, kids } = form;
    match head {
        Head::Apply(op) => Some(Term::App { op, kids }),
        Head::ForAll(level, sort) => {
            let body = only(alloc, kids)?;
            Some(Term::All { level, sort, body })
        }
        Head::Exists(level, sort) => {
            let body = only(alloc, kids)?;
            Some(Term::Ex { level, sort, body })
        }
    }
}

// The one term of a list.
fn only(alloc: Global, mut terms: Vec<Term>) -> Option<Box<Term>> {
    if terms.len() == 1 {
        Box::new(alloc, terms.pop()?).ok()
    } else {
        None
    }
}

// The head of a form.
fn head_of(alloc: Global, text: &str) -> Option<Head> {
    let (name, behind) = text.split_once(':').unwrap_or((text, ""));
    match name {
        "forall" => {
            let (level, sort) = place(behind)?;
            Some(Head::ForAll(level, sort))
        }
        "exists" => {
            let (level, sort) = place(behind)?;
            Some(Head::Exists(level, sort))
        }
        _ => Some(Head::Apply(operator(alloc, text)?)),
    }
}

// A constant's index or a variable's level, and its sort.
fn place(text: &str) -> Option<(u64, Sort)> {
    let (number, of) = text.split_once(':')?;
    Some((number.parse::<u64>().ok()?, sort(of)?))
}

// A constant, a variable or a literal.
fn leaf(text: &str) -> Option<Term> {
    if let Some(text) = text.strip_prefix('c') {
        let (index, sort) = place(text)?;
        Some(Term::Const { index, sort })
    } else if let Some(text) = text.strip_prefix('v') {
        let (level, sort) = place(text)?;
        Some(Term::Var { level, sort })
    } else {
        Some(Term::Lit { word: word(text)? })
    }
}
