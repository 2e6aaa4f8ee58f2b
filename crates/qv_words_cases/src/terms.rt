//! Cases on terms.

use crate::readiness::{has_words, is_plain};
use crate::{forms, printing};
use qv_cases_rows::{Answer, Words};
use qv_cases_terms::{say_sort, say_word, word};
use qv_terms::{Term, Values, copy, eval, sort_of, subst};
use qv_words::Word;
use std::alloc::Global;

/// What is asked of a term.
pub enum TermCommand {
    Sort,
    Copy,
    Subst,
    Eval,
}

/// The answer to a command, and to the terms behind it.
pub fn of_term(alloc: Global, out: &mut Answer, command: &TermCommand, case: &str) {
    match command {
        TermCommand::Sort => sort(alloc, out, case),
        TermCommand::Copy => copied(alloc, out, case),
        TermCommand::Subst => replaced(alloc, out, case),
        TermCommand::Eval => value(alloc, out, case),
    }
}

// `sort_of TERM`
fn sort(alloc: Global, out: &mut Answer, case: &str) {
    match forms::term(alloc, case) {
        Some(term) => say_sort_of(out, &term),
        None => out.refuse(),
    }
}

fn say_sort_of(out: &mut Answer, term: &Term) {
    match sort_of(term) {
        Ok(sort) => say_sort(out, sort),
        Err(_) => out.say("none"),
    }
}

// `copy TERM`
fn copied(alloc: Global, out: &mut Answer, case: &str) {
    match forms::term(alloc, case) {
        Some(term) => say_term(out, copy(alloc, &term).ok()),
        None => out.refuse(),
    }
}

fn say_term(out: &mut Answer, term: Option<Term>) {
    match term {
        Some(term) => printing::term(out, &term),
        None => out.refuse(),
    }
}

// `subst TERMS / TERM`
fn replaced(alloc: Global, out: &mut Answer, case: &str) {
    let (given, text) = case.split_once('/').unwrap_or((case, ""));
    let mut terms = Vec::new(alloc);
    if !forms::read_all(alloc, given, &mut terms) {
        out.refuse();
    }
    match forms::term(alloc, text) {
        Some(term) => say_replaced(alloc, out, &term, &terms),
        None => out.refuse(),
    }
}

fn say_replaced(alloc: Global, out: &mut Answer, term: &Term, terms: &[Option<Term>]) {
    if is_plain(term) {
        say_term(out, subst(alloc, term, terms).ok());
    } else {
        out.refuse();
    }
}

// `eval WORDS / WORDS / TERM`
fn value(alloc: Global, out: &mut Answer, case: &str) {
    let (consts, behind) = case.split_once('/').unwrap_or((case, ""));
    let (levels, text) = behind.split_once('/').unwrap_or((behind, ""));
    let values = Values {
        consts: words(alloc, out, consts),
        levels: words(alloc, out, levels),
    };
    match forms::term(alloc, text) {
        Some(term) => say_value(out, &term, &values),
        None => out.refuse(),
    }
}

fn words(alloc: Global, out: &mut Answer, text: &str) -> Vec<Word> {
    let mut words = Words::new(text);
    let all = words.each(alloc, word);
    if !words.are_read() {
        out.refuse();
    }
    all
}

fn say_value(out: &mut Answer, term: &Term, values: &Values) {
    if sort_of(term).is_ok() && is_plain(term) && has_words(term, values) {
        say_word(out, eval(term, values));
    } else {
        out.refuse();
    }
}
