//! Files as terms.

use crate::files::{clauses_of, prefix_of};
use qv_cases_rows::Answer;
use qv_cases_terms::say_term;
use qv_qdimacs::{Qdimacs, Translated, translate};
use qv_store::Store;
use std::alloc::Global;

/// Says the term of a file and its outer variables, or how large it is.
pub fn say_file(alloc: Global, text: &str, is_size: bool, out: &mut Answer) {
    let (prefix, clauses) = text.split_once('/').unwrap_or(("", "none"));
    let file = Qdimacs {
        prefix: prefix_of(alloc, prefix, out),
        clauses: clauses_of(alloc, clauses, out),
    };
    let mut store = Store::new(alloc);
    match translate(alloc, &mut store, &file) {
        Ok(translated) => say_translated(alloc, &store, &translated, is_size, out),
        Err(_) => out.refuse(),
    }
}

fn say_translated(
    alloc: Global,
    store: &Store,
    translated: &Translated,
    is_size: bool,
    out: &mut Answer,
) {
    if is_size {
        say_size(store, translated, out);
    } else {
        say_term(alloc, out, store, translated.formula);
        say_outer(&translated.outer, out);
    }
}

fn say_outer(outer: &[u32], out: &mut Answer) {
    out.say(" :");
    for variable in outer {
        out.put(' ');
        out.show(*variable);
    }
}

fn say_size(store: &Store, translated: &Translated, out: &mut Answer) {
    let id = translated.formula;
    if id.number() < store.len() {
        out.show(store.len());
        out.put(' ');
        out.show(store.depth(id));
    } else {
        out.refuse();
    }
}
