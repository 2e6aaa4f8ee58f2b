//! Literals, as lines name them.

use qv_cases_rows::Answer;
use qv_cnf::Lit;
use std::alloc::{AllocError, Global};

/// The literal of a word.
pub(crate) fn literal(word: &str) -> Option<Lit> {
    Lit::new(word.parse::<i32>().ok()?)
}

/// Says literals, or that there is none.
pub(crate) fn say_all(out: &mut Answer, lits: &[Lit]) {
    if lits.is_empty() {
        out.say("none");
    }
    let mut gap = "";
    for lit in lits {
        out.say(gap);
        out.show(lit.number());
        gap = " ";
    }
}

/// Says literals in the order of their variables.
pub(crate) fn say_sorted(alloc: Global, out: &mut Answer, lits: &[Lit]) {
    match sorted(alloc, lits) {
        Ok(lits) => say_all(out, &lits),
        Err(_) => out.refuse(),
    }
}

/// Literals in the order of their variables.
pub(crate) fn sorted(alloc: Global, lits: &[Lit]) -> Result<Vec<Lit>, AllocError> {
    let mut lits = Vec::from_slice(alloc, lits)?;
    lits.sort()?;
    Ok(lits)
}
