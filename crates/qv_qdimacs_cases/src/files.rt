//! Prefixes and clauses, as cases write them.

use qv_cases_rows::Answer;
use qv_cnf::{Lit, Packed};
use qv_qdimacs::Quantified;
use qv_store::Quant;
use std::alloc::Global;

/// The prefix that a case writes, as `a1 e2`.
pub fn prefix_of(alloc: Global, text: &str, out: &mut Answer) -> Vec<Quantified> {
    let mut prefix = Vec::new(alloc);
    for word in text.split_ascii_whitespace() {
        add(&mut prefix, quantified(word), out);
    }
    prefix
}

fn quantified(word: &str) -> Option<Quantified> {
    let (letter, number) = word.split_at_checked(1)?;
    let quant = match letter {
        "a" => Quant::Forall,
        "e" => Quant::Exists,
        _ => return None,
    };
    let variable = number.parse::<u32>().ok()?;
    Some(Quantified { quant, variable })
}

/// The clauses that a case writes, each of which ends with a `0`.
pub fn clauses_of(alloc: Global, text: &str, out: &mut Answer) -> Packed {
    let mut clauses = Packed::new(alloc);
    let mut lits = Vec::new(alloc);
    for word in text.split_ascii_whitespace() {
        if word == "0" {
            push(&mut clauses, &lits, out);
            lits.clear();
        } else {
            add(&mut lits, literal(word), out);
        }
    }
    clauses
}

fn literal(word: &str) -> Option<Lit> {
    Lit::new(word.parse::<i32>().ok()?)
}

fn push(clauses: &mut Packed, lits: &[Lit], out: &mut Answer) {
    if clauses.push(lits).is_err() {
        out.refuse();
    }
}

// Adds what was read.
fn add<T: Drop>(list: &mut Vec<T>, read: Option<T>, out: &mut Answer) {
    let is_kept = match read {
        Some(one) => list.push(one).is_ok(),
        None => false,
    };
    if !is_kept {
        out.refuse();
    }
}
