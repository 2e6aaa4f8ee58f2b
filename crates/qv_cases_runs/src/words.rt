//! The words of a command.
use crate::case::Budgets;
use qv_cases_rows::Answer;
use std::alloc::Global;

/// The words of `solve` with these budgets.
pub fn solve_words(alloc: Global, out: &mut Answer, budgets: Budgets) -> Vec<String> {
    let mut words = words_with(alloc, out, &["solve", "script", "cert"]);
    add_budget(alloc, out, &mut words, "--conflicts", budgets.conflicts);
    add_budget(alloc, out, &mut words, "--instances", budgets.instances);
    add_budget(alloc, out, &mut words, "--variables", budgets.variables);
    words
}

/// The words of `check`.
pub fn check_words(alloc: Global, out: &mut Answer) -> Vec<String> {
    words_with(alloc, out, &["check", "script", "cert"])
}

fn words_with(alloc: Global, out: &mut Answer, all: &[&str]) -> Vec<String> {
    let mut words = Vec::new(alloc);
    for word in all {
        add_word(&mut words, String::from_str(alloc, word).ok(), out);
    }
    words
}

// Adds the words of a budget, if it isn't 0.
fn add_budget(alloc: Global, out: &mut Answer, words: &mut Vec<String>, name: &str, value: u64) {
    if value > 0 {
        add_word(words, String::from_str(alloc, name).ok(), out);
        add_word(words, format!(in alloc; "{value}").ok(), out);
    }
}

/// Adds a word that there was memory for.
pub fn add_word(words: &mut Vec<String>, word: Option<String>, out: &mut Answer) {
    let is_kept = match word {
        Some(word) => words.push(word).is_ok(),
        None => false,
    };
    if !is_kept {
        out.refuse();
    }
}
