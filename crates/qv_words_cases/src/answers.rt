//! The answer to a case, and the cases on sorts, words and operators.

use crate::parsing::{byte, hex, listed_sort, number, sorts_of};
use crate::printing;
use crate::terms::{TermCommand, of_term};
use qv_cases_rows::{Answer, Cases, Words};
use qv_cases_terms::{operator, say_sort, say_word, sort, word};
use qv_sorts::{RankFault, op_named, rank};
use qv_words::{Op, Sort, Word, apply, result_sort};
use std::alloc::Global;

// What is asked of sorts and words.
enum WordCommand {
    Sort,
    Width,
    Word,
    Truth,
}

// What is asked of operators.
enum OpCommand {
    Apply,
    Result,
    Rank,
    Name,
    Named,
    Spelled,
}

enum Command {
    Word(WordCommand),
    Operator(OpCommand),
    Term(TermCommand),
}

static COMMANDS: [(&str, Command); 14] = [
    ("sort", Command::Word(WordCommand::Sort)),
    ("width", Command::Word(WordCommand::Width)),
    ("word", Command::Word(WordCommand::Word)),
    ("truth", Command::Word(WordCommand::Truth)),
    ("apply", Command::Operator(OpCommand::Apply)),
    ("result", Command::Operator(OpCommand::Result)),
    ("rank", Command::Operator(OpCommand::Rank)),
    ("name", Command::Operator(OpCommand::Name)),
    ("named", Command::Operator(OpCommand::Named)),
    ("spelled", Command::Operator(OpCommand::Spelled)),
    ("sort_of", Command::Term(TermCommand::Sort)),
    ("copy", Command::Term(TermCommand::Copy)),
    ("subst", Command::Term(TermCommand::Subst)),
    ("eval", Command::Term(TermCommand::Eval)),
];

/// The cases have no state.
#[derive(Drop)]
pub struct WordCases {
    pub alloc: Global,
}

impl Cases for WordCases {
    fn answer(&mut self, words: &mut Words<'_>, out: &mut Answer) {
        match words.pick(&COMMANDS) {
            Some(Command::Word(command)) => of_word(out, command, words),
            Some(Command::Operator(command)) => of_operator(self.alloc, out, command, words),
            Some(Command::Term(command)) => of_term(self.alloc, out, command, words.rest()),
            None => out.refuse(),
        }
    }
}

fn of_word(out: &mut Answer, command: &WordCommand, words: &mut Words<'_>) {
    match command {
        WordCommand::Sort => say_found(out, Sort::bits(words.number())),
        WordCommand::Width => width(out, sort(words.next())),
        WordCommand::Word => new_word(out, words),
        WordCommand::Truth => say_word(out, Word::truth(words.rest() == "true")),
    }
}

fn of_operator(alloc: Global, out: &mut Answer, command: &OpCommand, words: &mut Words<'_>) {
    match command {
        OpCommand::Apply => applied(alloc, out, words),
        OpCommand::Result => result(alloc, out, words),
        OpCommand::Rank => ranked(alloc, out, words),
        OpCommand::Name => name(out, operator(alloc, words.next())),
        OpCommand::Named => named(alloc, out, words),
        OpCommand::Spelled => found(out, &words.each(alloc, byte), &[]),
    }
}

// `sort WIDTH`, and the sort of a result.
fn say_found(out: &mut Answer, sort: Option<Sort>) {
    match sort {
        Some(sort) => say_sort(out, sort),
        None => out.say("none"),
    }
}

// `width SORT`
fn width(out: &mut Answer, sort: Option<Sort>) {
    match sort {
        Some(sort) => out.show(sort.width()),
        None => out.refuse(),
    }
}

// `word SORT VALUE`
fn new_word(out: &mut Answer, words: &mut Words<'_>) {
    match (sort(words.next()), hex(words.next())) {
        (Some(sort), Some(value)) => say_made(out, Word::new(sort, value)),
        _ => out.refuse(),
    }
}

fn say_made(out: &mut Answer, word: Option<Word>) {
    match word {
        Some(word) => say_word(out, word),
        None => out.say("none"),
    }
}

// `apply OPERATOR WORDS`
fn applied(alloc: Global, out: &mut Answer, words: &mut Words<'_>) {
    let op = operator(alloc, words.next());
    let args = words.each(alloc, word);
    match op {
        Some(op) => say_applied(alloc, out, op, &args),
        None => out.refuse(),
    }
}

fn say_applied(alloc: Global, out: &mut Answer, op: Op, args: &[Word]) {
    match sorts_of(alloc, args) {
        Some(sorts) if result_sort(op, &sorts).is_some() => say_word(out, apply(op, args)),
        _ => out.refuse(),
    }
}

// `result OPERATOR SORTS`
fn result(alloc: Global, out: &mut Answer, words: &mut Words<'_>) {
    let op = operator(alloc, words.next());
    let sorts = words.each(alloc, listed_sort);
    match op {
        Some(op) => say_found(out, result_sort(op, &sorts)),
        None => out.refuse(),
    }
}

// `rank OPERATOR SORTS`
fn ranked(alloc: Global, out: &mut Answer, words: &mut Words<'_>) {
    let op = operator(alloc, words.next());
    let sorts = words.each(alloc, listed_sort);
    match op {
        Some(op) => say_rank(out, rank(op, &sorts)),
        None => out.refuse(),
    }
}

fn say_rank(out: &mut Answer, rank: Result<Sort, RankFault>) {
    match rank {
        Ok(sort) => say_sort(out, sort),
        Err(fault) => out.debug(fault),
    }
}

// `name OPERATOR`
fn name(out: &mut Answer, op: Option<Op>) {
    match op {
        Some(op) => printing::name(out, op),
        None => out.refuse(),
    }
}

// `named NAME INDICES`
fn named(alloc: Global, out: &mut Answer, words: &mut Words<'_>) {
    let name = words.next();
    let indices = words.each(alloc, number);
    found(out, name.as_bytes(), &indices);
}

// Also `spelled BYTES`, a name without indices by its bytes.
fn found(out: &mut Answer, name: &[u8], indices: &[u128]) {
    match op_named(name, indices) {
        Ok(op) => out.debug(op),
        Err(fault) => out.debug(fault),
    }
}
