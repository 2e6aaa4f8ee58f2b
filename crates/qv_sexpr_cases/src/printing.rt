//! Values, sorts and symbols as text.

ghost use Rattle.std.specs.Prelude.{IfSome};
ghost use Rattle.qv_words.specs.Sort.{IsLawful};

use qv_cases_rows::{Answer, Words};
use qv_script_values::{push_definition, push_sort, push_symbol, push_value};
use qv_words::Sort;
use std::alloc::Global;

enum Command {
    Value,
    Sort,
    Symbol,
    Definition,
}

static COMMANDS: [(&str, Command); 4] = [
    ("value", Command::Value),
    ("sort", Command::Sort),
    ("symbol", Command::Symbol),
    ("definition", Command::Definition),
];

/// Says a value, a sort, a symbol or a definition as text.
pub fn say_printed(alloc: Global, line: &str, out: &mut Answer) {
    let mut words = Words::new(line);
    match words.pick(&COMMANDS) {
        Some(command) => answer(alloc, command, &mut words, out),
        None => out.refuse(),
    }
    if !words.are_read() || !words.is_empty() {
        out.refuse();
    }
}

// The answer to a command.
fn answer(alloc: Global, command: &Command, words: &mut Words<'_>, out: &mut Answer) {
    let mut text = Vec::new(alloc);
    let was_done = match command {
        Command::Value => value(words, &mut text),
        Command::Sort => sort_text(words, &mut text),
        Command::Symbol => push_symbol(words.rest().as_bytes(), &mut text).is_ok(),
        Command::Definition => definition(words, &mut text),
    };
    if was_done {
        say(out, &text);
    } else {
        out.refuse();
    }
}

// Bytes, of which those that are no printable ASCII and backslashes are escaped.
fn say(out: &mut Answer, text: &[u8]) {
    for byte in text {
        match *byte {
            32..=91 | 93..=126 => out.put(char::from(*byte)),
            other => out.escape(other),
        }
    }
}

// The sort of a width, or `Bool` at 0.
fn sort(words: &mut Words<'_>) -> Option<Sort>
    ensures { IfSome result IsLawful }
{
    match words.number() {
        0 => Some(Sort::Bool),
        width => Sort::bits(width),
    }
}

// `value WIDTH VALUE`
fn value(words: &mut Words<'_>, text: &mut Vec<u8>) -> bool {
    match sort(words) {
        Some(sort) => push_value(sort, words.number(), text).is_ok(),
        None => false,
    }
}

// `sort WIDTH`
fn sort_text(words: &mut Words<'_>, text: &mut Vec<u8>) -> bool {
    match sort(words) {
        Some(sort) => push_sort(sort, text).is_ok(),
        None => false,
    }
}

// `definition WIDTH VALUE NAME`
fn definition(words: &mut Words<'_>, text: &mut Vec<u8>) -> bool {
    match sort(words) {
        Some(sort) => {
            let value = words.number();
            push_definition(words.rest().as_bytes(), sort, value, text).is_ok()
        }
        None => false,
    }
}
