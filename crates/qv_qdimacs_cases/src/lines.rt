//! Lines of proofs, and the words in them.

ghost use Rattle.qv_cnf.specs.LratLine.{line_of};
ghost use Rattle.qv_lrat_text.specs.Grammar.{HasIds};

use crate::bytes::{bytes_of, say_bytes, say_quoted};
use crate::steps::{addition, deletion, is_printable, say_step};
use qv_cases_rows::{Answer, Words};
use qv_cnf::Step;
use qv_lrat_text::decimal::{push_number, read_i64, read_number};
use qv_lrat_text::words::{is_blank, is_byte_word, push_word, split_word};
use qv_lrat_text::{LineFault, print_line, read_line};
use std::alloc::Global;
use std::fmt::Display;

// One more than the greatest magnitude of a signed number.
const SIGNED_END: u128 = 1 << 63;

enum Call {
    Line,
    Add,
    Delete,
    Words,
    Blanks,
    Changes,
    Byte,
    Unsigned,
    Signed,
    Push,
}

static CALLS: [(&str, Call); 10] = [
    ("line", Call::Line),
    ("add", Call::Add),
    ("delete", Call::Delete),
    ("words", Call::Words),
    ("blanks", Call::Blanks),
    ("changes", Call::Changes),
    ("byte", Call::Byte),
    ("unsigned", Call::Unsigned),
    ("signed", Call::Signed),
    ("push", Call::Push),
];

/// Says what comes of a line of a proof, or of what stands in one.
pub fn say_lrat(alloc: Global, words: &mut Words<'_>, out: &mut Answer) {
    match words.pick(&CALLS) {
        Some(call) => answer(alloc, call, words, out),
        None => out.refuse(),
    }
}

fn answer(alloc: Global, call: &Call, words: &mut Words<'_>, out: &mut Answer) {
    match call {
        Call::Line => say_line(alloc, &bytes_of(alloc, words.rest(), out), out),
        Call::Add => say_printed(alloc, &addition(alloc, words, out), out),
        Call::Delete => say_printed(alloc, &deletion(alloc, words), out),
        Call::Words => say_words(&bytes_of(alloc, words.rest(), out), out),
        Call::Blanks => say_blanks(&bytes_of(alloc, words.rest(), out), out),
        Call::Changes => say_changes(alloc, words, out),
        Call::Byte => say_byte_word(alloc, words, out),
        Call::Unsigned => say_unsigned(alloc, words, out),
        Call::Signed => say_signed(alloc, words, out),
        Call::Push => say_pushed(alloc, words, out),
    }
}

// The step that a line says, and the line that is printed for it.
fn say_line(alloc: Global, line: &[u8], out: &mut Answer) {
    match read_line(alloc, line) {
        Ok(step) => say_read(alloc, &step, out),
        Err(LineFault::Form) => out.say("form"),
        Err(LineFault::NoMemory) => out.refuse(),
    }
}

fn say_read(alloc: Global, step: &Step, out: &mut Answer)
    requires { HasIds (line_of step.now) }
{
    let mut printed = Vec::new(alloc);
    if print_line(step, &mut printed).is_err() {
        out.refuse();
    }
    say_step(out, step);
    out.say(" -> ");
    say_quoted(out, &printed);
}

// The line that is printed for a step, and behind it the one for the step that is read from it.
fn say_printed(alloc: Global, step: &Step, out: &mut Answer) {
    if is_printable(step) {
        say_again(alloc, step, out);
    } else {
        out.refuse();
    }
}

fn say_again(alloc: Global, step: &Step, out: &mut Answer)
    requires { HasIds (line_of step.now) }
{
    let mut printed = Vec::new(alloc);
    let mut again = Vec::new(alloc);
    if print_line(step, &mut printed).is_err() {
        out.refuse();
    }
    print_again(alloc, &printed, b"form", &mut again, out);
    out.put('"');
    say_bytes(out, &printed);
    say_bytes(out, &again);
    out.put('"');
}

// Prints a line for the step that is read from this one, or adds a word where it is out of form.
fn print_again(alloc: Global, line: &[u8], form: &[u8], printed: &mut Vec<u8>, out: &mut Answer) {
    let is_printed = match read_line(alloc, line) {
        Ok(step) => print_line(&step, printed).is_ok(),
        Err(LineFault::Form) => printed.extend_from_slice(form).is_ok(),
        Err(LineFault::NoMemory) => false,
    };
    if !is_printed {
        out.refuse();
    }
}

// The words of a text.
fn say_words(text: &[u8], out: &mut Answer) {
    let mut rest = text;
    while let Some((word, after)) = split_word(rest) {
        say_quoted(out, word);
        rest = after;
    }
}

// `_` for each byte of a text that is a blank, and `x` for each other one.
fn say_blanks(text: &[u8], out: &mut Answer) {
    for byte in text {
        out.put(if is_blank(*byte) { '_' } else { 'x' });
    }
}

// What is printed for the line with each byte in turn at a place, where it is read: `PLACE LINE`.
fn say_changes(alloc: Global, words: &mut Words<'_>, out: &mut Answer) {
    let place = words.number();
    let mut line = bytes_of(alloc, words.rest(), out);
    let mut printed = Vec::new(alloc);
    change(alloc, &mut line, place, &mut printed, out);
    say_quoted(out, &printed);
}

fn change(
    alloc: Global,
    line: &mut Vec<u8>,
    place: usize,
    printed: &mut Vec<u8>,
    out: &mut Answer,
) {
    if place >= line.len() {
        out.refuse();
        return;
    }
    'bytes: for byte in 0..=u8::MAX {
        line[place] = byte;
        print_again(alloc, line, b"", printed, out);
    }
}

// Whether a word is the one byte: `BYTE WORD`.
fn say_byte_word(alloc: Global, words: &mut Words<'_>, out: &mut Answer) {
    let bytes = bytes_of(alloc, words.next(), out);
    let word = bytes_of(alloc, words.rest(), out);
    match bytes.last() {
        Some(byte) => out.say(yes_or_no(is_byte_word(&word, *byte))),
        None => out.refuse(),
    }
}

fn yes_or_no(is_so: bool) -> &'static str {
    if is_so { "yes" } else { "no" }
}

// The number of a word without a sign: `LEAST MOST WORD`.
fn say_unsigned(alloc: Global, words: &mut Words<'_>, out: &mut Answer) {
    let least = words.number();
    let most = words.number();
    let word = bytes_of(alloc, words.rest(), out);
    say_number(out, read_number(&word, least, most));
}

// The number of a word that may have a minus: `MOST WORD`.
fn say_signed(alloc: Global, words: &mut Words<'_>, out: &mut Answer) {
    let most = words.number();
    let word = bytes_of(alloc, words.rest(), out);
    if most < SIGNED_END {
        say_number(out, read_i64(&word, most));
    } else {
        out.refuse();
    }
}

// A number that is there, or `none`.
fn say_number<N: Display + Drop>(out: &mut Answer, number: Option<N>) {
    match number {
        Some(number) => out.show(number),
        None => out.say("none"),
    }
}

// A word and a number, printed one behind the other: `WORD NUMBER`.
fn say_pushed(alloc: Global, words: &mut Words<'_>, out: &mut Answer) {
    let word = bytes_of(alloc, words.next(), out);
    let number = words.number::<i128>();
    let mut printed = Vec::new(alloc);
    if push_word(&word, &mut printed).is_err() || push_number(number, &mut printed).is_err() {
        out.refuse();
    }
    say_quoted(out, &printed);
}
