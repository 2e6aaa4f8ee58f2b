//! Prints what the lexer and the reader answer to the cases of standard input, a line for each. `io`
//! stands before cases of sources and sinks, and `print` before those of values, sorts and symbols as
//! text.
#![tactic(auto)]

mod cases;
mod commands;
mod io_cases;
mod objects;
mod printing;
mod sessions;
mod show;
mod tokens;

use cases::{numbers, piece_size, text_of};
use io_cases::say_objects;
use printing::say_printed;
use qv_cases_rows::{Answer, Cases, Words, answer_all};
use sessions::{Call, Session};
use std::alloc::Global;
use std::io;

enum Command {
    Tokens,
    Texts,
    Commands,
    Counts,
    Copy,
    Session(Call),
}

static COMMANDS: [(&str, Command); 10] = [
    ("tokens", Command::Tokens),
    ("texts", Command::Texts),
    ("commands", Command::Commands),
    ("counts", Command::Counts),
    ("copy", Command::Copy),
    ("new", Command::Session(Call::New)),
    ("feed", Command::Session(Call::Feed)),
    ("finish", Command::Session(Call::Finish)),
    ("next", Command::Session(Call::Next)),
    ("text", Command::Session(Call::Text)),
];

// What a line begins with that is no text.
enum Group {
    Objects,
    Printing,
}

static GROUPS: [(&str, Group); 2] = [("io", Group::Objects), ("print", Group::Printing)];

#[derive(Drop)]
struct TextCases<'s> {
    alloc: Global,
    session: &'s mut Session,
}

impl Cases for TextCases<'_> {
    fn answer(&mut self, words: &mut Words<'_>, out: &mut Answer) {
        let line = words.rest();
        let mut words = Words::new(line);
        match words.pick(&GROUPS) {
            Some(Group::Objects) => say_objects(self.alloc, words.rest(), out),
            Some(Group::Printing) => say_printed(self.alloc, words.rest(), out),
            None => answer_text(self.alloc, self.session, line, out),
        }
    }
}

// A case is words, and then, behind a quote, a text.
fn answer_text(alloc: Global, session: &mut Session, line: &str, out: &mut Answer) {
    let (head, written) = line.split_once('"').unwrap_or((line, "\""));
    match text_of(alloc, written) {
        Some(text) => answer(alloc, session, &mut Words::new(head), text, out),
        None => out.refuse(),
    }
}

fn answer(
    alloc: Global,
    session: &mut Session,
    words: &mut Words<'_>,
    text: Vec<u8>,
    out: &mut Answer,
) {
    match words.pick(&COMMANDS) {
        Some(Command::Tokens) => say_tokens(alloc, words, &text, out),
        Some(Command::Texts) => say_texts(alloc, words, &text, out),
        Some(Command::Commands) => say_commands(alloc, words, text, false, out),
        Some(Command::Counts) => say_commands(alloc, words, text, true, out),
        Some(Command::Copy) => commands::copy(alloc, words.number(), text, out),
        Some(Command::Session(call)) => session.answer(alloc, call, &text, out),
        None => out.refuse(),
    }
    if !words.are_read() {
        out.refuse();
    }
}

fn say_tokens(alloc: Global, words: &mut Words<'_>, text: &[u8], out: &mut Answer) {
    match piece_size(words) {
        Some(piece) => tokens::of_whole(alloc, piece, text, out),
        None => out.refuse(),
    }
}

fn say_texts(alloc: Global, words: &mut Words<'_>, text: &[u8], out: &mut Answer) {
    match piece_size(words) {
        Some(piece) => tokens::one_by_one(alloc, piece, text, out),
        None => out.refuse(),
    }
}

fn say_commands(
    alloc: Global,
    words: &mut Words<'_>,
    text: Vec<u8>,
    is_short: bool,
    out: &mut Answer,
) {
    match piece_size(words) {
        Some(piece) => match numbers(alloc, words.next()) {
            Some(failing) => commands::read_all(alloc, piece, failing, text, is_short, out),
            None => out.refuse(),
        },
        None => out.refuse(),
    }
}

fn main(rt: HostRuntime) -> io::Result<()> {
    let alloc = rt.alloc();
    let mut session = Session::new(alloc);
    let mut cases = TextCases {
        alloc,
        session: &mut session,
    };
    answer_all(&rt, &mut cases)
}
