//! Prints what the expressions of standard input stand for, a line of answers for each line of it:
//! first its constants and definitions, `(const x S)` and `(define f ((x S) ..) S t)`, with
//! `(open)` and `(close)` for levels, and between them `(sort S)` and `(term t)`.
#![tactic(auto)]

mod items;
mod printing;
mod repeated;
mod scopes;
mod session;

use items::command_of;
use qv_cases_rows::{Answer, Cases, Words, answer_all};
use qv_io::MemSource;
use qv_sexpr::Reader;
use repeated::text_of;
use session::Session;
use std::alloc::Global;
use std::io;

#[derive(Drop)]
struct ElabCases {
    alloc: Global,
}

impl Cases for ElabCases {
    fn answer(&mut self, words: &mut Words<'_>, out: &mut Answer) {
        match text_of(self.alloc, words.rest()) {
            Some(text) => answer(self.alloc, text, out),
            None => out.refuse(),
        }
    }
}

fn answer(alloc: Global, text: Vec<u8>, out: &mut Answer) {
    let most = text.len();
    let mut source = MemSource::new(text, 4096, Vec::new(alloc));
    match Reader::new(alloc) {
        Ok(mut reader) => follow(alloc, &mut source, &mut reader, most, out),
        Err(_) => out.refuse(),
    }
}

// The answers to the commands of a text.
fn follow(
    alloc: Global,
    source: &mut MemSource,
    reader: &mut Reader,
    most: usize,
    out: &mut Answer,
) {
    let mut session = Session::new(alloc);
    'commands: for number in 0..most {
        let Some(expr) = command_of(source, reader, out) else {
            break;
        };
        if number > 0 {
            out.say(" | ");
        }
        session.answer(&expr, out);
    }
}

fn main(rt: HostRuntime) -> io::Result<()> {
    let mut cases = ElabCases { alloc: rt.alloc() };
    answer_all(&rt, &mut cases)
}
