//! The lexer.

ghost use Rattle.std.specs.Prelude.{◌≡◌, ℕ, ◌+◌, ◌<◌, ◌^◌, [], ◌++◌, length, drop, vec_len, ◌≤◌};
ghost use Rattle.std.specs.Prelude.{Some, None, true, false, option_map, OnOk, OnErr, IfSome};
ghost use Rattle.qv_text.specs.Reading.{token_of};
ghost use Rattle.qv_text.specs.Progress.{Progress, fed, Answers};

use crate::kinds::{LexFault, Lexed, Token};
use crate::scan::{Mode, Scanned, before_token, kind_of, look};
use std::alloc::{AllocError, Global};
use std::marker::Model;

/// No memory was to be had.
pub type NoMemory = AllocError;

/// A lexer that is fed a text in pieces.
#[derive(Debug, Drop)]
pub struct Lexer {
    /// The bytes that are kept, the first of which stands at the place `base`.
    buffer: Vec<u8>,
    base: u64,
    /// Where the bytes begin that no token and no white space has taken.
    start: usize,
    /// How many of those were looked at, and what they have shown.
    scanned: usize,
    mode: Mode,
    /// Whether they begin in a comment.
    comment: bool,
    finished: bool,
    /// The token that was given last, until more is fed.
    last: Option<Token>,
}

impl Model for Lexer {
    ghost use Rattle.qv_text.specs.Progress.{Progress};

    ghost Value = { Progress };

    ghost use Rattle.qv_text.specs.Inside.{progress_of, IsConsistent};

    ghost view = { progress_of };

    ghost invariant = { IsConsistent };
}

impl Lexer {
    /// A lexer that was fed nothing.
    pub fn new(alloc: Global) -> Lexer
        ensures { result ≡ record { place = 0; rest = []; finished = false; last = None } }
    {
        Lexer {
            buffer: Vec::new(alloc),
            base: 0,
            start: 0,
            scanned: 0,
            mode: Mode::Start,
            comment: false,
            finished: false,
            last: None,
        }
    }

    /// Takes the next bytes of the text. An `Err` changes nothing.
    pub fn feed(&mut self, bytes: &[u8]) -> Result<(), NoMemory>
        requires unfinished { self.old.finished ≡ false }
        requires room { fed self.old + length bytes.now < 2 ^ 62 }
        ensures ok { OnOk result
            (self.new ≡ record self.old { rest = self.old.rest ++ bytes.now; last = None }) }
        ensures err { OnErr result (self.new ≡ self.old) }
    {
        self.buffer.extend_from_slice(bytes)?;
        self.last = None;
        // What was given is dropped once it is half of what is kept, so that little is moved.
        if self.start >= self.buffer.len() - self.start {
            self.base += self.start as u64;
            drop_front(&mut self.buffer, self.start);
            self.start = 0;
        }
        Ok(())
    }

    /// Tells the lexer that the text ends here.
    pub fn finish(&mut self)
        ensures { self.new ≡ record self.old { finished = true } }
    {
        self.finished = true;
    }

    /// What comes next. After an answer other than a token the same is still to be read, so a fault
    /// is answered again from then on.
    pub fn next(&mut self) -> Lexed
        ensures answer { Answers self.old result self.new }
        ensures finished { self.new.finished ≡ self.old.finished }
        ensures fed { fed self.new ≡ fed self.old }
    {
        let (blank, comment) = before_token(&self.buffer[self.start..], self.scanned, self.comment);
        self.start += blank;
        self.comment = comment;
        if self.start == self.buffer.len() {
            return if self.finished {
                Lexed::End
            } else {
                Lexed::More
            };
        }
        let rest = &self.buffer[self.start..];
        let place = self.base + self.start as u64;
        match look(rest, self.mode, self.scanned, self.finished) {
            Scanned::Open(mode) => {
                self.scanned = rest.len();
                self.mode = mode;
                Lexed::More
            }
            Scanned::Fault(kind) => Lexed::Fault(LexFault { place, kind }),
            Scanned::Token(kind, len) => {
                let kind = kind_of(kind, &rest[..len]);
                let token = Token {
                    kind,
                    place,
                    end: place + len as u64,
                };
                self.start += len;
                self.scanned = 0;
                self.mode = Mode::Start;
                self.last = Some(token);
                Lexed::Token(token)
            }
        }
    }

    /// The bytes of the token that was given last, if nothing was fed since.
    pub fn text(&self, token: &Token) -> &[u8]
        requires { option_map token_of self.now.last ≡ Some token.now }
        ensures { IfSome self.now.last (λ l. result.now ≡ l.text) }
    {
        let from = (token.place - self.base) as usize;
        let to = (token.end - self.base) as usize;
        &self.buffer[from..to]
    }
}

fn drop_front(bytes: &mut Vec<u8>, n: usize)
    requires { n ≤ vec_len bytes.old }
    ensures { bytes.new.items ≡ drop n bytes.old.items }
{
    let left = bytes.len() - n;
    bytes.copy_within(n.., 0);
    bytes.truncate(left);
}
