//! A lexer that is fed and asked line by line.

ghost use Rattle.std.specs.Prelude.{◌≡◌, ◌<◌, ◌^◌, option_map};
ghost use Rattle.qv_text.specs.Progress.{fed};
ghost use Rattle.qv_text.specs.Reading.{token_of};

use crate::show::{fault_name, kind_name, say_bytes, say_fault};
use qv_cases_rows::Answer;
use qv_text::{Lexed, Lexer, Token};
use std::alloc::Global;

// How many bytes a session takes at a time and in all.
const MOST: usize = 1 << 40;

/// What a line asks of a session.
pub enum Call {
    New,
    Feed,
    Finish,
    Next,
    Text,
}

#[derive(Drop)]
pub struct Session {
    lexer: Lexer,
    taken: usize,
    finished: bool,
    last: Option<Token>,
    ghost counted: { taken ≡ fed lexer },
    ghost small: { taken < 2 ^ 42 },
    ghost ended: { lexer.finished ≡ finished },
    ghost kept: { option_map token_of lexer.last ≡ last },
}

impl Session {
    pub fn new(alloc: Global) -> Session {
        Session {
            lexer: Lexer::new(alloc),
            taken: 0,
            finished: false,
            last: None,
        }
    }

    /// The answer to one line of a session.
    pub fn answer(&mut self, alloc: Global, call: &Call, text: &[u8], out: &mut Answer) {
        match call {
            Call::New => self.renew(alloc, out),
            Call::Feed => self.say_fed(text, out),
            Call::Finish => self.say_finished(out),
            Call::Next => say_lexed(out, &self.next()),
            Call::Text => self.say_text(out),
        }
    }

    fn renew(&mut self, alloc: Global, out: &mut Answer) {
        *self = Session::new(alloc);
        out.say("new");
    }

    fn say_fed(&mut self, text: &[u8], out: &mut Answer) {
        if self.feed(text) {
            out.say("fed ");
            out.show(self.taken);
        } else {
            out.refuse();
        }
    }

    fn say_finished(&mut self, out: &mut Answer) {
        self.finish();
        out.say("finished");
    }

    /// Feeds the text, where that may be done.
    pub fn feed(&mut self, text: &[u8]) -> bool {
        if self.finished || self.taken >= MOST || text.len() >= MOST {
            return false;
        }
        if self.lexer.feed(text).is_err() {
            return false;
        }
        self.taken += text.len();
        self.last = None;
        true
    }

    pub fn finish(&mut self) {
        self.lexer.finish();
        self.finished = true;
    }

    pub fn next(&mut self) -> Lexed {
        let lexed = self.lexer.next();
        if let Lexed::Token(token) = lexed {
            self.last = Some(token);
        }
        lexed
    }

    /// How many bytes were fed.
    pub fn taken(&self) -> usize {
        self.taken
    }

    /// Says the bytes of the token that was given last.
    pub fn say_text(&self, out: &mut Answer) {
        match self.last {
            Some(token) => say_bytes(out, self.lexer.text(&token)),
            None => out.say("no token"),
        }
    }
}

/// Says a lexer's answer.
pub fn say_lexed(out: &mut Answer, lexed: &Lexed) {
    match lexed {
        Lexed::Token(token) => say_token(out, token),
        Lexed::More => out.say("more"),
        Lexed::End => out.say("end"),
        Lexed::Fault(fault) => say_fault(out, fault_name(fault.kind), fault.place),
    }
}

/// Says a token's kind, its place and its end.
pub fn say_token(out: &mut Answer, token: &Token) {
    out.say(kind_name(token.kind));
    out.say(" ");
    out.show(token.place);
    out.say("-");
    out.show(token.end);
}
