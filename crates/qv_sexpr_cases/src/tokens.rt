//! The tokens of a text.

ghost use Rattle.std.specs.Prelude.{◌≡◌, ◌≤◌, IfSome};
ghost use Rattle.std.specs.List.{flat_map};

use crate::sessions::{Session, say_lexed, say_token};
use crate::show::{fault_name, say_fault};
use qv_cases_rows::Answer;
use qv_text::{LexFault, Lexed, Token, lex};
use std::alloc::Global;

/// The tokens that `lex` finds in a text that comes in pieces of so many bytes, and what ends them.
pub fn of_whole(alloc: Global, piece: usize, text: &[u8], out: &mut Answer)
    requires { 1 ≤ piece }
{
    match lexed(alloc, piece, text) {
        Some((found, fault)) => say_whole(out, &found, fault),
        None => out.refuse(),
    }
}

fn lexed(alloc: Global, piece: usize, text: &[u8]) -> Option<(Vec<Token>, Option<LexFault>)>
    requires { 1 ≤ piece }
{
    if text.len() >= 1 << 40 {
        return None;
    }
    lex(alloc, &cut(alloc, text, piece)?).ok()
}

fn say_whole(out: &mut Answer, found: &[Token], fault: Option<LexFault>) {
    for token in found {
        say_token(out, token);
        out.say(", ");
    }
    match fault {
        Some(fault) => say_fault(out, fault_name(fault.kind), fault.place),
        None => out.say("end"),
    }
}

// The text in pieces of `size` bytes.
fn cut(alloc: Global, text: &[u8], size: usize) -> Option<Vec<Vec<u8>>>
    requires { 1 ≤ size }
    ensures { IfSome result (λ pieces. flat_map (λ piece. piece.items) pieces.items ≡ text.now) }
{
    let mut pieces = Vec::new(alloc);
    let mut rest = text;
    while !rest.is_empty() {
        let (front, back) = rest.split_at(size.min(rest.len()));
        pieces.push(front.to_vec(alloc).ok()?).ok()?;
        rest = back;
    }
    Some(pieces)
}

/// The tokens that a lexer gives as it is fed the same pieces, each with how many bytes were fed
/// when it came and its own bytes, and what ends them.
pub fn one_by_one(alloc: Global, piece: usize, text: &[u8], out: &mut Answer)
    requires { 1 ≤ piece }
{
    let mut session = Session::new(alloc);
    feed_all(&mut session, piece, text, out);
}

fn feed_all(session: &mut Session, piece: usize, text: &[u8], out: &mut Answer)
    requires { 1 ≤ piece }
{
    for piece in text.chunks(piece) {
        if !session.feed(piece) {
            out.refuse();
        }
        say_given(out, session, text.len());
    }
    session.finish();
    let last = say_given(out, session, text.len());
    say_lexed(out, &last);
}

// Says the tokens that a lexer can give now, of a text of so many bytes, and answers what it gives
// behind them.
fn say_given(out: &mut Answer, session: &mut Session, most: usize) -> Lexed {
    for _ in 0..most {
        let lexed = session.next();
        let Lexed::Token(token) = lexed else {
            return lexed;
        };
        say_token(out, &token);
        out.say(" by ");
        out.show(session.taken());
        out.say(" ");
        session.say_text(out);
        out.say(", ");
    }
    session.next()
}
