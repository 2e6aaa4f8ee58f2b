//! The tokens of a whole text.

ghost use Rattle.std.specs.Prelude.{◌≡◌, ◌+◌, ◌<◌, ◌^◌, length, IfOk, IsTrue, true};
ghost use Rattle.std.specs.List.{flat_map};
ghost use Rattle.qv_text.specs.Reading.{tokens};
ghost use Rattle.qv_text.specs.Progress.{fed};
ghost use Rattle.qv_text.specs.Whole.{listed, Gave, AllGiven};

use crate::kinds::{LexFault, Lexed, Token};
use crate::lexing::{Lexer, NoMemory};
use std::alloc::Global;

/// The tokens of a text that comes in these pieces, and the fault behind them, if there is one.
/// They don't depend on how it was cut.
pub fn lex(alloc: Global, pieces: &[Vec<u8>]) -> Result<(Vec<Token>, Option<LexFault>), NoMemory>
    requires { length (flat_map (λ piece. piece.items) pieces.now) < 2 ^ 62 }
    ensures { IfOk result
        (λ r. (r.0.items, r.1) ≡ listed (tokens 0 (flat_map (λ piece. piece.items) pieces.now))) }
{
    let mut lexer = Lexer::new(alloc);
    let mut found = Vec::new(alloc);
    for piece in pieces {
        lexer.feed(piece)?;
        if let Some(fault) = give_all(&mut lexer, &mut found)? {
            return Ok((found, Some(fault)));
        }
    }
    lexer.finish();
    let fault = give_all(&mut lexer, &mut found)?;
    Ok((found, fault))
}

/// Adds the tokens that the lexer can give now.
fn give_all(lexer: &mut Lexer, found: &mut Vec<Token>) -> Result<Option<LexFault>, NoMemory>
    ensures gave { IfOk result
        (λ fault. Gave lexer.old found.old.items lexer.new found.new.items fault) }
    ensures all { IsTrue lexer.old.finished → IfOk result (λ fault. AllGiven lexer.new fault) }
    ensures finished { lexer.new.finished ≡ lexer.old.finished }
    ensures fed { fed lexer.new ≡ fed lexer.old }
{
    loop {
        match lexer.next() {
            Lexed::Token(token) => found.push(token)?,
            Lexed::More | Lexed::End => return Ok(None),
            Lexed::Fault(fault) => return Ok(Some(fault)),
        }
    }
}
