//! The lines of what ends a text.

ghost use Rattle.std.specs.Prelude.{◌≡◌, Some, IfOk};
ghost use Rattle.qv_sexpr.specs.Script.{lexical, parsing, nesting};
ghost use Rattle.qv_script_texts.specs.EndLines.{lex_kind, parse_kind, fault_at_end};

use crate::kinds::refusal;
use qv_sexpr::{ParseFault, ParseKind};
use qv_text::{LexFault, LexKind};
use std::alloc::{AllocError, Global};

/// The line of bytes that are no token.
pub fn lex_line(alloc: Global, fault: LexFault) -> Result<Vec<u8>, AllocError>
    ensures { IfOk result (λ line. fault_at_end (lexical fault) ≡ Some line.items) }
{
    refusal(alloc, fault.place, lex_kind(fault.kind))
}

/// The line of tokens that are no command.
pub fn parse_line(alloc: Global, fault: ParseFault) -> Result<Vec<u8>, AllocError>
    ensures { IfOk result (λ line. fault_at_end (parsing fault) ≡ Some line.items) }
{
    refusal(alloc, fault.place, parse_kind(fault.kind))
}

/// The line of a parenthesis that is one too many.
pub fn nesting_line(alloc: Global, place: u64) -> Result<Vec<u8>, AllocError>
    ensures { IfOk result (λ line. fault_at_end (nesting place) ≡ Some line.items) }
{
    refusal(alloc, place, "nesting limit")
}

fn lex_kind(kind: LexKind) -> &'static str
    ensures { result.now ≡ lex_kind kind }
{
    match kind {
        LexKind::Character => "character",
        LexKind::Text => "string",
        LexKind::QuotedSymbol => "quoted symbol",
        LexKind::Numeral => "numeral",
        LexKind::Literal => "literal",
    }
}

fn parse_kind(kind: ParseKind) -> &'static str
    ensures { result.now ≡ parse_kind kind }
{
    match kind {
        ParseKind::Close => "close",
        ParseKind::Atom => "atom",
        ParseKind::Unfinished => "unfinished",
    }
}
