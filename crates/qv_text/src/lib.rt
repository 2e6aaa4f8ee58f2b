//! A lexer for SMT-LIB scripts that is fed bytes in any pieces.
#![tactic(auto)]

mod classes;
mod kinds;
mod laws;
mod lexing;
mod scan;
mod whole;

pub use classes::{begins_symbol, is_symbol};
pub use kinds::{LexFault, LexKind, Lexed, Token, TokenKind};
pub use laws::{tokens_are_the_longest, tokens_stand_in_the_text};
pub use lexing::{Lexer, NoMemory};
pub use scan::is_reserved;
pub use whole::lex;
