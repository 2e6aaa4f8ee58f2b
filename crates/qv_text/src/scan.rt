//! Looks at a token byte by byte.

ghost use Rattle.std.specs.Prelude.{◌≡◌, ◌≤◌, ◌<◌, ◌==◌, false, length, slice_index};
ghost use Rattle.qv_text.specs.Bytes.{is_blank};
ghost use Rattle.qv_text.specs.Reading.{kind_of, is_reserved};
ghost use Rattle.qv_text.specs.Scanning.{opening, step, ending, is_start, restarts, Scans, Looks};
ghost use Rattle.qv_text.specs.Scanning.{IsBlankFront};

use crate::classes::{
    begins_symbol, is_binary, is_digit, is_hex, is_line_end, is_symbol, is_white,
};
use crate::kinds::{LexKind, TokenKind};

/// What the bytes so far have shown of a token.
#[derive(Clone, Copy, Debug, PartialEq, Eq)]
pub enum Mode {
    /// Nothing.
    Start,
    /// Behind a bar.
    InQuoted,
    /// Behind a quote.
    InText,
    /// Behind a quote within a string, its last one or the first of two.
    AtQuote,
    /// Behind `#`.
    AtHash,
    /// Behind `#b`.
    AtBinary,
    InBinary,
    /// Behind `#x`.
    AtHex,
    InHex,
    /// Behind `:`.
    AtColon,
    InKeyword,
    /// Behind a `0` that begins a numeral.
    AtZero,
    InDigits,
    /// Behind a numeral and a dot.
    AtDot,
    InFraction,
    InSymbol,
}

/// What one more byte shows.
#[derive(Clone, Copy, Debug, PartialEq, Eq)]
pub enum Move {
    /// The token goes on.
    Go(Mode),
    /// The byte is the token's last.
    Last(TokenKind),
    /// The token ended before this byte.
    Before(TokenKind),
    /// A numeral ended before the dot that came before this byte.
    BeforeDot,
    Wrong(LexKind),
}

/// What a scan found.
#[derive(Clone, Copy, Debug, PartialEq, Eq)]
pub enum Scanned {
    /// More bytes can lengthen the token.
    Open(Mode),
    /// A token and its length.
    Token(TokenKind, usize),
    Fault(LexKind),
}

/// What the first byte of a token shows.
#[tactic(auto, unfolding(crate::specs::Scanning::opening, crate::specs::Scanning::is_start))]
fn opening(byte: u8) -> Move
    ensures value { result ≡ opening byte }
    ensures begun { restarts result ≡ false }
{
    match byte {
        b'(' => Move::Last(TokenKind::LeftParen),
        b')' => Move::Last(TokenKind::RightParen),
        b'|' => Move::Go(Mode::InQuoted),
        b'"' => Move::Go(Mode::InText),
        b'#' => Move::Go(Mode::AtHash),
        b':' => Move::Go(Mode::AtColon),
        b'0' => Move::Go(Mode::AtZero),
        _ if is_digit(byte) => Move::Go(Mode::InDigits),
        _ if is_symbol(byte) => Move::Go(Mode::InSymbol),
        _ => Move::Wrong(LexKind::Character),
    }
}

/// What one more byte shows.
#[tactic(auto, unfolding(crate::specs::Scanning::step, crate::specs::Scanning::is_start))]
fn step(mode: Mode, byte: u8) -> Move
    ensures value { result ≡ step mode byte }
    ensures begun { restarts result ≡ false }
{
    match mode {
        Mode::Start => opening(byte),
        Mode::InQuoted => match byte {
            b'|' => Move::Last(TokenKind::Symbol),
            b'\\' => Move::Wrong(LexKind::QuotedSymbol),
            _ => Move::Go(Mode::InQuoted),
        },
        Mode::InText if byte == b'"' => Move::Go(Mode::AtQuote),
        Mode::InText => Move::Go(Mode::InText),
        Mode::AtQuote if byte == b'"' => Move::Go(Mode::InText),
        Mode::AtQuote => Move::Before(TokenKind::Text),
        Mode::AtHash => match byte {
            b'b' => Move::Go(Mode::AtBinary),
            b'x' => Move::Go(Mode::AtHex),
            _ => Move::Wrong(LexKind::Character),
        },
        Mode::AtBinary if is_binary(byte) => Move::Go(Mode::InBinary),
        Mode::AtBinary => Move::Wrong(LexKind::Literal),
        Mode::InBinary if is_binary(byte) => Move::Go(Mode::InBinary),
        Mode::InBinary => Move::Before(TokenKind::Binary),
        Mode::AtHex if is_hex(byte) => Move::Go(Mode::InHex),
        Mode::AtHex => Move::Wrong(LexKind::Literal),
        Mode::InHex if is_hex(byte) => Move::Go(Mode::InHex),
        Mode::InHex => Move::Before(TokenKind::Hex),
        Mode::AtColon if begins_symbol(byte) => Move::Go(Mode::InKeyword),
        Mode::AtColon => Move::Wrong(LexKind::Character),
        Mode::InKeyword if is_symbol(byte) => Move::Go(Mode::InKeyword),
        Mode::InKeyword => Move::Before(TokenKind::Keyword),
        Mode::AtZero if is_digit(byte) => Move::Wrong(LexKind::Numeral),
        Mode::InDigits if is_digit(byte) => Move::Go(Mode::InDigits),
        Mode::AtZero | Mode::InDigits if byte == b'.' => Move::Go(Mode::AtDot),
        Mode::AtZero | Mode::InDigits => Move::Before(TokenKind::Numeral),
        Mode::AtDot if is_digit(byte) => Move::Go(Mode::InFraction),
        Mode::AtDot => Move::BeforeDot,
        Mode::InFraction if is_digit(byte) => Move::Go(Mode::InFraction),
        Mode::InFraction => Move::Before(TokenKind::Decimal),
        Mode::InSymbol if is_symbol(byte) => Move::Go(Mode::InSymbol),
        Mode::InSymbol => Move::Before(TokenKind::Symbol),
    }
}

/// What the end of the text shows behind a token's first `len` bytes.
fn ending(mode: Mode, len: usize) -> Scanned
    requires { 0 < len }
    ensures { result ≡ ending mode len }
{
    match mode {
        Mode::Start | Mode::AtHash | Mode::AtColon => Scanned::Fault(LexKind::Character),
        Mode::InQuoted => Scanned::Fault(LexKind::QuotedSymbol),
        Mode::InText => Scanned::Fault(LexKind::Text),
        Mode::AtBinary | Mode::AtHex => Scanned::Fault(LexKind::Literal),
        Mode::AtQuote => Scanned::Token(TokenKind::Text, len),
        Mode::InBinary => Scanned::Token(TokenKind::Binary, len),
        Mode::InHex => Scanned::Token(TokenKind::Hex, len),
        Mode::InKeyword => Scanned::Token(TokenKind::Keyword, len),
        Mode::AtZero | Mode::InDigits => Scanned::Token(TokenKind::Numeral, len),
        Mode::AtDot => Scanned::Token(TokenKind::Numeral, len - 1),
        Mode::InFraction => Scanned::Token(TokenKind::Decimal, len),
        Mode::InSymbol => Scanned::Token(TokenKind::Symbol, len),
    }
}

/// Looks at a token's bytes, of which the first `from` were looked at before and led to this mode.
fn scan(bytes: &[u8], mode: Mode, from: usize) -> Scanned
    requires within { from ≤ length bytes.now }
    requires fresh { is_start mode ≡ from == 0 }
    ensures { Scans bytes.now mode from result }
{
    let mut mode = mode;
    for at in from..bytes.len() {
        match step(mode, bytes[at]) {
            Move::Go(next) => mode = next,
            Move::Last(kind) => return Scanned::Token(kind, at + 1),
            Move::Before(kind) => return Scanned::Token(kind, at),
            Move::BeforeDot => return Scanned::Token(TokenKind::Numeral, at - 1),
            Move::Wrong(kind) => return Scanned::Fault(kind),
        }
    }
    Scanned::Open(mode)
}

/// Looks at a token's bytes as `scan` does, and at the text's end where it is finished.
pub fn look(bytes: &[u8], mode: Mode, from: usize, finished: bool) -> Scanned
    requires some { 0 < length bytes.now }
    requires within { from ≤ length bytes.now }
    requires fresh { is_start mode ≡ from == 0 }
    ensures { Looks bytes.now mode from finished result }
{
    match scan(bytes, mode, from) {
        Scanned::Open(mode) if finished => ending(mode, bytes.len()),
        found => found,
    }
}

/// The number of bytes of white space and comments at the front, and whether a comment is still
/// open behind them, where `comment` says whether the bytes begin in one.
fn blank_front(bytes: &[u8], comment: bool) -> (usize, bool)
    ensures { IsBlankFront comment bytes.now result.0 result.1 }
{
    let mut comment = comment;
    for at in 0..bytes.len() {
        let byte = bytes[at];
        if comment {
            comment = !is_line_end(byte);
        } else if byte == b';' {
            comment = true;
        } else if !is_white(byte) {
            return (at, false);
        }
    }
    (bytes.len(), comment)
}

/// The same, where `scanned` bytes of a token at the front may have been looked at.
pub fn before_token(bytes: &[u8], scanned: usize, comment: bool) -> (usize, bool)
    requires within { scanned ≤ length bytes.now }
    requires begun { 0 < scanned → (comment ≡ false)
        × (is_blank (slice_index bytes.now 0) ≡ false) }
    ensures front { IsBlankFront comment bytes.now result.0 result.1 }
    ensures begun { 0 < scanned → result.0 ≡ 0 }
{
    if scanned > 0 {
        (0, false)
    } else {
        blank_front(bytes, comment)
    }
}

/// Whether a simple symbol is a reserved word.
#[tactic(auto, unfolding(crate::specs::Reading::is_reserved))]
pub fn is_reserved(text: &[u8]) -> bool
    ensures { result ≡ is_reserved text.now }
{
    text == b"!".as_slice()
        || text == b"_".as_slice()
        || text == b"as".as_slice()
        || text == b"exists".as_slice()
        || text == b"forall".as_slice()
        || text == b"lambda".as_slice()
        || text == b"let".as_slice()
        || text == b"match".as_slice()
        || text == b"par".as_slice()
}

/// The kind of a token with these bytes, which is a kind of its own at a reserved word.
#[tactic(auto, unfolding(crate::specs::Reading::kind_of))]
pub fn kind_of(kind: TokenKind, text: &[u8]) -> TokenKind
    ensures { result ≡ kind_of kind text.now }
{
    match kind {
        TokenKind::Symbol if is_reserved(text) => TokenKind::Reserved,
        kind => kind,
    }
}
