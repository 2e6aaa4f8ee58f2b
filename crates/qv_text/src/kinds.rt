//! What a lexer answers.

/// The kinds of tokens.
#[derive(Clone, Copy, Debug, PartialEq, Eq)]
pub enum TokenKind {
    LeftParen,
    RightParen,
    /// A simple symbol, or one between bars.
    Symbol,
    /// One of the words `! _ as exists forall lambda let match par`.
    Reserved,
    /// A colon and a simple symbol.
    Keyword,
    Numeral,
    Decimal,
    /// `#x` and hexadecimal digits.
    Hex,
    /// `#b` and binary digits.
    Binary,
    /// A string with its quotes.
    Text,
}

/// A token. Its bytes are those from `place` to `end`, counted from the start of the text.
#[derive(Clone, Copy, Debug, PartialEq, Eq)]
pub struct Token {
    pub kind: TokenKind,
    pub place: u64,
    pub end: u64,
}

/// Why bytes are no token.
#[derive(Clone, Copy, Debug, PartialEq, Eq)]
pub enum LexKind {
    /// A byte that begins no token.
    Character,
    /// A string that isn't closed.
    Text,
    /// A quoted symbol that isn't closed, or has a backslash.
    QuotedSymbol,
    /// A numeral that begins with 0 and goes on.
    Numeral,
    /// `#b` or `#x` without a digit.
    Literal,
}

/// A fault, at the first byte of what should be a token.
#[derive(Clone, Copy, Debug, PartialEq, Eq)]
pub struct LexFault {
    pub place: u64,
    pub kind: LexKind,
}

/// What a lexer finds next.
#[derive(Clone, Copy, Debug, PartialEq, Eq)]
pub enum Lexed {
    Token(Token),
    /// Nothing yet: more bytes decide what comes.
    More,
    /// The end of the text.
    End,
    Fault(LexFault),
}
