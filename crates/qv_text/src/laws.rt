//! Laws of the tokens' definition.

ghost use Rattle.std.specs.Prelude.{ℕ, false, List};
ghost use Rattle.qv_text.specs.Grammar.{IsLongest};
ghost use Rattle.qv_text.specs.Reading.{tokens, token_at};
ghost use Rattle.qv_text.specs.Spelling.{Stand};

/// The tokens of a text are all of it but white space and comments: each stands behind some, is the
/// longest there, and is followed by the tokens of the rest. Where they end, only white space and
/// comments are left.
pub fn tokens_stand_in_the_text()
    ensures { (place : ℕ) (bytes : List ℕ) → Stand false place bytes (tokens place bytes) }
{}

/// What is found at the front of some bytes is no shorter than a token that stands there, and but
/// for numerals with a leading 0 and strings that aren't closed no token stands where a fault is
/// found.
pub fn tokens_are_the_longest()
    ensures { (bytes : List ℕ) → IsLongest bytes (token_at bytes) }
{}
