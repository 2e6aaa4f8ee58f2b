//! The words of a line.

ghost use Rattle.std.specs.Prelude.{◌≡◌, ◌<◌, [], ◌∷◌, ◌++◌, length, OnOk, IfSome, MatchOption};
ghost use Rattle.std.specs.List.{prefix_len, position_or_len};
ghost use Rattle.qv_lrat_text.specs.Words.{is_blank, is_byte_word, words, spaced, Keeps};

use std::alloc::AllocError;

/// Whether the byte stands between words: a space, a tab or a CR.
#[tactic(auto, unfolding(crate::specs::Words::is_blank))]
#[inline]
pub fn is_blank(byte: u8) -> bool
    ensures { result ≡ is_blank byte }
{
    byte == b' ' || byte == b'\t' || byte == b'\r'
}

/// Whether the word is this one byte.
#[inline]
pub fn is_byte_word(word: &[u8], byte: u8) -> bool
    ensures { result ≡ is_byte_word byte word.now }
{
    match word {
        [only] => *only == byte,
        _ => false,
    }
}

// How many blanks the text begins with.
#[inline]
fn blank_len(text: &[u8]) -> usize
    ensures { result ≡ prefix_len is_blank text.now }
{
    let mut i = 0;
    'bytes: while i < text.len() {
        if !is_blank(text[i]) {
            return i;
        }
        i += 1;
    }
    i
}

// How many bytes stand before the first blank.
#[inline]
fn word_len(text: &[u8]) -> usize
    ensures { result ≡ position_or_len is_blank text.now }
{
    let mut i = 0;
    'bytes: while i < text.len() {
        if is_blank(text[i]) {
            return i;
        }
        i += 1;
    }
    i
}

/// The first word of the text, and what comes after it. `None` where the text has no word.
#[inline]
pub fn split_word(text: &[u8]) -> Option<(&[u8], &[u8])>
    ensures split { MatchOption result (words text.now ≡ [])
        (λ parts. words text.now ≡ parts.0.now ∷ words parts.1.now) }
    ensures shorter { IfSome result (λ parts. length parts.1.now < length text.now) }
{
    let (_, text) = text.split_at(blank_len(text));
    if text.is_empty() {
        return None;
    }
    let (word, rest) = text.split_at(word_len(text));
    Some((word, rest))
}

/// Adds a word and a space. Where memory runs out, a part of them may be added.
pub fn push_word(word: &[u8], out: &mut Vec<u8>) -> Result<(), AllocError>
    ensures ok { OnOk result (out.new.items ≡ out.old.items ++ spaced word.now) }
    ensures kept { Keeps out.old.items out.new.items }
{
    out.extend_from_slice(word)?;
    out.push(b' ')?;
    Ok(())
}
