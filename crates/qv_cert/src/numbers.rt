//! The numbers of a line.

ghost use Rattle.std.specs.Prelude.{◌≡◌, ℕ, option_map, option_copied};
ghost use Rattle.qv_lrat_text.specs.Words.{words};
ghost use Rattle.qv_cert.specs.Line.{CertLine};
ghost use Rattle.qv_cert.specs.Grammar.{number, large_number, numbers, one_number, two_numbers};
ghost use Rattle.qv_cert.specs.Grammar.{three_numbers};
ghost use Rattle.qv_cert.specs.Reading.{Gives, only_word, first_number, or_form, numbers_to_colon};

use crate::fault::CertLineFault;
use qv_lrat_text::decimal::read_number;
use qv_lrat_text::words::{is_byte_word, split_word};
use std::alloc::Global;

// The greatest number of a line, but for values and indices.
const GREATEST_NUMBER: u128 = (1 << 62) - 1;

/// The number that the word is.
pub fn number(word: &[u8]) -> Option<u64>
    ensures { result ≡ number word.now }
{
    let number = read_number(word, 0, GREATEST_NUMBER)?;
    Some(number as u64)
}

/// The value or index that the word is.
pub fn large_number(word: &[u8]) -> Option<u128>
    ensures { result ≡ large_number word.now }
{
    read_number(word, 0, u128::MAX)
}

/// The only word of the text.
pub fn only_word(text: &[u8]) -> Option<&[u8]>
    ensures { option_copied result ≡ only_word (words text.now) }
{
    let (word, rest) = split_word(text)?;
    match split_word(rest) {
        None => Some(word),
        Some(_) => None,
    }
}

/// The number that the first word is, and what comes after it.
pub fn first_number(text: &[u8]) -> Option<(u64, &[u8])>
    ensures { option_map (λ p. (p.0, words p.1.now)) result ≡ first_number (words text.now) }
{
    let (word, rest) = split_word(text)?;
    let n = number(word)?;
    Some((n, rest))
}

/// The number that is the only word.
pub fn one_number(text: &[u8]) -> Option<u64>
    ensures { (make : ℕ → CertLine) →
        one_number make (words text.now) ≡ option_map make result }
{
    let word = only_word(text)?;
    number(word)
}

/// The two numbers that are the only words.
pub fn two_numbers(text: &[u8]) -> Option<(u64, u64)>
    ensures { (make : ℕ → ℕ → CertLine) →
        two_numbers make (words text.now) ≡ option_map (λ p. make p.0 p.1) result }
{
    let (a, rest) = first_number(text)?;
    let b = one_number(rest)?;
    Some((a, b))
}

/// The three numbers that are the only words.
pub fn three_numbers(text: &[u8]) -> Option<(u64, u64, u64)>
    ensures { (make : ℕ → ℕ → ℕ → CertLine) →
        three_numbers make (words text.now) ≡ option_map (λ p. make p.0 p.1 p.2) result }
{
    let (a, rest) = first_number(text)?;
    let (b, c) = two_numbers(rest)?;
    Some((a, b, c))
}

/// The numbers up to the end.
pub fn numbers(alloc: Global, text: &[u8]) -> Result<Vec<u64>, CertLineFault>
    ensures { Gives (λ ns. ns.items) result (or_form (numbers number (words text.now))) }
{
    let mut numbers = Vec::new(alloc);
    let mut rest = text;
    'words: while let Some((word, after)) = split_word(rest) {
        let Some(n) = number(word) else {
            return Err(CertLineFault::Form);
        };
        numbers.push(n)?;
        rest = after;
    }
    Ok(numbers)
}

/// The indices before the first `:`, and what comes after it.
pub fn numbers_to_colon(alloc: Global, text: &[u8]) -> Result<(Vec<u128>, &[u8]), CertLineFault>
    ensures { Gives (λ parts. (parts.0.items, words parts.1.now)) result
        (or_form (numbers_to_colon (words text.now))) }
{
    let mut numbers = Vec::new(alloc);
    let mut rest = text;
    'words: while let Some((word, after)) = split_word(rest) {
        if is_byte_word(word, b':') {
            return Ok((numbers, after));
        }
        let Some(n) = large_number(word) else {
            return Err(CertLineFault::Form);
        };
        numbers.push(n)?;
        rest = after;
    }
    Err(CertLineFault::Form)
}
