//! Numbers and sorts, as cases write them, and the sorts of words.

ghost use Rattle.std.specs.Prelude.{◌≡◌, IfSome};
ghost use Rattle.qv_words.specs.Word.{sorts_of};

use qv_cases_terms::sort;
use qv_words::{Sort, Word};
use std::alloc::Global;

/// A decimal number.
pub fn number(word: &str) -> Option<u128> {
    word.parse::<u128>().ok()
}

/// A number in hexadecimal digits.
pub fn hex(digits: &str) -> Option<u128> {
    u128::from_str_radix(digits, 16).ok()
}

/// A byte in hexadecimal digits.
pub fn byte(digits: &str) -> Option<u8> {
    u8::from_str_radix(digits, 16).ok()
}

/// A sort.
pub fn listed_sort(text: &str) -> Option<Sort> {
    sort(text)
}

/// The sorts of words.
pub fn sorts_of(alloc: Global, words: &[Word]) -> Option<Vec<Sort>>
    ensures { IfSome result (λ sorts. sorts.items ≡ sorts_of words.now) }
{
    let mut sorts = Vec::new(alloc);
    for word in words {
        sorts.push(word.sort()).ok()?;
    }
    Some(sorts)
}
