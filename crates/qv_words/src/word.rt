//! Words: values of a sort, always in its range.

ghost use Rattle.std.specs.Prelude.{if◌then◌else◌, ◌≡◌, ◌<◌, ◌+◌, ◌↔◌, IsSome, IfSome};
ghost use Rattle.qv_words.specs.Sort.{IsLawful, IsValueOf};

use crate::bits::ones;
use crate::sort::Sort;

/// A value of a sort.
#[derive(Clone, Copy, Debug, PartialEq, Eq, Hash)]
pub struct Word {
    sort: Sort,
    value: u128,
    pub ghost lawful: { IsLawful sort },
    pub ghost in_range: { IsValueOf value sort },
}

impl Word {
    ghost use Rattle.qv_words.specs.Word.{word_sort, word_value};

    /// The word of this value, or nothing where the sort has no such value.
    pub fn new(sort: Sort, value: u128) -> Option<Word>
        requires { IsLawful sort }
        ensures fits { IsSome result ↔ IsValueOf value sort }
        ensures sort { IfSome result (λ word. word_sort word ≡ sort) }
        ensures value { IfSome result (λ word. word_value word ≡ value) }
    {
        if value <= ones(sort.width()) {
            Some(Word { sort, value })
        } else {
            None
        }
    }

    /// The word of a truth value.
    pub fn truth(holds: bool) -> Word
        ensures sort { word_sort result ≡ Sort.Bool }
        ensures value { word_value result ≡ (if holds then 1 else 0) }
    {
        Word::of(Sort::Bool, if holds { 1 } else { 0 })
    }

    // The word of this value of the sort.
    pub(crate) fn of(sort: Sort, value: u128) -> Word
        requires lawful { IsLawful sort }
        requires in_range { IsValueOf value sort }
        ensures sort { word_sort result ≡ sort }
        ensures value { word_value result ≡ value }
    {
        Word { sort, value }
    }

    // The word of this value of the same sort.
    pub(crate) fn with(&self, value: u128) -> Word
        requires { IsValueOf value (word_sort self.now) }
        ensures sort { word_sort result ≡ word_sort self.now }
        ensures value { word_value result ≡ value }
    {
        Word {
            sort: self.sort,
            value,
        }
    }

    pub fn sort(&self) -> Sort
        ensures { result ≡ word_sort self.now }
    {
        self.sort
    }

    pub fn value(&self) -> u128
        ensures { result ≡ word_value self.now }
    {
        self.value
    }
}
