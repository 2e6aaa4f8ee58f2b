//! Literals by their digits.

ghost use Rattle.std.specs.Prelude.{◌≡◌, ◌≤◌, IfOk};
ghost use Rattle.std.specs.List.{list_all};
ghost use Rattle.qv_words.specs.Sorted.{IsSorted};
ghost use Rattle.qv_text.specs.Bytes.{is_digit};
ghost use Rattle.qv_elab_defs.specs.Tokens.{number_of};
ghost use Rattle.qv_elab_items.specs.Flat.{indexed_in};
ghost use Rattle.qv_elab_defs.specs.Leaves.{digits_literal, is_decimal, value_literal};
ghost use Rattle.qv_elab_defs.specs.Leaves.{indexed_literal};
ghost use Rattle.qv_elab_defs.specs.Answers.{Writes};

use crate::shapes::{indexed_name, number_in};
use crate::tokens::{number_below, small_number};
use qv_elab_defs::{ElabFault, ElabKind};
use qv_sexpr::Item;
use qv_words::{Sort, Word};

/// A literal by its digits, of so many bits each.
pub fn digits_literal(place: u64, bits: u8, digits: &[u8]) -> Result<Word, ElabFault>
    requires some { 1 ≤ bits }
    requires few { bits ≤ 4 }
    requires sorted { IfOk (digits_literal place bits digits.now) IsSorted }
    ensures { Writes (digits_literal place bits digits.now) result }
{
    let fault = ElabFault::At {
        place,
        kind: ElabKind::Width,
    };
    let Some(sort) = Sort::bits(u128::from(bits) * digits.len() as u128) else {
        return Err(fault);
    };
    let Some(value) = number_below(1 << bits, digits) else {
        return Err(fault);
    };
    Word::new(sort, value).ok_or(fault)
}

/// The literal of a value, by its decimal digits, and a width.
fn value_literal(place: u64, digits: &[u8], width: u128) -> Result<Word, ElabFault>
    ensures { Writes (value_literal place (number_of 10 digits.now) width) result }
{
    let Some(sort) = Sort::bits(width) else {
        return Err(ElabFault::At {
            place,
            kind: ElabKind::Width,
        });
    };
    let fault = ElabFault::At {
        place,
        kind: ElabKind::Literal,
    };
    let Some(value) = small_number(digits) else {
        return Err(fault);
    };
    Word::new(sort, value).ok_or(fault)
}

/// Whether a byte is a digit.
#[tactic(auto, unfolding(qv_text::specs::Bytes::is_digit))]
fn is_digit(byte: u8) -> bool
    ensures { result ≡ is_digit byte }
{
    b'0' <= byte && byte <= b'9'
}

/// Whether all bytes are digits.
fn are_digits(digits: &[u8]) -> bool
    ensures { result ≡ list_all is_digit digits.now }
{
    digits.iter().all(|b| is_digit(*b))
}

/// Whether digits have no leading zero.
fn is_decimal(digits: &[u8]) -> bool
    ensures { result ≡ is_decimal digits.now }
{
    let Some(first) = digits.first() else {
        return false;
    };
    are_digits(digits) && (digits.len() == 1 || *first != b'0')
}

/// The literal `(_ bvN w)` by what follows `_`.
pub fn indexed_literal(place: u64, text: &[u8], items: &[Item]) -> Result<Word, ElabFault>
    ensures { Writes (indexed_literal place (indexed_in text.now items.now)) result }
{
    let form = ElabFault::At {
        place,
        kind: ElabKind::Form,
    };
    let Some(name) = indexed_name(text, items) else {
        return Err(form);
    };
    let Some(digits) = name.name.strip_prefix(b"bv") else {
        return Err(form);
    };
    let [numeral] = name.numerals else {
        return Err(form);
    };
    if !is_decimal(digits) {
        return Err(form);
    }
    match number_in(text, numeral) {
        Some(width) => value_literal(place, digits, width),
        None => Err(ElabFault::At {
            place: numeral.place,
            kind: ElabKind::Literal,
        }),
    }
}
