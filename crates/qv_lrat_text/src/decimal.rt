//! Numbers that are written in decimal digits.

ghost use Rattle.std.specs.Prelude.{◌≡◌, ◌<◌, ◌≤◌, ◌^◌, ◌==◌, ◌++◌, OnOk, Some, None, IfSome, length};
ghost use Rattle.std.specs.Prelude.{slice_index, unsigned_abs, if◌then◌else◌};
ghost use Rattle.std.specs.Str.{all_ascii_digits};
ghost use Rattle.std.specs.Str.Parse.{digits_value};
ghost use Rattle.std.specs.Bool.{OnTrue};
ghost use Rattle.qv_lrat_text.specs.Decimal.{number_from, signed_number};
ghost use Rattle.qv_lrat_text.specs.Words.{spaced, Keeps};

use crate::words::push_word;
use itoa::{Buffer, Integer};
use std::alloc::AllocError;

// The most digits of which a `u64` holds any number.
const SHORT: usize = 19;

// The number that a short word writes in decimal digits. `None` where it has a byte that is none.
#[inline]
fn short_number(word: &[u8]) -> Option<u64>
    requires { length word.now ≤ 19 }
    ensures { result ≡ if all_ascii_digits word.now then Some (digits_value 10 word.now) else None }
{
    let mut number: u64 = 0;
    for digit in word {
        if !digit.is_ascii_digit() {
            return None;
        }
        number = number * 10 + u64::from(*digit - b'0');
    }
    Some(number)
}

// The number from `least` to `most` that a word of any length writes in decimal digits.
#[inline(never)]
fn long_number(word: &[u8], least: u128, most: u128) -> Option<u128>
    requires { 0 < length word.now }
    ensures value { result ≡ number_from least most word.now }
    ensures range { IfSome result (λ number. (least ≤ number) × (number ≤ most)) }
{
    let mut number: u128 = 0;
    for digit in word {
        if !digit.is_ascii_digit() {
            return None;
        }
        number = number
            .checked_mul(10)?
            .checked_add(u128::from(*digit - b'0'))?;
        if number > most {
            return None;
        }
    }
    if number < least {
        return None;
    }
    Some(number)
}

/// The number from `least` to `most` that the word writes in decimal digits, which may begin with
/// zeros.
#[inline(always)]
pub fn read_number(word: &[u8], least: u128, most: u128) -> Option<u128>
    ensures value { result ≡ number_from least most word.now }
    ensures range { IfSome result (λ number. (least ≤ number) × (number ≤ most)) }
{
    if word.is_empty() {
        return None;
    }
    if word.len() > SHORT {
        return long_number(word, least, most);
    }
    let number = u128::from(short_number(word)?);
    if number < least {
        return None;
    }
    if number > most {
        return None;
    }
    Some(number)
}

// Whether the word begins with a minus.
#[inline]
fn has_minus(word: &[u8]) -> bool
    ensures minus { result ≡ (slice_index word.now 0 == 45) }
    ensures some { OnTrue result (1 ≤ length word.now) }
{
    match word {
        [first, ..] => *first == b'-',
        [] => false,
    }
}

/// The number that the word writes in decimal digits, with a minus before them or without. Its
/// magnitude is from 1 to `most`; the digits may begin with zeros.
#[inline(always)]
pub fn read_i64(word: &[u8], most: u128) -> Option<i64>
    requires { most < 2 ^ 63 }
    ensures value { result ≡ signed_number most word.now }
    ensures range { IfSome result (λ number. (1 ≤ unsigned_abs number)
        × (unsigned_abs number ≤ most)) }
{
    if !has_minus(word) {
        let number = read_number(word, 1, most)?;
        return Some(number as i64);
    }
    let (_, digits) = word.split_at(1);
    let number = read_number(digits, 1, most)?;
    Some(-(number as i64))
}

/// Adds the number in decimal digits, with a minus where it is negative, and a space. Where memory
/// runs out, a part of them may be added.
pub fn push_number<I: Integer>(number: I, out: &mut Vec<u8>) -> Result<(), AllocError>
    ensures ok { OnOk result (out.new.items ≡ out.old.items ++ spaced (I.text number)) }
    ensures kept { Keeps out.old.items out.new.items }
{
    push_word(Buffer::new().format(number).as_bytes(), out)
}
