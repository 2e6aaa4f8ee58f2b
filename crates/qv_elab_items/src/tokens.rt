//! What single items stand for: names and numbers.

ghost use Rattle.std.specs.Prelude.{◌≡◌, ◌≤◌, ◌^◌, if◌then◌else◌, nat_lt};
ghost use Rattle.std.specs.Option.{option_map, option_and_then};
ghost use Rattle.qv_elab_defs.specs.Tokens.{unquoted, name_of_token, digit_value, number_of};
ghost use Rattle.qv_elab_defs.specs.Tokens.{small_number_of};
ghost use Rattle.qv_elab_items.specs.Flat.{text_in, name_in, numeral_in, keyword_in};

use qv_sexpr::{Item, ItemKind};
use qv_text::TokenKind;

/// A symbol's text without the bars around it.
pub fn unquoted(text: &[u8]) -> &[u8]
    ensures { result.now ≡ unquoted text.now }
{
    let Some((first, rest)) = text.split_first() else {
        return text;
    };
    if *first != b'|' {
        return text;
    }
    &rest[..rest.len().saturating_sub(1)]
}

/// The name of a token, if it is a symbol.
pub(crate) fn name_of(kind: TokenKind, text: &[u8]) -> Option<&[u8]>
    ensures { option_map (λ name. name.now) result ≡ name_of_token kind text.now }
{
    if kind == TokenKind::Symbol {
        Some(unquoted(text))
    } else {
        None
    }
}

/// A digit up to 9, A to F, a to f.
pub(crate) fn digit_value(b: u8) -> u8
    ensures { result ≡ digit_value b }
{
    if b <= b'9' {
        b.saturating_sub(b'0')
    } else if b <= b'F' {
        b.saturating_sub(b'A' - 10)
    } else {
        b.saturating_sub(b'a' - 10)
    }
}

/// The number that digits write to a base, unless it is too large.
pub(crate) fn number_below(base: u8, digits: &[u8]) -> Option<u128>
    requires { 1 ≤ base }
    ensures { result ≡ (if nat_lt (number_of base digits.now) (2 ^ 128)
        then Some (number_of base digits.now) else None) }
{
    let mut value: u128 = 0;
    'digits: for b in digits {
        value = value
            .checked_mul(u128::from(base))?
            .checked_add(u128::from(digit_value(*b)))?;
    }
    Some(value)
}

/// The number that decimal digits write, unless it is too large.
pub(crate) fn small_number(digits: &[u8]) -> Option<u128>
    ensures { result ≡ small_number_of digits.now }
{
    number_below(10, digits)
}

/// The bytes of an item.
pub fn text_of<'a>(text: &'a [u8], item: &Item) -> Option<&'a [u8]>
    ensures { option_map (λ bytes. bytes.now) result ≡ text_in text.now item.now }
{
    text.get(item.start as usize..item.end as usize)
}

/// The name that an item is, if it is a symbol.
pub fn name_in<'a>(text: &'a [u8], item: &Item) -> Option<&'a [u8]>
    ensures { option_map (λ name. name.now) result ≡ name_in text.now item.now }
{
    let ItemKind::Atom(kind) = item.kind else {
        return None;
    };
    let bytes = text_of(text, item)?;
    name_of(kind, bytes)
}

/// The digits of the numeral that an item is.
pub(crate) fn numeral_in<'a>(text: &'a [u8], item: &Item) -> Option<&'a [u8]>
    ensures { option_map (λ digits. digits.now) result ≡ numeral_in text.now item.now }
{
    let ItemKind::Atom(TokenKind::Numeral) = item.kind else {
        return None;
    };
    text_of(text, item)
}

/// The text of the keyword that an item is.
pub fn keyword_in<'a>(text: &'a [u8], item: &Item) -> Option<&'a [u8]>
    ensures { option_map (λ bytes. bytes.now) result ≡ keyword_in text.now item.now }
{
    let ItemKind::Atom(TokenKind::Keyword) = item.kind else {
        return None;
    };
    text_of(text, item)
}
