//! How a case is written.

ghost use Rattle.std.specs.Prelude.{◌≤◌, ◌<◌, IfSome};

use qv_cases_rows::Words;
use std::alloc::Global;

/// How many bytes come at a time.
pub fn piece_size(words: &mut Words<'_>) -> Option<usize>
    ensures { IfSome result (λ size. 1 ≤ size) }
{
    let size = words.number::<usize>();
    if size > 0 { Some(size) } else { None }
}

/// Numbers between commas, or none where the word is `-`.
pub fn numbers(alloc: Global, word: &str) -> Option<Vec<u64>> {
    let mut found = Vec::new(alloc);
    if word == "-" {
        return Some(found);
    }
    for number in word.split(',') {
        found.push(number.parse::<u64>().ok()?).ok()?;
    }
    Some(found)
}

/// The bytes that are written up to the line's last quote. Behind a backslash stand `n`, `t`, `r`,
/// `"`, another backslash, `xHH` with two hexadecimal digits, or `*N*` before a byte that comes N
/// times.
pub fn text_of(alloc: Global, written: &str) -> Option<Vec<u8>> {
    let mut text = Vec::new(alloc);
    let mut is_plain = true;
    for part in written.strip_suffix('"')?.split('\\') {
        if is_plain {
            text.extend_from_slice(part.as_bytes()).ok()?;
            is_plain = false;
        } else if part.is_empty() {
            text.push(b'\\').ok()?;
            is_plain = true;
        } else {
            add_escaped(&mut text, part)?;
        }
    }
    Some(text)
}

// Adds what stands behind a backslash.
fn add_escaped(text: &mut Vec<u8>, part: &str) -> Option<()> {
    match part.strip_prefix('*') {
        Some(repeated) => add_repeated(text, repeated),
        None => {
            let (byte, rest) = escape(part.as_bytes())?;
            text.push(byte).ok()?;
            text.extend_from_slice(rest).ok()
        }
    }
}

fn add_repeated(text: &mut Vec<u8>, repeated: &str) -> Option<()> {
    let (count, rest) = repeated.split_once('*')?;
    let (byte, rest) = rest.as_bytes().split_first()?;
    for _ in 0..count.parse::<u16>().ok()? {
        text.push(*byte).ok()?;
    }
    text.extend_from_slice(rest).ok()
}

// The byte that an escape stands for, and what is behind it.
fn escape(part: &[u8]) -> Option<(u8, &[u8])> {
    match part {
        [b'n', rest @ ..] => Some((b'\n', rest)),
        [b't', rest @ ..] => Some((b'\t', rest)),
        [b'r', rest @ ..] => Some((b'\r', rest)),
        [b'"', rest @ ..] => Some((b'"', rest)),
        [b'x', high, low, rest @ ..] => Some((hex_value(*high)? * 16 + hex_value(*low)?, rest)),
        _ => None,
    }
}

// The value of a hexadecimal digit.
fn hex_value(digit: u8) -> Option<u8>
    ensures { IfSome result (λ value. value < 16) }
{
    match digit {
        b'0'..=b'9' => Some(digit - b'0'),
        b'a'..=b'f' => Some(digit - b'a' + 10),
        _ => None,
    }
}
