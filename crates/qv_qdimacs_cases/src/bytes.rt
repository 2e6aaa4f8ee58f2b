//! Bytes as a case writes them: printable ASCII, and `\t`, `\n`, `\r` or `\x` with two hexadecimal
//! digits for others.

use qv_cases_rows::Answer;
use std::alloc::Global;

/// The bytes that a case writes. Where they can't be read, it is none.
pub fn bytes_of(alloc: Global, text: &str, out: &mut Answer) -> Vec<u8> {
    let mut bytes = Vec::new(alloc);
    if add_bytes(&mut bytes, text).is_none() {
        out.refuse();
    }
    bytes
}

fn add_bytes(bytes: &mut Vec<u8>, text: &str) -> Option<()> {
    let mut pieces = text.split('\\');
    bytes.extend_from_slice(pieces.next()?.as_bytes()).ok()?;
    for piece in pieces {
        let (byte, rest) = escaped(piece)?;
        bytes.push(byte).ok()?;
        bytes.extend_from_slice(rest.as_bytes()).ok()?;
    }
    Some(())
}

// The byte that the text behind a backslash begins with, and the rest of the text.
fn escaped(text: &str) -> Option<(u8, &str)> {
    let (kind, rest) = text.split_at_checked(1)?;
    match kind {
        "t" => Some((b'\t', rest)),
        "n" => Some((b'\n', rest)),
        "r" => Some((b'\r', rest)),
        "x" => {
            let (digits, rest) = rest.split_at_checked(2)?;
            Some((u8::from_str_radix(digits, 16).ok()?, rest))
        }
        _ => None,
    }
}

/// Says bytes as a case writes them, between quotes.
pub fn say_quoted(out: &mut Answer, bytes: &[u8]) {
    out.put('"');
    say_bytes(out, bytes);
    out.put('"');
}

/// The same without quotes.
pub fn say_bytes(out: &mut Answer, bytes: &[u8]) {
    for byte in bytes {
        say_byte(out, *byte);
    }
}

fn say_byte(out: &mut Answer, byte: u8) {
    match byte {
        b'\t' => out.say("\\t"),
        b'\n' => out.say("\\n"),
        b'\r' => out.say("\\r"),
        b'"' | b'\\' | 0..=31 | 127..=255 => out.escape(byte),
        other => out.put(char::from(other)),
    }
}
