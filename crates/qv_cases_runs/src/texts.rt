//! Texts between quotes, with escapes for what isn't printed.
use qv_cases_rows::Answer;
use std::alloc::Global;

/// The texts behind a case's first quote: `a\n" "b"`.
pub fn texts_of(alloc: Global, quoted: Option<&str>, out: &mut Answer) -> Vec<Vec<u8>> {
    let mut texts = Vec::new(alloc);
    if let Some(quoted) = quoted {
        match quoted.strip_suffix('"') {
            Some(inside) => add_texts(alloc, &mut texts, inside, out),
            None => out.refuse(),
        }
    }
    texts
}

fn add_texts(alloc: Global, texts: &mut Vec<Vec<u8>>, inside: &str, out: &mut Answer) {
    for text in inside.split("\" \"") {
        if texts.push(bytes_of(alloc, text, out)).is_err() {
            out.refuse();
        }
    }
}

/// The bytes that a text stands for.
pub fn bytes_of(alloc: Global, text: &str, out: &mut Answer) -> Vec<u8> {
    let mut bytes = Vec::new(alloc);
    let mut pieces = text.split('\\');
    add(&mut bytes, pieces.next().unwrap_or(""), out);
    for piece in pieces {
        add_escaped(alloc, &mut bytes, piece, out);
    }
    bytes
}

fn add(bytes: &mut Vec<u8>, text: &str, out: &mut Answer) {
    if bytes.extend_from_slice(text.as_bytes()).is_err() {
        out.refuse();
    }
}

// Adds a piece that begins with an escape.
fn add_escaped(alloc: Global, bytes: &mut Vec<u8>, piece: &str, out: &mut Answer) {
    if let Some(text) = piece.strip_prefix('{') {
        add_repeated(bytes, repetition(text, '}'), out);
    } else if let Some(text) = piece.strip_prefix('[') {
        add_numbered(alloc, bytes, repetition(text, ']'), out);
    } else {
        add_one(bytes, escape(piece), out);
    }
}

fn add_one(bytes: &mut Vec<u8>, found: Option<(u8, &str)>, out: &mut Answer) {
    match found {
        Some((byte, rest)) => {
            if bytes.push(byte).is_err() {
                out.refuse();
            }
            add(bytes, rest, out);
        }
        None => out.refuse(),
    }
}

// The byte that an escape stands for, `t`, `n`, `r`, a quote or `x7f`, and what is behind it.
fn escape(piece: &str) -> Option<(u8, &str)> {
    let (kind, rest) = piece.split_at_checked(1)?;
    match kind {
        "t" => Some((b'\t', rest)),
        "n" => Some((b'\n', rest)),
        "r" => Some((b'\r', rest)),
        "\"" => Some((b'"', rest)),
        "x" => byte(rest),
        _ => None,
    }
}

fn byte(text: &str) -> Option<(u8, &str)> {
    let (digits, rest) = text.split_at_checked(2)?;
    Some((u8::from_str_radix(digits, 16).ok()?, rest))
}

// A text that stands for more of its kind.
#[derive(Clone, Copy)]
struct Repeated<'a> {
    count: u32,
    text: &'a str,
    // What is behind it.
    rest: &'a str,
}

// What `9:ab` stands for in front of this end.
fn repetition(piece: &str, end: char) -> Option<Repeated<'_>> {
    let (inside, rest) = piece.split_once(end)?;
    let (count, text) = inside.split_once(':')?;
    Some(Repeated {
        count: count.parse::<u32>().ok()?,
        text,
        rest,
    })
}

// Adds `ababab` for `3:ab}`, and what is behind it.
fn add_repeated(bytes: &mut Vec<u8>, found: Option<Repeated<'_>>, out: &mut Answer) {
    match found {
        Some(repetition) => {
            for _ in 0..repetition.count {
                add(bytes, repetition.text, out);
            }
            add(bytes, repetition.rest, out);
        }
        None => out.refuse(),
    }
}

// Adds `a0 a1 a2 ` for `3:a@ ]`, and what is behind it.
fn add_numbered(alloc: Global, bytes: &mut Vec<u8>, found: Option<Repeated<'_>>, out: &mut Answer) {
    match found {
        Some(repetition) => {
            for number in 0..repetition.count {
                add_with_number(alloc, bytes, repetition.text, number, out);
            }
            add(bytes, repetition.rest, out);
        }
        None => out.refuse(),
    }
}

// Adds a text with a number for each `@`.
fn add_with_number(alloc: Global, bytes: &mut Vec<u8>, text: &str, number: u32, out: &mut Answer) {
    match format!(in alloc; "{number}") {
        Ok(digits) => add_with(bytes, text, digits.as_str(), out),
        Err(_) => out.refuse(),
    }
}

fn add_with(bytes: &mut Vec<u8>, text: &str, digits: &str, out: &mut Answer) {
    let mut pieces = text.split('@');
    add(bytes, pieces.next().unwrap_or(""), out);
    for piece in pieces {
        add(bytes, digits, out);
        add(bytes, piece, out);
    }
}

/// Says bytes as cases write them.
pub fn say_quoted(out: &mut Answer, bytes: &[u8]) {
    out.put('"');
    for byte in bytes {
        say_byte(out, *byte);
    }
    out.put('"');
}

fn say_byte(out: &mut Answer, byte: u8) {
    match byte {
        b'\n' => out.say("\\n"),
        b'"' => out.say("\\\""),
        32..=91 | 93..=126 => out.put(char::from(byte)),
        _ => out.escape(byte),
    }
}
