//! The generator's scripts.

use qv_cases_rows::{Answer, Words};
use qv_gen::{GREATEST_NUMBER, block, next_state, script};
use std::alloc::Global;

/// `STATE`: the next one.
pub fn say_state(words: &mut Words<'_>, out: &mut Answer) {
    out.show(next_state(words.number()));
}

/// `STATE`: the text of its block.
pub fn say_block(alloc: Global, words: &mut Words<'_>, out: &mut Answer) {
    match block(alloc, words.number()) {
        Ok(text) => say_in_one_line(out, &text),
        Err(_) => out.refuse(),
    }
}

/// `NUMBER`: the whole script.
pub fn say_script(alloc: Global, words: &mut Words<'_>, out: &mut Answer) {
    match script_of(alloc, words.number()) {
        Some(text) => say_in_one_line(out, &text),
        None => out.refuse(),
    }
}

/// `NUMBER`: how long the script is, and its checksum.
pub fn say_sum(alloc: Global, words: &mut Words<'_>, out: &mut Answer) {
    match script_of(alloc, words.number()) {
        Some(text) => {
            out.show(text.len());
            out.put(' ');
            out.hex(u128::from(checksum(&text)));
        }
        None => out.refuse(),
    }
}

// The script of a number, if it has one.
fn script_of(alloc: Global, number: u64) -> Option<Vec<u8>> {
    if number > GREATEST_NUMBER {
        return None;
    }
    script(alloc, number).ok()
}

// A text with `|` for each end of a line.
fn say_in_one_line(out: &mut Answer, text: &[u8]) {
    for byte in text {
        let shown = if *byte == b'\n' { b'|' } else { *byte };
        out.put(char::from(shown));
    }
}

// FNV-1a, of 64 bits.
fn checksum(text: &[u8]) -> u64 {
    text.iter().fold(0xcbf29ce484222325, |sum, byte| {
        (sum ^ u64::from(*byte)).wrapping_mul(0x100000001b3)
    })
}
