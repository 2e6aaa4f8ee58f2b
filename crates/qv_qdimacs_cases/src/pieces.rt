//! Long texts as a case writes them: pieces `N*TEXT` between bars, each of which is the text N
//! times.

use crate::bytes::bytes_of;
use qv_cases_rows::Answer;
use std::alloc::Global;

/// The bytes that a case writes in pieces. Where they can't be read, it is none.
pub fn pieces_of(alloc: Global, text: &str, out: &mut Answer) -> Vec<u8> {
    let mut bytes = Vec::new(alloc);
    for piece in text.split('|') {
        add_piece(alloc, &mut bytes, piece, out);
    }
    bytes
}

fn add_piece(alloc: Global, bytes: &mut Vec<u8>, piece: &str, out: &mut Answer) {
    let (times, text) = piece.split_once('*').unwrap_or(("", ""));
    let text = bytes_of(alloc, text, out);
    match times.parse::<usize>() {
        Ok(times) => add_repeated(bytes, times, &text, out),
        Err(_) => out.refuse(),
    }
}

fn add_repeated(bytes: &mut Vec<u8>, times: usize, text: &[u8], out: &mut Answer) {
    for _ in 0..times {
        if bytes.extend_from_slice(text).is_err() {
            out.refuse();
        }
    }
}
