//! Many changes of one certificate.

use crate::sections::{Asked, verdict_on};
use std::alloc::Global;

// How many verdicts there were, how many accepted, and a sum of their texts.
#[derive(Clone, Copy)]
struct Tally {
    count: u64,
    accepted: u64,
    sum: u64,
}

// Nothing was told yet.
fn none_told() -> Tally {
    Tally {
        count: 0,
        accepted: 0,
        sum: 0xCBF2_9CE4_8422_2325,
    }
}

// One more verdict.
fn tallied(tally: Tally, text: &str) -> Tally {
    let mut sum = tally.sum;
    for byte in text.as_bytes() {
        sum = (sum ^ u64::from(*byte)).wrapping_mul(0x100_0000_01B3);
    }
    Tally {
        count: tally.count.wrapping_add(1),
        accepted: tally.accepted.wrapping_add(u64::from(is_accepted(text))),
        sum,
    }
}

fn is_accepted(text: &str) -> bool {
    text.starts_with("Sat") || text.starts_with("Unsat") || text.starts_with("Unknown")
}

fn shown(alloc: Global, tally: Tally) -> Option<String> {
    let Tally {
        count,
        accepted,
        sum,
    } = tally;
    format!(in alloc; "{accepted} of {count} accepted, {sum:x}").ok()
}

/// What becomes of each front of a certificate.
pub fn fronts(alloc: Global, asked: Asked<'_>, cert: &[u8]) -> Option<String> {
    let mut tally = none_told();
    for end in 0..=cert.len() {
        let text = verdict_on(alloc, asked, &cert[..end], 0)?;
        tally = tallied(tally, text.as_str());
    }
    shown(alloc, tally)
}

/// What becomes of a certificate where one bit is turned, for each of its bits.
pub fn bits(alloc: Global, asked: Asked<'_>, cert: &mut Vec<u8>) -> Option<String> {
    let mut tally = none_told();
    for at in 0..cert.len() {
        for bit in [1_u8, 2, 4, 8, 16, 32, 64, 128] {
            let before = *cert.get(at)?;
            turn(cert, at, before ^ bit);
            let text = verdict_on(alloc, asked, cert, 0)?;
            turn(cert, at, before);
            tally = tallied(tally, text.as_str());
        }
    }
    shown(alloc, tally)
}

// Puts a byte in the place of another.
fn turn(cert: &mut Vec<u8>, at: usize, byte: u8) {
    if at < cert.len() {
        cert[at] = byte;
    }
}

/// How many calls of the source may each fail so that the section ends by it, and the verdict where
/// a later one does.
pub fn failures(alloc: Global, asked: Asked<'_>, cert: &[u8]) -> Option<String> {
    for call in 1..u64::MAX {
        let text = verdict_on(alloc, asked, cert, call)?;
        if text.as_str() != "read fault" {
            let count = call - 1;
            return format!(in alloc; "{count} read faults, {text}").ok();
        }
    }
    None
}
