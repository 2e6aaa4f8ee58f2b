//! Literals and clauses, as answers write them.

use qv_cases_rows::Answer;
use qv_cnf::{ClauseList, Lit};

/// Clauses are written out up to this one.
pub const FEW: u64 = 64;

/// Where a checksum begins.
pub const START: u64 = 0xcbf2_9ce4_8422_2325;

/// Says literals with a blank before each.
pub fn say_literals(out: &mut Answer, lits: &[Lit]) {
    for lit in lits {
        out.put(' ');
        out.show(lit.number());
    }
}

// One more number in a checksum.
fn mixed(sum: u64, number: u64) -> u64 {
    (sum ^ number).wrapping_mul(0x100_0000_01b3)
}

/// The checksum with the places of a clause's literals, and 1 behind them.
pub fn with_clause(sum: u64, lits: &[Lit]) -> u64 {
    let mut sum = sum;
    for lit in lits {
        sum = mixed(sum, lit.index() as u64);
    }
    mixed(sum, 1)
}

// The checksum of the clauses from the first id on.
fn checksum(list: &ClauseList, first: u64, end: u64) -> u64 {
    let mut sum = START;
    for id in first..end {
        if let Some(lits) = list.get(id) {
            sum = with_clause(sum, lits);
        }
    }
    sum
}

/// Says the clauses from the first id on, each behind a semicolon, or their number and a checksum
/// where there are many.
pub fn say_clauses(out: &mut Answer, list: &ClauseList, first: u64, end: u64) {
    if end > FEW {
        say_sum(out, list, first, end);
    } else {
        say_each(out, list, first, end);
    }
}

fn say_sum(out: &mut Answer, list: &ClauseList, first: u64, end: u64) {
    out.say("; ");
    out.show(end);
    out.put(' ');
    out.hex(u128::from(checksum(list, first, end)));
}

fn say_each(out: &mut Answer, list: &ClauseList, first: u64, end: u64) {
    for id in first..end {
        out.put(';');
        match list.get(id) {
            Some(lits) => say_literals(out, lits),
            None => out.refuse(),
        }
    }
}
