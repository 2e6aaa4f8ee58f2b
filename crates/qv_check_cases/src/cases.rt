//! The answer to a case.

use crate::bytes::read_bytes;
use crate::changes::{bits, failures, fronts};
use crate::lines::say_line;
use crate::pieces::text_of;
use crate::readers::say_answers;
use crate::sections::{Asked, verdict_on};
use qv_cases_rows::{Answer, Cases, Words};
use std::alloc::Global;

/// The cases have no state.
#[derive(Clone, Copy)]
pub struct CheckCases {
    pub alloc: Global,
}

// What is told: how sections end, or of lines, in short where the text is long.
#[derive(Clone, Copy)]
enum Call {
    Section(Change),
    Line { in_lrat: bool, is_large: bool },
    Reader { is_large: bool },
}

// What is checked: a certificate, or many changes of it.
#[derive(Clone, Copy)]
enum Change {
    Nothing,
    Fronts,
    Bits,
    Failures,
}

static CALLS: [(&str, Call); 10] = [
    ("check", Call::Section(Change::Nothing)),
    ("each", Call::Section(Change::Fronts)),
    ("bits", Call::Section(Change::Bits)),
    ("fails", Call::Section(Change::Failures)),
    (
        "outer",
        Call::Line {
            in_lrat: false,
            is_large: false,
        },
    ),
    (
        "inner",
        Call::Line {
            in_lrat: true,
            is_large: false,
        },
    ),
    (
        "large-outer",
        Call::Line {
            in_lrat: false,
            is_large: true,
        },
    ),
    (
        "large-inner",
        Call::Line {
            in_lrat: true,
            is_large: true,
        },
    ),
    ("reader", Call::Reader { is_large: false }),
    ("large-reader", Call::Reader { is_large: true }),
];

impl Cases for CheckCases {
    fn answer(&mut self, words: &mut Words<'_>, out: &mut Answer) {
        match words.pick(&CALLS) {
            Some(Call::Section(change)) => say_section(self.alloc, words, out, *change),
            Some(Call::Line { in_lrat, is_large }) => {
                let bytes = text_of(self.alloc, words, *is_large, out);
                say_line(self.alloc, &bytes, *in_lrat, *is_large, out);
            }
            Some(Call::Reader { is_large }) => say_answers(self.alloc, words, *is_large, out),
            None => out.refuse(),
        }
    }
}

fn say_section(alloc: Global, words: &mut Words<'_>, out: &mut Answer, change: Change) {
    let number = match change {
        Change::Nothing => words.number::<u64>(),
        _ => 1,
    };
    let give = words.number::<usize>();
    match told(alloc, change, number, give, words.rest()) {
        Some(text) => out.say(text.as_str()),
        None => out.refuse(),
    }
}

// What is told of the formulas and the certificate of a case.
fn told(alloc: Global, change: Change, number: u64, give: usize, case: &str) -> Option<String> {
    let (formulas, text) = case.split_once('|')?;
    let mut cert = read_bytes(alloc, text)?;
    let asked = Asked {
        formulas,
        number,
        give,
    };
    match change {
        Change::Nothing => verdict_on(alloc, asked, &cert, 0),
        Change::Fronts => fronts(alloc, asked, &cert),
        Change::Bits => bits(alloc, asked, &mut cert),
        Change::Failures => failures(alloc, asked, &cert),
    }
}
