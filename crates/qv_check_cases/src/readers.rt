//! Texts that a source gives in pieces, line by line: `GIVE FAILS CALLS TEXT`. The source gives at
//! most GIVE bytes a call, its calls FAILS fail (`-` where none does), and the reader is asked
//! CALLS times, for a line of a refutation from an `lrat` line on up to `end`.

ghost use Rattle.qv_cert.specs.CertReader.{IsInRange};

use crate::lines::say_printed;
use crate::pieces::text_of;
use qv_cases_rows::{Answer, Words};
use qv_cert::{CertNext, CertReader, Line};
use qv_io::MemSource;
use std::alloc::Global;

/// Says the answers of so many calls of a reader, each with the source's calls so far, then the
/// version, and what the source has left.
pub fn say_answers(alloc: Global, words: &mut Words<'_>, is_large: bool, out: &mut Answer) {
    let give = words.number();
    let fails = numbers(alloc, words.next(), out);
    let calls = words.number();
    let bytes = text_of(alloc, words, is_large, out);
    if give > 0 {
        let mut source = MemSource::new(bytes, give, fails);
        read(alloc, &mut source, calls, is_large, out);
    } else {
        out.refuse();
    }
}

// Numbers between commas, or `-` for none.
fn numbers(alloc: Global, text: &str, out: &mut Answer) -> Vec<u64> {
    let mut numbers = Vec::new(alloc);
    if text != "-" {
        for number in text.split(',') {
            add_number(&mut numbers, number, out);
        }
    }
    numbers
}

fn add_number(numbers: &mut Vec<u64>, text: &str, out: &mut Answer) {
    let is_added = match text.parse::<u64>() {
        Ok(number) => numbers.push(number).is_ok(),
        Err(_) => false,
    };
    if !is_added {
        out.refuse();
    }
}

fn read(alloc: Global, source: &mut MemSource, calls: u64, is_large: bool, out: &mut Answer) {
    match CertReader::new(alloc) {
        Ok(mut reader) => follow(alloc, &mut reader, source, calls, is_large, out),
        Err(_) => out.refuse(),
    }
}

fn follow(
    alloc: Global,
    reader: &mut CertReader,
    source: &mut MemSource,
    calls: u64,
    is_large: bool,
    out: &mut Answer,
) {
    let mut in_lrat = false;
    for _ in 0..calls {
        let next = reader.next_line(source, in_lrat);
        in_lrat = say_next(alloc, &next, is_large, in_lrat, out);
        out.say(" @");
        out.show(source.calls());
        out.say("; ");
    }
    out.say("version ");
    out.show(reader.version());
    out.say(", left ");
    out.show(source.left().len());
}

// Says one answer of the reader, and answers whether the next line is one of a refutation.
fn say_next(alloc: Global, next: &CertNext, is_large: bool, in_lrat: bool, out: &mut Answer) -> bool
    requires { IsInRange next.now }
{
    match next {
        CertNext::Line { number, line } => {
            out.show(*number);
            out.put(' ');
            say_printed(alloc, line, is_large, out);
            in_lrat_behind(line, in_lrat)
        }
        CertNext::NoMemory => {
            out.refuse();
            in_lrat
        }
        stop => {
            out.debug(stop);
            in_lrat
        }
    }
}

// Whether the next line is one of a refutation.
fn in_lrat_behind(line: &Line, in_lrat: bool) -> bool {
    match line {
        Line::Lrat => true,
        Line::End => false,
        _ => in_lrat,
    }
}
