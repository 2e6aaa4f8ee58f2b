//! Single lines: how they are read, and what is printed for them.

ghost use Rattle.qv_cert.specs.Line.{IsCertLine};
ghost use Rattle.qv_cert.specs.LineView.{cert_line_of};

use crate::bytes::say_quoted;
use qv_cases_rows::Answer;
use qv_cert::{CertLineFault, Line, read_cert_line};
use qv_cert_text::print_cert_line;
use std::alloc::Global;

/// Says the line that the bytes are read as, or its fault.
pub fn say_line(alloc: Global, bytes: &[u8], in_lrat: bool, is_large: bool, out: &mut Answer) {
    match read_cert_line(alloc, bytes, in_lrat) {
        Ok(line) => {
            if !is_large {
                say_fields(&line, out);
            }
            say_printed(alloc, &line, is_large, out);
        }
        Err(fault) => say_fault(fault, out),
    }
}

// Says the line's fields, but for those of a step.
fn say_fields(line: &Line, out: &mut Answer) {
    match line {
        Line::Step(_) => out.say("Step"),
        other => out.debug(other),
    }
    out.say(" -> ");
}

/// Says what is printed for a line, or how many bytes, and their sum with places as factors.
pub fn say_printed(alloc: Global, line: &Line, is_large: bool, out: &mut Answer)
    requires { IsCertLine (cert_line_of line.now) }
{
    let mut printed = Vec::new(alloc);
    if print_cert_line(line, &mut printed).is_err() {
        out.refuse();
    }
    if is_large {
        say_sums(&printed, out);
    } else {
        say_quoted(out, &printed);
    }
}

fn say_sums(printed: &[u8], out: &mut Answer) {
    let mut sum: u64 = 0;
    for (i, byte) in printed.iter().enumerate() {
        sum = sum.wrapping_add((i as u64).wrapping_mul(u64::from(*byte)));
    }
    out.show(printed.len());
    out.put(' ');
    out.show(sum);
}

// Says the name of a fault.
fn say_fault(fault: CertLineFault, out: &mut Answer) {
    match fault {
        CertLineFault::Header => out.say("header"),
        CertLineFault::Form => out.say("form"),
        CertLineFault::Operator => out.say("operator"),
        CertLineFault::Rule => out.say("rule"),
        CertLineFault::Literal => out.say("literal"),
        CertLineFault::NoMemory => out.refuse(),
    }
}
