//! How a run over memory ends.
use qv_cases_rows::Answer;
use qv_cases_runs::{Budgets, Given, add_bytes, solve_words};
use qv_io::{Sink, Source};
use qv_meter::Meter;
use qv_shell::{Nobody, Status, run};
use std::alloc::Global;

/// How a run ended, what it printed, and its certificate.
#[derive(Drop)]
pub struct Ended {
    pub status: Status,
    pub text: Vec<u8>,
    pub cert: Vec<u8>,
}

/// Solves a script with these budgets, and with room for so many bytes of its certificate.
pub fn outcome(
    alloc: Global,
    out: &mut Answer,
    budgets: Budgets,
    script: &[u8],
    room: usize,
) -> Ended {
    let mut ended = Ended {
        status: 5,
        text: Vec::new(alloc),
        cert: Vec::new(alloc),
    };
    match Given::new(alloc, out, script, b"", room) {
        Some(mut given) => run_given(alloc, out, budgets, &mut given, &mut ended),
        None => out.refuse(),
    }
    ended
}

fn run_given(
    alloc: Global,
    out: &mut Answer,
    budgets: Budgets,
    given: &mut Given,
    ended: &mut Ended,
) {
    let words = solve_words(alloc, out, budgets);
    ended.status = status_of(
        alloc,
        &words,
        &mut given.script,
        &mut given.cert_in,
        &mut given.out,
        &mut given.cert_out,
    );
    add_bytes(&mut ended.text, given.out.bytes(), out);
    add_bytes(&mut ended.cert, given.cert_out.bytes(), out);
}

/// How a run ends. What its callers needn't know of it costs them no proof.
pub fn status_of<S: Source, C: Source, O: Sink, P: Sink>(
    alloc: Global,
    words: &[String],
    script: &mut S,
    cert_in: &mut C,
    out: &mut O,
    cert_out: &mut P,
) -> Status {
    let mut meter = Meter::new(alloc);
    run(
        alloc,
        words,
        script,
        cert_in,
        out,
        cert_out,
        &mut meter,
        &mut Nobody,
    )
}
