//! Several runs of one script, of which one is compared with another.
use crate::ending::{Ended, outcome};
use qv_cases_rows::Answer;
use qv_cases_runs::{Budgets, CERT_ROOM, Case, add_bytes, say_quoted, section_count};
use qv_shell::Status;
use std::alloc::Global;
use std::str;

// How the last run ended, and what it wrote.
#[derive(Drop)]
struct Last {
    is_there: bool,
    status: Status,
    text: Vec<u8>,
}

// No run yet.
fn none(alloc: Global) -> Last {
    Last {
        is_there: false,
        status: 0,
        text: Vec::new(alloc),
    }
}

// Says how a run ended, where that isn't how the last one did.
fn say_if_new(out: &mut Answer, last: &mut Last, ended: &Ended) {
    if last.is_there && last.status == ended.status && last.text == ended.text {
        return;
    }
    if last.is_there {
        out.say("; ");
    }
    out.show(ended.status);
    out.say(" ");
    say_quoted(out, &ended.text);
    last.is_there = true;
    last.status = ended.status;
    last.text.clear();
    add_bytes(&mut last.text, &ended.text, out);
}

/// How a script is solved with room for 0 bytes of its certificate, for 1, and so on: what differs
/// from the run before. Each time the certificate is as much of the whole one as there is room for.
pub fn fronts(alloc: Global, out: &mut Answer, case: &Case) {
    match case.texts.as_slice() {
        [script] => say_fronts(alloc, out, case.budgets, script),
        _ => out.refuse(),
    }
}

fn say_fronts(alloc: Global, out: &mut Answer, budgets: Budgets, script: &[u8]) {
    let whole = outcome(alloc, out, budgets, script, CERT_ROOM);
    let mut last = none(alloc);
    for room in 0..=whole.cert.len() {
        let ended = outcome(alloc, out, budgets, script, room);
        say_front(out, &mut last, &ended, &whole.cert[..room]);
    }
}

// Says how a run ended whose certificate should be this, since there was room for no more.
fn say_front(out: &mut Answer, last: &mut Last, ended: &Ended, front: &[u8]) {
    say_if_new(out, last, ended);
    if ended.cert.as_slice() != front {
        out.say(" no front");
    }
    if section_count(&ended.cert) < answer_count(&ended.text) {
        out.say(" no section");
    }
}

// How many lines are answers.
fn answer_count(text: &[u8]) -> u64 {
    let mut count: u64 = 0;
    if let Ok(text) = str::from_utf8(text) {
        for line in text.split('\n') {
            if matches!(line, "sat" | "unsat" | "unknown") {
                count = count.saturating_add(1);
            }
        }
    }
    count
}

/// How a script is solved with 1 of the budget that the case sets, with 2, and so on, up to what it
/// says: what differs from the run before.
pub fn each(alloc: Global, out: &mut Answer, case: &Case) {
    match case.texts.as_slice() {
        [script] => say_each(alloc, out, case.budgets, script),
        _ => out.refuse(),
    }
}

fn say_each(alloc: Global, out: &mut Answer, most: Budgets, script: &[u8]) {
    let mut last = none(alloc);
    for value in 1..=most.conflicts.max(most.instances).max(most.variables) {
        let ended = outcome(alloc, out, up_to(most, value), script, CERT_ROOM);
        say_if_new(out, &mut last, &ended);
    }
}

// So much of each budget that is set, up to what it says.
fn up_to(most: Budgets, value: u64) -> Budgets {
    Budgets {
        conflicts: value.min(most.conflicts),
        instances: value.min(most.instances),
        variables: value.min(most.variables),
    }
}

/// Declarations and what stands behind them are run, and then the model. With the model's
/// definitions in place of the declarations the rest prints the same. Says the first line.
pub fn model(alloc: Global, out: &mut Answer, case: &Case) {
    match case.texts.as_slice() {
        [declared, rest] => say_model(alloc, out, case.budgets, declared, rest),
        _ => out.refuse(),
    }
}

fn say_model(alloc: Global, out: &mut Answer, budgets: Budgets, declared: &[u8], rest: &[u8]) {
    let script = joined(alloc, out, &[declared, rest, b"(get-model)"]);
    let ended = outcome(alloc, out, budgets, &script, CERT_ROOM);
    out.show(ended.status);
    out.say(" ");
    match parts(&ended.text) {
        Some((answers, definitions)) => {
            out.give(answers.split_once('\n').map(|lines| lines.0));
            let script = joined(alloc, out, &[definitions.as_bytes(), rest]);
            let again = outcome(alloc, out, budgets, &script, CERT_ROOM);
            say_same(out, &again, answers.as_bytes());
        }
        None => out.say("no model"),
    }
}

// Texts in one.
fn joined(alloc: Global, out: &mut Answer, texts: &[&[u8]]) -> Vec<u8> {
    let mut all = Vec::new(alloc);
    for text in texts {
        add_bytes(&mut all, text, out);
    }
    all
}

// What is printed before a model, and its definitions.
fn parts(text: &[u8]) -> Option<(&str, &str)> {
    let (answers, model) = str::from_utf8(text).ok()?.split_once("(\n")?;
    Some((answers, model.strip_suffix(")\n")?))
}

// Says whether a run printed this.
fn say_same(out: &mut Answer, ended: &Ended, text: &[u8]) {
    if ended.status == 0 && ended.text.as_slice() == text {
        out.say(", again");
    } else {
        out.say(", then ");
        say_quoted(out, &ended.text);
    }
}
