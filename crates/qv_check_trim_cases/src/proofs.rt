//! Proofs beside CNF texts: `GIVE CNF|PROOF`. Each source gives at most GIVE bytes a call.

use qv_cases_rows::{Answer, Words};
use qv_cases_runs::bytes_of;
use qv_check_script::Ending;
use qv_io::{MemSink, MemSource};
use qv_lrat::check_proof;
use std::alloc::Global;

// More than any outcome has.
const ROOM: usize = 200;

/// Says the status, and what is printed.
pub fn say_proof(alloc: Global, words: &mut Words<'_>, out: &mut Answer) {
    let give = words.number();
    let (cnf, proof) = words.rest().split_once('|').unwrap_or(("", ""));
    let cnf = bytes_of(alloc, cnf, out);
    let proof = bytes_of(alloc, proof, out);
    if give == 0 {
        out.refuse();
        return;
    }
    let mut cnf = MemSource::new(cnf, give, Vec::new(alloc));
    let mut proof = MemSource::new(proof, give, Vec::new(alloc));
    match MemSink::new(alloc, ROOM, ROOM, Vec::new(alloc)) {
        Ok(mut sink) => say_outcome(alloc, &mut cnf, &mut proof, &mut sink, out),
        Err(_) => out.refuse(),
    }
}

fn say_outcome(
    alloc: Global,
    cnf: &mut MemSource,
    proof: &mut MemSource,
    sink: &mut MemSink,
    out: &mut Answer,
) {
    match check_proof(alloc, cnf, proof, sink) {
        Ok(ending) => {
            out.show(status_of(ending));
            out.say(": ");
            say_line(sink.bytes(), out);
        }
        Err(halt) => out.debug(halt),
    }
}

fn status_of(ending: Ending) -> u64 {
    match ending {
        Ending::Accepted => 0,
        Ending::Faulty => 1,
        Ending::Refused => 6,
    }
}

// A line without its LF.
fn say_line(bytes: &[u8], out: &mut Answer) {
    match str::from_utf8(bytes) {
        Ok(line) => out.say(line.trim_end()),
        Err(_) => out.refuse(),
    }
}
