//! Answers the cases on standard input: what `run` and `plan` do, and several runs of one script, of
//! which one is compared with another. `check GIVE A B C SCRIPT|CERT` runs `check`: each call of a
//! source gives at most GIVE bytes, and one of the sink takes at most so many; the script's call A
//! fails, the certificate's call B and the sink's call C, and none with 0. `qdimacs` stands before
//! cases of files, and `call` before words whose call is printed.
#![tactic(auto)]

mod calls;
mod checks;
mod ending;
mod files;
mod runs;
mod series;

use qv_cases_rows::{Answer, Cases, Words, answer_all};
use qv_cases_runs::{Case, read};
use std::alloc::Global;
use std::io;

enum Command {
    Over(Objects),
    Check,
    Files,
    Calls,
}

// What is done over a source and sinks.
enum Objects {
    Run,
    StdRun,
    Words,
    Model,
    Fronts,
    Each,
}

static COMMANDS: [(&str, Command); 9] = [
    ("run", Command::Over(Objects::Run)),
    ("std-run", Command::Over(Objects::StdRun)),
    ("words", Command::Over(Objects::Words)),
    ("model", Command::Over(Objects::Model)),
    ("fronts", Command::Over(Objects::Fronts)),
    ("each", Command::Over(Objects::Each)),
    ("check", Command::Check),
    ("qdimacs", Command::Files),
    ("call", Command::Calls),
];

// Says the answer to a case over a source and sinks.
fn answer(alloc: Global, out: &mut Answer, command: &Objects, case: &mut Case) {
    match command {
        Objects::Run => runs::solve(alloc, out, case),
        Objects::StdRun => runs::solve_over_std(alloc, out, case),
        Objects::Words => runs::words(alloc, out, case),
        Objects::Model => series::model(alloc, out, case),
        Objects::Fronts => series::fronts(alloc, out, case),
        Objects::Each => series::each(alloc, out, case),
    }
}

fn answer_over(alloc: Global, out: &mut Answer, command: &Objects, line: &str) {
    match read(alloc, line, out) {
        Some(mut case) => answer(alloc, out, command, &mut case),
        None => out.refuse(),
    }
}

// Says the answer to a line, whose words but the first are these.
fn answer_line(
    alloc: Global,
    out: &mut Answer,
    command: &Command,
    line: &str,
    words: &mut Words<'_>,
) {
    match command {
        Command::Over(objects) => {
            answer_over(alloc, out, objects, line);
            return;
        }
        Command::Check => checks::say_check(alloc, words, out),
        Command::Files => files::say_file(alloc, words, out),
        Command::Calls => calls::say_call(alloc, words, out),
    }
    if !words.are_read() || !words.is_empty() {
        out.refuse();
    }
}

// The cases have no state.
#[derive(Drop)]
struct RunCases {
    alloc: Global,
}

impl Cases for RunCases {
    fn answer(&mut self, words: &mut Words<'_>, out: &mut Answer) {
        let line = words.rest();
        let mut words = Words::new(line);
        match words.pick(&COMMANDS) {
            Some(command) => answer_line(self.alloc, out, command, line, &mut words),
            None => out.refuse(),
        }
    }
}

fn main(rt: HostRuntime) -> io::Result<()> {
    let mut cases = RunCases { alloc: rt.alloc() };
    answer_all(&rt, &mut cases)
}
