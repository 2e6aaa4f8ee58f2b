//! Command lines.

use qv_cases_rows::{Answer, Words};
use qv_shell_args::{Budgets, Call, CallFault, Page, Settings, call_of};
use std::alloc::{AllocError, Global};

/// Says the call of `none`, or of `words` and words with a bar between two of them.
pub fn say_call(alloc: Global, words: &mut Words<'_>, out: &mut Answer) {
    let read = match words.next() {
        "none" => Ok(Vec::new(alloc)),
        "words" => parts(alloc, words.rest()),
        _ => Err(AllocError),
    };
    match read {
        Ok(words) => say(call_of(alloc, &words), out),
        Err(AllocError) => out.refuse(),
    }
}

// The texts between bars.
fn parts(alloc: Global, line: &str) -> Result<Vec<String>, AllocError> {
    let mut parts = Vec::new(alloc);
    for part in line.split('|') {
        parts.push(String::from_str(alloc, part)?)?;
    }
    Ok(parts)
}

// The call, in the form of the words.
fn say(call: Result<Call, CallFault>, out: &mut Answer) {
    match call {
        Ok(
            Call::Solve {
                script,
                cert,
                settings,
            },
        ) => {
            say_files("solve", script.as_str(), cert.as_str(), out);
            say_settings(settings, out);
        }
        Ok(
            Call::Check {
                script,
                cert,
                places,
            },
        ) => {
            say_files("check", script.as_str(), cert.as_str(), out);
            say_number("|", u64::from(places), out);
        }
        Ok(Call::Lrat { cnf, proof }) => say_files("lrat", cnf.as_str(), proof.as_str(), out),
        Ok(
            Call::Trim {
                script,
                cert,
                to,
                places,
            },
        ) => {
            say_files("trim", script.as_str(), cert.as_str(), out);
            out.say("|");
            out.say(to.as_str());
            say_number("|", u64::from(places), out);
        }
        Ok(
            Call::Clauses {
                script,
                cert,
                places,
            },
        ) => {
            say_files("clauses", script.as_str(), cert.as_str(), out);
            say_number("|", u64::from(places), out);
        }
        Ok(
            Call::QSolve {
                file,
                cert,
                settings,
            },
        ) => {
            say_files("qsolve", file.as_str(), cert.as_str(), out);
            say_settings(settings, out);
        }
        Ok(Call::QCheck { file, cert, places }) => {
            say_files("qcheck", file.as_str(), cert.as_str(), out);
            say_number("|", u64::from(places), out);
        }
        Ok(Call::Gen(number)) => say_number("gen|", number, out),
        Ok(Call::Bench(number)) => say_number("bench|", number, out),
        Ok(Call::Print(Page::Help)) => out.say("help"),
        Ok(Call::Print(Page::Version)) => out.say("version"),
        Err(CallFault::Refused) => out.say("refused"),
        Err(CallFault::NoMemory) => out.say("no memory"),
    }
}

fn say_files(name: &str, script: &str, cert: &str, out: &mut Answer) {
    out.say(name);
    out.say("|");
    out.say(script);
    out.say("|");
    out.say(cert);
}

fn say_settings(settings: Settings, out: &mut Answer) {
    say_budgets(settings.budgets, out);
    say_number("|", u64::from(settings.places), out);
    for (flag, name) in [
        (settings.check, "|check"),
        (settings.verbose, "|verbose"),
        (settings.stats, "|stats"),
    ] {
        if flag {
            out.say(name);
        }
    }
}

fn say_budgets(budgets: Budgets, out: &mut Answer) {
    say_number("|", budgets.conflicts, out);
    say_number("|", budgets.instances, out);
    say_number("|", u64::from(budgets.variables), out);
}

fn say_number(before: &str, number: u64, out: &mut Answer) {
    out.say(before);
    out.show(number);
}
