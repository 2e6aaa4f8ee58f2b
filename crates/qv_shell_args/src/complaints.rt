//! What is wrong with words that are no call, in a line for people.

use crate::commands;
use crate::numbers::read_number;
use crate::reading::{GREATEST_COUNT, GREATEST_PLACES, GREATEST_VARIABLES, is_plain, unkept};
use clap::error::Error;
use clap::{ArgMatches, Command};
use std::alloc::{AllocError, Global};
use std::convert::AsStr;

/// What is wrong with words that are no call, in one line: it names the word, where there is one.
pub fn complaint(alloc: Global, words: &[String]) -> Result<String, AllocError> {
    match words {
        [name, rest @ ..] => of_words(alloc, name.as_str(), rest),
        [] => String::from_str(alloc, "no command and no script is named"),
    }
}

// What is wrong with a first word and the words behind it.
fn of_words(alloc: Global, name: &str, words: &[String]) -> Result<String, AllocError> {
    match name {
        "solve" => of_settings(alloc, commands::solve(alloc)?, words),
        "check" => of_checking(alloc, "check", "SCRIPT", "CERT", words),
        "lrat" => of_pair(alloc, "lrat", "CNF", "PROOF", words),
        "trim" => of_trim(alloc, words),
        "clauses" => of_checking(alloc, "clauses", "SCRIPT", "CERT", words),
        "qsolve" => of_settings(alloc, commands::qsolve(alloc)?, words),
        "qcheck" => of_checking(alloc, "qcheck", "FILE", "CERT", words),
        "gen" => of_number(alloc, "gen", 100_000, words),
        "bench" => of_number(alloc, "bench", 1_000, words),
        _ => of_script(alloc, name, words),
    }
}

// What is wrong with the name of a script and the words behind it.
fn of_script(alloc: Global, name: &str, words: &[String]) -> Result<String, AllocError> {
    if is_plain(name) {
        let all = unkept(alloc, name, words)?;
        of_settings(alloc, commands::solve(alloc)?, &all)
    } else {
        let mut text = String::new(alloc);
        write!(text, "'{name}' is no command and no script")?;
        Ok(text)
    }
}

fn of_settings<'a, S: AsStr>(
    alloc: Global,
    command: Command<'a>,
    words: &'a [S],
) -> Result<String, AllocError> {
    match command.try_get_matches_from(words) {
        Ok(matches) => of_numbers(alloc, &matches),
        Err(error) => said_by_clap(alloc, error),
    }
}

fn of_checking(
    alloc: Global,
    name: &str,
    first: &str,
    second: &str,
    words: &[String],
) -> Result<String, AllocError> {
    match commands::checking(alloc, name, first, second)?.try_get_matches_from(words) {
        Ok(matches) => of_places(alloc, &matches),
        Err(error) => said_by_clap(alloc, error),
    }
}

fn of_pair(
    alloc: Global,
    name: &str,
    first: &str,
    second: &str,
    words: &[String],
) -> Result<String, AllocError> {
    match commands::pair(alloc, name, first, second)?.try_get_matches_from(words) {
        Ok(_) => Ok(String::new(alloc)),
        Err(error) => said_by_clap(alloc, error),
    }
}

fn of_trim(alloc: Global, words: &[String]) -> Result<String, AllocError> {
    match commands::trim(alloc)?.try_get_matches_from(words) {
        Ok(matches) => of_new(alloc, &matches),
        Err(error) => said_by_clap(alloc, error),
    }
}

// What is wrong with the prefix limit; else it is the file that is written anew.
fn of_new(alloc: Global, matches: &ArgMatches<'_>) -> Result<String, AllocError> {
    let text = of_places(alloc, matches)?;
    if text.is_empty() {
        return String::from_str(alloc, "invalid value '-' for 'NEW': it has to be a file");
    }
    Ok(text)
}

fn of_number(alloc: Global, name: &str, most: u64, words: &[String]) -> Result<String, AllocError> {
    match commands::numbered(alloc, name)?.try_get_matches_from(words) {
        Ok(matches) => of_value(alloc, matches.get_str("N"), "N", 0, most),
        Err(error) => said_by_clap(alloc, error),
    }
}

// What is wrong with the prefix limit.
fn of_places(alloc: Global, matches: &ArgMatches<'_>) -> Result<String, AllocError> {
    of_value(
        alloc,
        matches.get_str("places"),
        "--places",
        1,
        GREATEST_PLACES,
    )
}

// What is wrong with the first number with which something is.
fn of_numbers(alloc: Global, matches: &ArgMatches<'_>) -> Result<String, AllocError> {
    let numbers = [
        ("--conflicts", "conflicts", GREATEST_COUNT),
        ("--instances", "instances", GREATEST_COUNT),
        ("--variables", "variables", GREATEST_VARIABLES),
        ("--places", "places", GREATEST_PLACES),
    ];
    for (option, id, most) in numbers {
        let text = of_value(alloc, matches.get_str(id), option, 1, most)?;
        if !text.is_empty() {
            return Ok(text);
        }
    }
    Ok(String::new(alloc))
}

// What is wrong with the number of an argument: nothing, where there is none.
fn of_value(
    alloc: Global,
    word: Option<&str>,
    name: &str,
    least: u64,
    most: u64,
) -> Result<String, AllocError> {
    let mut text = String::new(alloc);
    if let Some(word) = word {
        if read_number(word, least, most).is_none() {
            write!(
                text,
                "invalid value '{word}' for '{name}': no number from {least} to {most}"
            )?;
        }
    }
    Ok(text)
}

// The first lines of what `clap` says, as one.
fn said_by_clap(alloc: Global, error: Error) -> Result<String, AllocError> {
    let mut text = String::new(alloc);
    write!(text, "{error}")?;
    one_line(alloc, text.as_str())
}

// The lines before the first empty one, as one, and without a front that says that it is an error.
fn one_line(alloc: Global, text: &str) -> Result<String, AllocError> {
    let mut line = String::new(alloc);
    'lines: for part in text.lines() {
        let part = part.trim();
        if part.is_empty() {
            break;
        }
        if !line.is_empty() {
            line.push_str(" ")?;
        }
        line.push_str(part.strip_prefix("error: ").unwrap_or(part))?;
    }
    Ok(line)
}
