//! The words are read.

ghost use Rattle.std.specs.Prelude.{◌≡◌, ◌≤◌, true, IfOk, IfSome, map, option_map, string_bytes, Err};
ghost use Rattle.std.specs.Prelude.{ℕ, None, if◌then◌else◌};
ghost use Rattle.clap.specs.Words.{app_of, first_of, found_of, is_simple_and_free, rows_of};
ghost use Rattle.qv_shell_args.specs.Answers.{Answers, checking_texts, pair_texts, solving_texts};
ghost use Rattle.qv_shell_args.specs.Call.{ArePlaces, AreBudgets, AreSettings, IsCall, IsInRanges};
ghost use Rattle.qv_shell_args.specs.Call.{IsRefusedCall, budget, budgets_of, check_request};
ghost use Rattle.qv_shell_args.specs.Call.{checking_in, checking_of, clauses_request, has_flag};
ghost use Rattle.qv_shell_args.specs.Call.{is_plain, lrat_request, number_of, pair_in, pair_of};
ghost use Rattle.qv_shell_args.specs.Call.{places_of};
ghost use Rattle.qv_shell_args.specs.Call.{qcheck_request, qsolve_request, request_behind};
ghost use Rattle.qv_shell_args.specs.Call.{request_number, request_of, settings_of, solve_request};
ghost use Rattle.qv_shell_args.specs.Call.{solving_in, solving_of, trim_of, trim_request, unkept};
ghost use Rattle.qv_shell_args.specs.Commands.{matched};
ghost use Rattle.qv_shell_args.specs.declared.calls.CallFault.TheVariants.{Refused};

use crate::calls::{Budgets, Call, CallFault, Page, Settings};
use crate::commands;
use crate::numbers::read_number;
use clap::error::ErrorKind;
use clap::{ArgMatches, Command};
use std::alloc::{AllocError, Global};
use std::convert::AsStr;

// The greatest number of conflicts, and of instances.
pub(crate) const GREATEST_COUNT: u64 = (1 << 60) - 1;

// The greatest number of variables.
pub(crate) const GREATEST_VARIABLES: u64 = 1 << 30;

// The greatest limit on the variables of a prefix.
pub(crate) const GREATEST_PLACES: u64 = 1_000_000;

/// The call that the words of a command line make. The program's name is none of them.
pub fn call_of(alloc: Global, words: &[String]) -> Result<Call, CallFault>
    ensures call { IfOk result (IsCall (map string_bytes words.now)) }
    ensures refused { result ≡ Err Refused → IsRefusedCall (map string_bytes words.now) }
    ensures ranges { IfOk result IsInRanges }
{
    match words {
        [name, rest @ ..] => call_behind(alloc, name.as_str(), rest),
        [] => Err(CallFault::Refused),
    }
}

// The call of a command's name and the words behind it.
fn call_behind(alloc: Global, name: &str, words: &[String]) -> Result<Call, CallFault>
    ensures call { Answers request_of
        (request_behind name.now (map string_bytes words.now)) result }
    ensures ranges { IfOk result IsInRanges }
{
    match name {
        "solve" => solve_call(alloc, words),
        "check" => check_call(alloc, words),
        "lrat" => lrat_call(alloc, words),
        "trim" => trim_call(alloc, words),
        "clauses" => clauses_call(alloc, words),
        "qsolve" => qsolve_call(alloc, words),
        "qcheck" => qcheck_call(alloc, words),
        "gen" => Ok(Call::Gen(number(alloc, "gen", 100_000, words)?)),
        "bench" => Ok(Call::Bench(number(alloc, "bench", 1_000, words)?)),
        "-h" | "--help" | "help" => Ok(Call::Print(Page::Help)),
        "--version" => Ok(Call::Print(Page::Version)),
        _ => script_call(alloc, name, words),
    }
}

// The call of the name of a script and the words behind it.
fn script_call(alloc: Global, name: &str, words: &[String]) -> Result<Call, CallFault>
    ensures call { Answers request_of (if is_plain name.now
        then solve_request (unkept name.now (map string_bytes words.now)) else None) result }
    ensures ranges { IfOk result IsInRanges }
{
    if is_plain(name) {
        let all = unkept(alloc, name, words)?;
        solve_call(alloc, &all)
    } else {
        Err(CallFault::Refused)
    }
}

// Whether the word doesn't begin with `-`.
pub(crate) fn is_plain(word: &str) -> bool
    ensures { result ≡ is_plain word.now }
{
    match word.as_bytes() {
        [first, ..] => *first != b'-',
        [] => true,
    }
}

// The words behind `solve` that name this script, and keep no certificate.
pub(crate) fn unkept<'a>(
    alloc: Global,
    script: &'a str,
    words: &'a [String],
) -> Result<Vec<&'a str>, AllocError>
    ensures { IfOk result (λ all. map (λ s. s.now) all.items
        ≡ unkept script.now (map string_bytes words.now)) }
{
    let mut all = Vec::new(alloc);
    all.push(script)?;
    all.push("-")?;
    'words: for word in words {
        all.push(word.as_str())?;
    }
    Ok(all)
}

// The call that the words behind `solve` make.
fn solve_call<S: AsStr>(alloc: Global, words: &[S]) -> Result<Call, CallFault>
    ensures call { Answers request_of (solve_request (map S.text words.now)) result }
    ensures ranges { IfOk result IsInRanges }
{
    let command = commands::solve(alloc)?;
    let ((script, cert), settings) = solving(alloc, command, "SCRIPT", words)?;
    Ok(Call::Solve {
        script,
        cert,
        settings,
    })
}

// The call that the words behind `check` make.
fn check_call(alloc: Global, words: &[String]) -> Result<Call, CallFault>
    ensures call { Answers request_of (check_request (map string_bytes words.now)) result }
    ensures ranges { IfOk result IsInRanges }
{
    let ((script, cert), places) = checking(alloc, "check", "SCRIPT", "CERT", words)?;
    Ok(Call::Check {
        script,
        cert,
        places,
    })
}

// The call that the words behind `lrat` make.
fn lrat_call(alloc: Global, words: &[String]) -> Result<Call, CallFault>
    ensures call { Answers request_of (lrat_request (map string_bytes words.now)) result }
    ensures ranges { IfOk result IsInRanges }
{
    let (cnf, proof) = pair(alloc, "lrat", "CNF", "PROOF", words)?;
    Ok(Call::Lrat { cnf, proof })
}

// The call that the words behind `trim` make.
fn trim_call(alloc: Global, words: &[String]) -> Result<Call, CallFault>
    ensures call { Answers request_of (trim_request (map string_bytes words.now)) result }
    ensures ranges { IfOk result IsInRanges }
{
    let command = commands::trim(alloc)?;
    match matched(command, words) {
        Ok(matches) => trim_from(alloc, &matches),
        Err(fault) => Err(fault),
    }
}

// The call that the words behind `clauses` make.
fn clauses_call(alloc: Global, words: &[String]) -> Result<Call, CallFault>
    ensures call { Answers request_of (clauses_request (map string_bytes words.now)) result }
    ensures ranges { IfOk result IsInRanges }
{
    let ((script, cert), places) = checking(alloc, "clauses", "SCRIPT", "CERT", words)?;
    Ok(Call::Clauses {
        script,
        cert,
        places,
    })
}

// The call that the words behind `qsolve` make.
fn qsolve_call(alloc: Global, words: &[String]) -> Result<Call, CallFault>
    ensures call { Answers request_of (qsolve_request (map string_bytes words.now)) result }
    ensures ranges { IfOk result IsInRanges }
{
    let command = commands::qsolve(alloc)?;
    let ((file, cert), settings) = solving(alloc, command, "FILE", words)?;
    Ok(Call::QSolve {
        file,
        cert,
        settings,
    })
}

// The call that the words behind `qcheck` make.
fn qcheck_call(alloc: Global, words: &[String]) -> Result<Call, CallFault>
    ensures call { Answers request_of (qcheck_request (map string_bytes words.now)) result }
    ensures ranges { IfOk result IsInRanges }
{
    let ((file, cert), places) = checking(alloc, "qcheck", "FILE", "CERT", words)?;
    Ok(Call::QCheck { file, cert, places })
}

// A file, a certificate and settings, as the words have them that a command takes.
fn solving<'a, S: AsStr>(
    alloc: Global,
    command: Command<'a>,
    file: &'a str,
    words: &'a [S],
) -> Result<((String, String), Settings), CallFault>
    requires { is_simple_and_free (app_of command) ≡ true }
    ensures solving { Answers solving_texts
        (solving_in (app_of command.entry) file.now (map S.text words.now)) result }
    ensures ranges { IfOk result (λ solving. AreSettings solving.1) }
{
    match matched(command, words) {
        Ok(matches) => solving_from(alloc, &matches, file),
        Err(fault) => Err(fault),
    }
}

// Two files and the prefix limit, as the words behind a command's name have them.
fn checking<'a>(
    alloc: Global,
    name: &'a str,
    first: &'a str,
    second: &'a str,
    words: &'a [String],
) -> Result<((String, String), u32), CallFault>
    ensures checking { Answers checking_texts
        (checking_in name.now first.now second.now (map string_bytes words.now)) result }
    ensures ranges { IfOk result (λ checking. ArePlaces checking.1) }
{
    let command = commands::checking(alloc, name, first, second)?;
    match matched(command, words) {
        Ok(matches) => checking_from(alloc, &matches, first, second),
        Err(fault) => Err(fault),
    }
}

// The two words behind the name of a command that has two places.
fn pair<'a>(
    alloc: Global,
    name: &'a str,
    first: &'a str,
    second: &'a str,
    words: &'a [String],
) -> Result<(String, String), CallFault>
    ensures { Answers pair_texts
        (pair_in name.now first.now second.now (map string_bytes words.now)) result }
{
    let command = commands::pair(alloc, name, first, second)?;
    match matched(command, words) {
        Ok(matches) => pair_from(alloc, &matches, first, second),
        Err(fault) => Err(fault),
    }
}

// The number, up to `most`, that stands behind `gen` or `bench`.
fn number<'a>(
    alloc: Global,
    name: &'a str,
    most: u64,
    words: &'a [String],
) -> Result<u64, CallFault>
    ensures number { Answers (λ n. n)
        (request_number name.now most (map string_bytes words.now)) result }
    ensures range { IfOk result (λ n. n ≤ most) }
{
    let command = commands::numbered(alloc, name)?;
    match matched(command, words) {
        Ok(matches) => number_from(&matches, most),
        Err(fault) => Err(fault),
    }
}

// What `clap` finds for the command's arguments.
fn matched<'a, S: AsStr>(command: Command<'a>, words: &'a [S]) -> Result<ArgMatches<'a>, CallFault>
    requires { is_simple_and_free (app_of command) ≡ true }
    ensures { Answers (λ m. rows_of (found_of m))
        (matched (app_of command.entry) (map S.text words.now)) result }
{
    match command.try_get_matches_from(words) {
        Ok(matches) => Ok(matches),
        Err(error) => match error.kind() {
            ErrorKind::OutOfMemory => Err(CallFault::NoMemory),
            _ => Err(CallFault::Refused),
        },
    }
}

// The call of a script, a certificate, and a file that it is written into anew.
fn trim_from(alloc: Global, matches: &ArgMatches<'_>) -> Result<Call, CallFault>
    ensures call { Answers request_of (trim_of (rows_of (found_of matches.now))) result }
    ensures ranges { IfOk result IsInRanges }
{
    let ((script, cert), places) = checking_from(alloc, matches, "SCRIPT", "CERT")?;
    let to = text(alloc, matches, "NEW")?;
    if to.as_str() == "-" {
        Err(CallFault::Refused)
    } else {
        Ok(Call::Trim {
            script,
            cert,
            to,
            places,
        })
    }
}

// A file, a certificate and settings.
fn solving_from(
    alloc: Global,
    matches: &ArgMatches<'_>,
    file: &str,
) -> Result<((String, String), Settings), CallFault>
    ensures solving { Answers solving_texts
        (solving_of file.now (rows_of (found_of matches.now))) result }
    ensures ranges { IfOk result (λ solving. AreSettings solving.1) }
{
    let files = pair_from(alloc, matches, file, "CERT")?;
    match settings(matches) {
        Some(settings) => Ok((files, settings)),
        None => Err(CallFault::Refused),
    }
}

// Two files and the prefix limit.
fn checking_from(
    alloc: Global,
    matches: &ArgMatches<'_>,
    first: &str,
    second: &str,
) -> Result<((String, String), u32), CallFault>
    ensures checking { Answers checking_texts
        (checking_of first.now second.now (rows_of (found_of matches.now))) result }
    ensures ranges { IfOk result (λ checking. ArePlaces checking.1) }
{
    let files = pair_from(alloc, matches, first, second)?;
    match places(matches) {
        Some(places) => Ok((files, places)),
        None => Err(CallFault::Refused),
    }
}

// The words of two places.
fn pair_from(
    alloc: Global,
    matches: &ArgMatches<'_>,
    first: &str,
    second: &str,
) -> Result<(String, String), CallFault>
    ensures { Answers pair_texts
        (pair_of first.now second.now (rows_of (found_of matches.now))) result }
{
    let one = text(alloc, matches, first)?;
    let two = text(alloc, matches, second)?;
    Ok((one, two))
}

// A copy of the word of an argument.
fn text(alloc: Global, matches: &ArgMatches<'_>, id: &str) -> Result<String, CallFault>
    ensures { Answers string_bytes (first_of id.now (rows_of (found_of matches.now))) result }
{
    match word(matches, id) {
        Some(word) => Ok(String::from_str(alloc, word)?),
        None => Err(CallFault::Refused),
    }
}

// The word of an argument.
fn word<'a>(matches: &ArgMatches<'a>, id: &str) -> Option<&'a str>
    ensures { option_map (λ s. s.now) result ≡ first_of id.now (rows_of (found_of matches.now)) }
{
    matches.get_str(id)
}

// What the options of `solve` set.
fn settings(matches: &ArgMatches<'_>) -> Option<Settings>
    ensures settings { result ≡ settings_of (rows_of (found_of matches.now)) }
    ensures ranges { IfSome result AreSettings }
{
    let budgets = budgets(matches)?;
    let places = places(matches)?;
    Some(Settings {
        budgets,
        places,
        check: flag(matches, "check"),
        verbose: flag(matches, "verbose"),
        stats: flag(matches, "stats"),
    })
}

// The prefix limit.
#[tactic(auto, unfolding(crate::specs::Call::places_of))]
fn places(matches: &ArgMatches<'_>) -> Option<u32>
    ensures places { result ≡ places_of (rows_of (found_of matches.now)) }
    ensures range { IfSome result ArePlaces }
{
    Some(budget(matches, "places", 4_096, GREATEST_PLACES)? as u32)
}

// Whether a flag is among the words.
fn flag(matches: &ArgMatches<'_>, name: &str) -> bool
    ensures { result ≡ has_flag name.now (rows_of (found_of matches.now)) }
{
    match word(matches, name) {
        Some(word) => word == "true",
        None => false,
    }
}

// The budgets of `solve`.
#[tactic(auto, unfolding(crate::specs::Call::budgets_of))]
fn budgets(matches: &ArgMatches<'_>) -> Option<Budgets>
    ensures budgets { result ≡ budgets_of (rows_of (found_of matches.now)) }
    ensures ranges { IfSome result AreBudgets }
{
    Some(Budgets {
        conflicts: budget(matches, "conflicts", 1_000_000, GREATEST_COUNT)?,
        instances: budget(matches, "instances", 10_000, GREATEST_COUNT)?,
        variables: budget(matches, "variables", 4_000_000, GREATEST_VARIABLES)? as u32,
    })
}

// The number of an option, which is the default where the option isn't there.
fn budget(matches: &ArgMatches<'_>, name: &str, default: u64, most: u64) -> Option<u64>
    requires { (1 ≤ default) × (default ≤ most) }
    ensures number { result
        ≡ budget name.now default most (rows_of (found_of matches.now)) }
    ensures range { IfSome result (λ n. (1 ≤ n) × (n ≤ most)) }
{
    match word(matches, name) {
        Some(word) => read_number(word, 1, most),
        None => Some(default),
    }
}

// The number, up to `most`, of `gen` or `bench`.
fn number_from(matches: &ArgMatches<'_>, most: u64) -> Result<u64, CallFault>
    ensures number { Answers (λ n. n) (number_of most (rows_of (found_of matches.now))) result }
    ensures range { IfOk result (λ n. n ≤ most) }
{
    match word(matches, "N") {
        Some(word) => read_number(word, 0, most).ok_or(CallFault::Refused),
        None => Err(CallFault::Refused),
    }
}
