//! The commands by which `clap` reads the words behind the first one.

ghost use Rattle.std.specs.Prelude.{◌≡◌, IfOk, false};
ghost use Rattle.clap.specs.Words.{App, Rule, app_of, rule_of, with_rule};
ghost use Rattle.qv_shell_args.specs.Commands.{bare_command, checking_command, flag, number_command};
ghost use Rattle.qv_shell_args.specs.Commands.{option, pair_command, place, qsolve_command};
ghost use Rattle.qv_shell_args.specs.Commands.{settled_command, solve_command, trim_command};

use clap::{Arg, ArgAction, Command};
use std::alloc::{AllocError, Global};

/// What `solve` takes: a script, a certificate, budgets, the prefix limit and flags.
pub fn solve<'a>(alloc: Global) -> Result<Command<'a>, AllocError>
    ensures { IfOk result (λ command. app_of command ≡ solve_command) }
{
    let with_one = with_arg(settled(alloc, "solve", "SCRIPT"), flag(alloc, "check"));
    with_arg(with_one, flag(alloc, "verbose"))
}

/// What `qsolve` takes: a formula, a certificate, budgets, the prefix limit and `--stats`.
pub fn qsolve<'a>(alloc: Global) -> Result<Command<'a>, AllocError>
    ensures { IfOk result (λ command. app_of command ≡ qsolve_command) }
{
    settled(alloc, "qsolve", "FILE")
}

// `NAME FILE CERT [--conflicts N] [--instances N] [--variables N] [--places N] [--stats]`
fn settled<'a>(alloc: Global, name: &'a str, file: &'a str) -> Result<Command<'a>, AllocError>
    ensures { IfOk result (λ command. app_of command ≡ settled_command name.now file.now) }
{
    let files = pair(alloc, name, file, "CERT");
    let with_one = with_arg(files, option(alloc, "conflicts"));
    let with_two = with_arg(with_one, option(alloc, "instances"));
    let with_three = with_arg(with_two, option(alloc, "variables"));
    let with_four = with_arg(with_three, option(alloc, "places"));
    with_arg(with_four, flag(alloc, "stats"))
}

/// `trim SCRIPT CERT NEW [--places N]`
pub fn trim<'a>(alloc: Global) -> Result<Command<'a>, AllocError>
    ensures { IfOk result (λ command. app_of command ≡ trim_command) }
{
    let files = pair(alloc, "trim", "SCRIPT", "CERT");
    let with_one = with_arg(files, place(alloc, "NEW"));
    with_arg(with_one, option(alloc, "places"))
}

/// `NAME FIRST SECOND [--places N]`
pub fn checking<'a>(
    alloc: Global,
    name: &'a str,
    first: &'a str,
    second: &'a str,
) -> Result<Command<'a>, AllocError>
    ensures { IfOk result (λ command.
        app_of command ≡ checking_command name.now first.now second.now) }
{
    with_arg(pair(alloc, name, first, second), option(alloc, "places"))
}

/// `NAME FIRST SECOND`
pub fn pair<'a>(
    alloc: Global,
    name: &'a str,
    first: &'a str,
    second: &'a str,
) -> Result<Command<'a>, AllocError>
    ensures { IfOk result (λ command.
        app_of command ≡ pair_command name.now first.now second.now) }
{
    let with_one = with_arg(Ok(bare(alloc, name)), place(alloc, first));
    with_arg(with_one, place(alloc, second))
}

/// `NAME N`
pub fn numbered<'a>(alloc: Global, name: &'a str) -> Result<Command<'a>, AllocError>
    ensures { IfOk result (λ command. app_of command ≡ number_command name.now) }
{
    with_arg(Ok(bare(alloc, name)), place(alloc, "N"))
}

// The command with one more argument, where there is a command.
fn with_arg<'a>(
    command: Result<Command<'a>, AllocError>,
    arg: Arg<'a>,
) -> Result<Command<'a>, AllocError>
    requires { arg.global ≡ false }
    ensures { (app : App) (rule : Rule) → IfOk command.entry (λ c. app_of c ≡ app)
        → rule_of arg.entry ≡ rule → IfOk result (λ r. app_of r ≡ with_rule app rule) }
{
    command?.arg(arg)
}

// `--name` with a value.
fn option<'a>(alloc: Global, name: &'a str) -> Arg<'a>
    ensures rule { rule_of result ≡ option name.now }
    ensures local { result.global ≡ false }
{
    Arg::new(alloc, name).long(name)
}

// `--name`, without a value.
fn flag<'a>(alloc: Global, name: &'a str) -> Arg<'a>
    ensures rule { rule_of result ≡ flag name.now }
    ensures local { result.global ≡ false }
{
    Arg::new(alloc, name).long(name).action(ArgAction::SetTrue)
}

// A word that has to be there, known by its place.
fn place<'a>(alloc: Global, id: &'a str) -> Arg<'a>
    ensures rule { rule_of result ≡ place id.now }
    ensures local { result.global ≡ false }
{
    Arg::new(alloc, id).required(true)
}

// A command without arguments, help and version.
fn bare<'a>(alloc: Global, name: &'a str) -> Command<'a>
    ensures { app_of result ≡ bare_command name.now }
{
    Command::new(alloc, name)
        .no_binary_name(true)
        .disable_help_flag(true)
        .disable_version_flag(true)
}
