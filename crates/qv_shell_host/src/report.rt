//! The line on standard error that says what failed and why.
ghost use Rattle.std.specs.Prelude.{◌≡◌, ◌≤◌, ◌↔◌, Some, None, IsSome, IfSome};
ghost use Rattle.std.specs.IoError.{error_kind};

use crate::tail::{Tail, Tailed};
use crate::trail::{Traced, Trail};
use std::alloc::Global;
use std::fmt;
use std::io::{self, ErrorKind, Stderr};

/// What failed.
#[derive(Clone, Copy)]
pub enum Subject<'a> {
    Words,
    Script(&'a str),
    Cert(&'a str),
    /// What a certificate is written into anew.
    New(&'a str),
    /// The script or the certificate.
    Source,
    Output,
    /// The output or the file that is written.
    Sink,
}

impl fmt::Display for Subject<'_> {
    fn fmt<W: fmt::Write>(&self, f: &mut fmt::Formatter<W>) -> fmt::Result {
        match self {
            Subject::Words => write!(f, "words"),
            Subject::Script(name) => write!(f, "SCRIPT {name:?}"),
            Subject::Cert(name) => write!(f, "CERT {name:?}"),
            Subject::New(name) => write!(f, "NEW {name:?}"),
            Subject::Source => write!(f, "SCRIPT or CERT"),
            Subject::Output => write!(f, "standard output"),
            Subject::Sink => write!(f, "standard output or the file that is written"),
        }
    }
}

/// What ended a run with this exit status, and why: nothing but at 3, 4 and 5. `unread` is what was not
/// read to its end, `unwritten` what was not written to its end, and `held` what wanted memory.
pub fn fault_of<'a>(
    status: u8,
    held: Subject<'a>,
    unread: (Subject<'a>, io::Error),
    unwritten: (Subject<'a>, io::Error),
) -> Option<(Subject<'a>, io::Error)>
    ensures some { IsSome result ↔ ((3 ≤ status) × (status ≤ 5)) }
    ensures read { status ≡ 3 → result ≡ Some unread.entry }
    ensures written { status ≡ 4 → result ≡ Some unwritten.entry }
    ensures memory { status ≡ 5 → IfSome result (λ fault. (fault.0 ≡ held.entry)
        × (error_kind fault.1 ≡ ErrorKind.OutOfMemory)) }
{
    match status {
        3 => Some(unread),
        4 => Some(unwritten),
        5 => Some((held, no_memory())),
        _ => None,
    }
}

/// What `solve` doesn't read to its end, and why: `read` says why the script failed last.
pub fn unread_script(script: &str, read: Option<io::Error>) -> (Subject<'_>, io::Error)
    ensures subject { result.0 ≡ Subject.Script script.entry }
    ensures read { IfSome read (λ why. result.1 ≡ why) }
{
    (Subject::Script(script), read.unwrap_or(too_long()))
}

/// What `check` doesn't read to its end, and why: the certificate comes first, which is the first
/// that is read.
pub fn unread_text<'a>(
    script: &'a str,
    cert: &'a str,
    read: Option<io::Error>,
    cert_read: Option<io::Error>,
) -> (Subject<'a>, io::Error)
    ensures cert { IfSome cert_read (λ why. result ≡ (Subject.Cert cert.entry, why)) }
    ensures script { cert_read ≡ None
        → IfSome read (λ why. result ≡ (Subject.Script script.entry, why)) }
    ensures none { cert_read ≡ None → read ≡ None → result.0 ≡ Subject.Source }
{
    match (cert_read, read) {
        (Some(why), _) => (Subject::Cert(cert), why),
        (None, Some(why)) => (Subject::Script(script), why),
        (None, None) => (Subject::Source, too_long()),
    }
}

/// What isn't written to its end where no certificate is, and why: `written` says why the output
/// failed last.
pub fn unwritten_output<'a>(written: Option<io::Error>) -> (Subject<'a>, io::Error)
    ensures subject { result.0 ≡ Subject.Output }
    ensures written { IfSome written (λ why. result.1 ≡ why) }
{
    (Subject::Output, written.unwrap_or(nothing_written()))
}

/// What isn't written to its end where a certificate is, into this file, and why: the certificate
/// comes first, of which a line is the first that is written.
pub fn unwritten_text(
    cert: Subject<'_>,
    written: Option<io::Error>,
    cert_written: Option<io::Error>,
) -> (Subject<'_>, io::Error)
    ensures cert { IfSome cert_written (λ why. result ≡ (cert.entry, why)) }
    ensures output { cert_written ≡ None
        → IfSome written (λ why. result ≡ (Subject.Output, why)) }
    ensures none { cert_written ≡ None → written ≡ None → result.0 ≡ Subject.Sink }
{
    match (cert_written, written) {
        (Some(why), _) => (cert, why),
        (None, Some(why)) => (Subject::Output, why),
        (None, None) => (Subject::Sink, nothing_written()),
    }
}

// Why a source that never failed isn't read to its end.
fn too_long() -> io::Error {
    io::Error::new(ErrorKind::FileTooLarge, "2^62 - 4,096 bytes or more")
}

// Why a sink that never failed isn't written on.
fn nothing_written() -> io::Error {
    io::Error::from(ErrorKind::WriteZero)
}

/// Want of memory.
pub fn no_memory() -> io::Error
    ensures { error_kind result ≡ ErrorKind.OutOfMemory }
{
    io::Error::from(ErrorKind::OutOfMemory)
}

// What a fault of more variables than a prefix may have is called.
const PREFIX_LIMIT: &str = "prefix limit";

// Where the fault stands that an output ends with, and what is there: `LINE:COLUMN: KIND NAME`.
fn place_of(alloc: Global, trail: &Trail, tail: &Tail) -> Option<String> {
    let (place, kind) = tail.fault()?;
    let (line, column) = trail.line_and_column(place)?;
    let mut text = String::new(alloc);
    write!(text, "{line}:{column}: {kind}").ok()?;
    if let Some(word) = trail.word(alloc, place) {
        write!(text, " {word}").ok()?;
    }
    Some(text)
}

/// What was charged for the checks of a run, and the sum of their variables, where they were told.
#[derive(Clone, Copy)]
pub struct Charged {
    pub checks: u64,
    pub conflicts: u64,
    pub instances: u64,
    pub variables: Option<u64>,
}

/// What is told of a check: its number, its answer, and its counts.
#[derive(Clone, Copy)]
pub struct Told {
    pub check: u64,
    pub answer: &'static str,
    pub conflicts: u64,
    pub instances: u64,
    pub variables: u32,
}

/// Standard error, where it is open.
#[derive(Drop)]
pub struct Report {
    pub to: io::Result<Stderr>,
}

impl Report {
    /// Says what ended a run, if anything did.
    pub fn end(&self, fault: Option<(Subject<'_>, io::Error)>) {
        if let Some((subject, why)) = fault {
            self.say(subject, why);
        }
    }

    /// Says what is wrong with words that were refused, where that is known.
    pub fn refusal(&self, status: u8, why: Option<&str>) {
        if let (2, Ok(to), Some(why)) = (status, &self.to, why) {
            let _ = eprintln!(to; "qbv: {why}");
        }
    }

    /// Says by line and column where the fault of a script stands that was printed last, and which
    /// option sets the limit, where it is the one on prefixes.
    pub fn locate<R, W>(
        &self,
        alloc: Global,
        name: &str,
        script: &io::Result<Traced<R>>,
        output: &io::Result<Tailed<W>>,
    ) {
        if let (Ok(to), Ok(script), Ok(output)) = (&self.to, script, output) {
            if let Some(place) = place_of(alloc, script.trail(), output.tail()) {
                let _ = eprintln!(to; "qbv: {name}:{place}");
            }
            if let Some((_, kind)) = output.tail().fault() {
                if kind == PREFIX_LIMIT {
                    let _ = eprintln!(to; "qbv: --places N sets the prefix limit");
                }
            }
        }
    }

    /// Says which answer first contradicts what a script claims of it, if one does. Nothing can be
    /// located behind this.
    pub fn contradict<R, W>(
        &self,
        name: &str,
        script: &mut io::Result<Traced<R>>,
        output: &io::Result<Tailed<W>>,
    ) {
        if let (Ok(to), Ok(script), Ok(output)) = (&self.to, script, output) {
            let found = script.claims().contradicted(output.tail().answers());
            if let Some((check, claim, answer)) = found {
                let number = check.saturating_add(1);
                let (claim, answer) = (claim.name(), answer.name());
                let _ = eprintln!(to;
                    "qbv: {name}: check {number} is {answer}, :status says {claim}"
                );
            }
        }
    }

    /// Says what is told of the newest check, and how many seconds passed.
    pub(crate) fn progress(&self, told: Told, seconds: u64) {
        if let Ok(to) = &self.to {
            let Told {
                check,
                answer,
                conflicts,
                instances,
                variables,
            } = told;
            let _ = eprintln!(to;
                "qbv: check {check} is {answer}, {conflicts} conflicts, {instances} instances, \
                {variables} variables, {seconds} seconds"
            );
        }
    }

    /// Says how many checks have each answer, where all answers are known, and what was charged
    /// for them.
    pub fn sum<W>(&self, output: &io::Result<Tailed<W>>, charged: Charged) {
        self.count("checks", charged.checks);
        if let Ok(output) = output {
            if let Some(counts) = output.tail().counts() {
                self.count("sat", counts.sat);
                self.count("unsat", counts.unsat);
                self.count("unknown", counts.unknown);
            }
        }
        self.count("conflicts", charged.conflicts);
        self.count("instances", charged.instances);
        if let Some(variables) = charged.variables {
            self.count("variables", variables);
        }
    }

    // Says a count.
    fn count(&self, name: &str, count: u64) {
        if let Ok(to) = &self.to {
            let _ = eprintln!(to; "qbv: {name} {count}");
        }
    }

    /// Says what failed, and why.
    pub fn say(&self, subject: Subject<'_>, why: io::Error) {
        if let Ok(to) = &self.to {
            let _ = eprintln!(to; "qbv: {subject}: {why}");
        }
    }
}
