//! qbv: answers SMT-LIB scripts over bit-vectors, and checks certificates of their answers.
#![tactic(auto)]

ghost use Rattle.std.specs.Prelude.{◌≡◌, ◌⊎◌, Some, map, string_bytes};
ghost use Rattle.qv_meter.specs.Records.{records_of};
ghost use Rattle.qv_shell_args.specs.Call.{request_in};

use qv_io::{Sink, Source};
use qv_meter::{Meter, Record};
use qv_shell::{Counts, Last, Plan, Status, Watch, plan, run};
use qv_shell_args::{Call, Settings, call_of, complaint};
use qv_shell_host::{
    Charged, Identity, Pace, Report, Subject, Tailed, Told, Traced, if_open, is_input, lent,
    make_anew, make_cert, no_memory, not_twice, open_text, output_identity, with_tail, with_trail,
    words,
};
use qv_shell_launch::{Given, Run, launch_alone, launch_check, launch_solve, launch_trim};
use std::alloc::{AllocError, Global};
use std::env::Env;
use std::fs::File;
use std::io::{self, BufReader, ErrorKind, Read, Stdin, Stdout};
use std::process::ExitCode;
use std::rt::{Clock, Files};

// How many bytes of a certificate a call of the host asks for, whose sections are long.
const AHEAD: usize = 1 << 16;

// The standard streams, each where it is open, and what the output writes to.
#[derive(Drop)]
struct Streams {
    input: io::Result<Stdin>,
    output: io::Result<Stdout>,
    written: Option<Identity>,
    report: Report,
}

// How many checks were told, the sum of their variables, and what is said of them now and then.
#[derive(Drop)]
struct Telling<'a, R> {
    checks: u64,
    variables: u64,
    pace: Option<Pace<'a, R>>,
}

impl<R: Clock> Watch for Telling<'_, R> {
    fn answered(&mut self, checks: u64, last: &Last, counts: Counts) {
        if checks <= self.checks {
            return;
        }
        self.checks = checks;
        self.variables = self.variables.saturating_add(counts.variables as u64);
        if let Some(pace) = &mut self.pace {
            pace.say(told(checks, last, counts));
        }
    }
}

// What is told of the check of this number.
fn told(check: u64, last: &Last, counts: Counts) -> Told {
    Told {
        check,
        answer: match last {
            Last::Sat { .. } => "sat",
            Last::Unsat => "unsat",
            Last::Unknown { .. } => "unknown",
        },
        conflicts: counts.conflicts,
        instances: counts.instances,
        variables: counts.variables,
    }
}

// The words of a run, with its meter, what is told of its checks, and the status of the last one.
#[derive(Drop)]
struct Words<'a, R> {
    alloc: Global,
    words: &'a [String],
    meter: Meter,
    telling: Telling<'a, R>,
    ended: Option<Status>,
}

impl<'a, R: Clock + AllocGlobal> Words<'a, R> {
    // Of these words.
    fn new(rt: &'a R, words: &'a [String]) -> Words<'a, R> {
        let alloc = rt.alloc();
        Words {
            alloc,
            words,
            meter: Meter::new(alloc),
            telling: Telling {
                checks: 0,
                variables: 0,
                pace: None,
            },
            ended: None,
        }
    }

    // Says something of answers now and then, where the words ask for it.
    fn begin(&mut self, rt: &'a R, report: Report) {
        if let Ok(Call::Solve { settings, .. }) = call_of(self.alloc, self.words) {
            if settings.verbose {
                self.telling.pace = Pace::begin(rt, report);
            }
        }
    }
}

impl<R: Clock> Run for Words<'_, R> {
    ghost request = { λ run. request_in (map string_bytes run.words.now) };

    ghost records = { λ run. records_of run.meter };

    ghost ended = { λ run status. run.ended ≡ Some status };

    fn end<S: Source, C: Source, O: Sink, P: Sink>(
        &mut self,
        script: &mut S,
        cert_in: &mut C,
        out: &mut O,
        cert_out: &mut P,
    ) -> Status {
        let words = self.words;
        let meter = &mut self.meter;
        let watch = &mut self.telling;
        let status = run(
            self.alloc, words, script, cert_in, out, cert_out, meter, watch,
        );
        self.ended = Some(status);
        status
    }

    fn settings(&self) -> Option<Settings> {
        match call_of(self.alloc, self.words) {
            Ok(Call::Solve { settings, .. } | Call::QSolve { settings, .. }) => Some(settings),
            _ => None,
        }
    }

    fn charged(&self) -> Charged {
        let charged = charged(&self.meter);
        match call_of(self.alloc, self.words) {
            Ok(Call::Solve { .. }) => Charged {
                variables: Some(self.telling.variables),
                ..charged
            },
            _ => charged,
        }
    }
}

// Makes each call of the host give many bytes of what was opened.
fn ahead<R: Read + Drop>(
    alloc: Global,
    opened: io::Result<R>,
) -> Result<io::Result<BufReader<R>>, AllocError> {
    match opened {
        Ok(reader) => match BufReader::with_capacity(alloc, AHEAD, reader) {
            Ok(reader) => Ok(Ok(reader)),
            Err(_) => Err(AllocError),
        },
        Err(why) => Ok(Err(why)),
    }
}

// Standard input for a script of this name and for a certificate that is read: it is one of the two.
fn inputs(name: &str, input: io::Result<Stdin>) -> (io::Result<Stdin>, io::Result<Stdin>) {
    if is_input(name) {
        (input, Err(not_twice()))
    } else {
        (Err(not_twice()), input)
    }
}

// Runs with the files of these names, of which the certificate is read. Standard input is one of
// the two. Without memory nothing is run.
fn check<T: Run, R: Files + AllocGlobal>(
    rt: &R,
    run: &mut T,
    name: &str,
    cert_name: &str,
    streams: Streams,
) -> Status
    ensures { T.ended run.new result ⊎ ((result ≡ 5) × (run.new ≡ run.old)) }
{
    let alloc = rt.alloc();
    let (input, cert_input) = inputs(name, streams.input);
    let cert = open_text(rt, cert_name, cert_input);
    let Ok(cert) = ahead(alloc, cert) else {
        streams.report.say(Subject::Cert(cert_name), no_memory());
        return 5;
    };
    let mut script = with_trail(alloc, open_text(rt, name, input));
    let mut output = with_tail(alloc, streams.output);
    let given = Given {
        name,
        script: lent(&mut script),
        cert,
        output: lent(&mut output),
    };
    let status = launch_check(run, given, cert_name, &streams.report);
    remark(alloc, status, name, &mut script, &output, &streams.report);
    status
}

// Runs with the files of these names, of which the certificate is read, and written into the last
// anew. Without memory nothing is run.
fn trim<T: Run, R: Files + AllocGlobal>(
    rt: &R,
    run: &mut T,
    name: &str,
    cert_name: &str,
    to: &str,
    streams: Streams,
) -> Status
    ensures { T.ended run.new result ⊎ ((result ≡ 5) × (run.new ≡ run.old)) }
{
    let alloc = rt.alloc();
    let (input, cert_input) = inputs(name, streams.input);
    let script = open_text(rt, name, input);
    let cert = open_text(rt, cert_name, cert_input);
    let made = make_anew(rt, to, &script, &cert, streams.written);
    let Ok(cert) = ahead(alloc, cert) else {
        streams.report.say(Subject::Cert(cert_name), no_memory());
        return 5;
    };
    let mut script = with_trail(alloc, script);
    let mut output = with_tail(alloc, streams.output);
    let given = Given {
        name,
        script: lent(&mut script),
        cert,
        output: lent(&mut output),
    };
    let status = launch_trim(run, given, cert_name, (to, made), &streams.report);
    remark(alloc, status, name, &mut script, &output, &streams.report);
    status
}

// Runs with the files of these names, of which the certificate is made.
fn solve<T: Run, R: Files + Clock + AllocGlobal>(
    rt: &R,
    run: &mut T,
    name: &str,
    cert_name: &str,
    streams: Streams,
) -> Status
    ensures { T.ended run.new result }
{
    let alloc = rt.alloc();
    let script = open_text(rt, name, streams.input);
    let cert = make_cert(rt, cert_name, &script, streams.written);
    let report = streams.report;
    let mut script = with_trail(alloc, script);
    let mut output = with_tail(alloc, streams.output);
    let settings = run.settings();
    let given = Given {
        name,
        script: lent(&mut script),
        cert: unnamed(),
        output: lent(&mut output),
    };
    let status = launch_solve(run, given, cert_name, cert, &report);
    remark(alloc, status, name, &mut script, &output, &report);
    if let Some(settings) = settings {
        if settings.stats {
            report.sum(&output, run.charged());
        }
    }
    status
}

// Says where a script has a fault, and which answer contradicts it.
fn remark<R, W>(
    alloc: Global,
    status: Status,
    name: &str,
    script: &mut io::Result<Traced<R>>,
    output: &io::Result<Tailed<W>>,
    report: &Report,
) {
    if status == 1 {
        report.locate(alloc, name, script, output);
    }
    report.contradict(name, script, output);
}

// What was charged for all checks.
fn charged(meter: &Meter) -> Charged {
    let mut charged = Charged {
        checks: 0,
        conflicts: 0,
        instances: 0,
        variables: None,
    };
    for record in meter.older() {
        charge(&mut charged, record);
    }
    if let Some(record) = meter.newest() {
        charge(&mut charged, record);
    }
    charged
}

// Adds what was charged for one check.
fn charge(charged: &mut Charged, record: &Record) {
    charged.checks = charged.checks.saturating_add(1);
    charged.conflicts = charged.conflicts.saturating_add(record.conflicts);
    charged.instances = charged.instances.saturating_add(record.instances);
}

// No file, where none is named.
fn unnamed() -> io::Result<File> {
    Err(io::Error::from(ErrorKind::NotFound))
}

// Runs with words that name no files. Where they are refused, it says why, if that is known.
fn run_alone<T: Run>(run: &mut T, why: Option<&str>, streams: Streams) -> Status
    ensures { T.ended run.new result }
{
    let given = Given {
        name: "",
        script: unnamed(),
        cert: unnamed(),
        output: streams.output,
    };
    let report = streams.report;
    let status = launch_alone(run, given, Subject::Words, &report);
    report.refusal(status, why);
    status
}

// Runs with words that are refused.
fn refuse<T: Run>(alloc: Global, run: &mut T, words: &[String], streams: Streams) -> Status
    ensures { T.ended run.new result }
{
    match complaint(alloc, words) {
        Ok(why) => run_alone(run, Some(why.as_str()), streams),
        Err(AllocError) => run_alone(run, None, streams),
    }
}

// Runs with the words that the program was given.
fn answer<R: Files + Env + Clock + AllocGlobal>(
    rt: &R,
    streams: Streams,
    progress: Report,
) -> Status {
    match words(rt) {
        Ok(Some(words)) => answer_words(rt, &words, streams, progress),
        Ok(None) => {
            let mut run = Words::new(rt, &[]);
            run_alone(&mut run, Some("a word isn't UTF-8"), streams)
        }
        Err(AllocError) => stop(&streams.report),
    }
}

// Runs with these words.
fn answer_words<R: Files + Clock + AllocGlobal>(
    rt: &R,
    words: &[String],
    streams: Streams,
    progress: Report,
) -> Status {
    let mut run = Words::new(rt, words);
    run.begin(rt, progress);
    let plan = plan(rt.alloc(), words);
    match &plan {
        Plan::Solve { script, cert } => solve(rt, &mut run, script, cert, streams),
        Plan::Check { script, cert } => check(rt, &mut run, script, cert, streams),
        Plan::Trim { script, cert, to } => trim(rt, &mut run, script, cert, to, streams),
        Plan::Alone => run_alone(&mut run, None, streams),
        Plan::Refused => refuse(rt.alloc(), &mut run, words, streams),
        Plan::NoMemory => stop(&streams.report),
    }
}

// Ends before any run, for want of memory.
fn stop(report: &Report) -> Status
    ensures { result ≡ 5 }
{
    report.say(Subject::Words, no_memory());
    5
}

fn main(rt: HostRuntime) -> ExitCode {
    // Looked at before any file is opened, since a file gets the number of a stream that is closed.
    let output = if_open(rt.stdout());
    let streams = Streams {
        input: if_open(rt.stdin()),
        written: output_identity(&rt, &output),
        output,
        report: Report {
            to: if_open(rt.stderr()),
        },
    };
    let progress = Report {
        to: if_open(rt.stderr()),
    };
    ExitCode::from(answer(&rt, streams, progress))
}
