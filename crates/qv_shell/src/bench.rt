//! The generator's script of a number is solved and checked in memory.

ghost use Rattle.std.specs.Prelude.{◌≡◌, ◌≤◌, ◌++◌, ◌<◌, ◌^◌, IfOk, OnErr, [], length, drop};
ghost use Rattle.qv_io.specs.Count.{Rose};
ghost use Rattle.qv_gen.specs.Text.{script_text};
ghost use Rattle.qv_meter.specs.Records.{records_of};
ghost use Rattle.qv_check_defs.specs.Outcome.{outcome};
ghost use Rattle.qv_shell.specs.Bench.{bench_text, default_places, IsBenchOf, IsBenchRun, StartsSome};
ghost use Rattle.qv_shell.specs.Bench.{IsSolvedSo, answers_length};

use qv_check_script::verify;
use qv_gen::{Counts, GREATEST_NUMBER, Status, TextSink, counts_text, script, write_text};
use qv_io::{MemSource, NullSink, PIECE, Sink};
use qv_meter::{Limits, Meter};
use qv_shell_follow::{Nobody, Tally, solve};
use std::alloc::{AllocError, Global};

// The limit on prefixes where none is given.
const DEFAULT_PLACES: u32 = 4_096;

// The limits where no budgets are given.
const DEFAULTS: Limits = Limits {
    conflicts: 1_000_000,
    instances: 10_000,
    variables: 4_000_000,
};

/// Solves the script of a number in memory, checks the certificate, and writes how many checks there
/// were, how many have each answer, and the last line of the check.
pub(crate) fn bench<O: Sink>(alloc: Global, number: u64, out: &mut O, meter: &mut Meter) -> Status
    requires { number ≤ GREATEST_NUMBER }
    ensures run { IsBenchRun number (O.held out.old) (O.held out.new)
        (records_of meter.old) (records_of meter.new) result }
    ensures write { result ≡ 4 → Rose (O.faults out.old) (O.faults out.new) }
    ensures out_count { O.faults out.old ≤ O.faults out.new }
{
    match benched(alloc, number, meter) {
        Ok(text) => write_text(out, &text, 0),
        Err(AllocError) => 5,
    }
}

// The text that is written.
fn benched(alloc: Global, number: u64, meter: &mut Meter) -> Result<Vec<u8>, AllocError>
    requires { number ≤ GREATEST_NUMBER }
    ensures bench { IfOk result (λ text. IsBenchOf number
        (records_of meter.old) (records_of meter.new) text.items) }
    ensures records { OnErr result (StartsSome (records_of meter.old) (records_of meter.new)) }
{
    let text = script(alloc, number)?;
    let mut cert = TextSink::new(alloc);
    let tally = solved(alloc, &text, &mut cert, meter)?;
    let verdict = verdict_text(alloc, text, cert.into_bytes())?;
    counted(alloc, tally, &verdict)
}

// Solves a script, and gives the counts of its checks.
fn solved(
    alloc: Global,
    text: &[u8],
    cert: &mut TextSink,
    meter: &mut Meter,
) -> Result<Tally, AllocError>
    requires { cert.old.held ≡ [] }
    ensures solved { IfOk result (λ tally. IsSolvedSo text.now cert.new.held
        (records_of meter.old) (records_of meter.new) tally) }
    ensures records { OnErr result (StartsSome (records_of meter.old) (records_of meter.new)) }
{
    let bytes = Vec::from_slice(alloc, text)?;
    let mut source = MemSource::new(bytes, PIECE, Vec::new(alloc));
    match solve(
        alloc,
        DEFAULT_PLACES,
        DEFAULTS,
        false,
        &mut source,
        &mut NullSink::new(),
        cert,
        meter,
        &mut Nobody,
    ) {
        Ok(followed) => Ok(followed.tally),
        Err(_) => Err(AllocError),
    }
}

// What the check of a certificate beside a script writes.
fn verdict_text(alloc: Global, script: Vec<u8>, cert: Vec<u8>) -> Result<Vec<u8>, AllocError>
    ensures { IfOk result (λ text. text.items ≡ (outcome default_places script.items cert.items).text) }
{
    let mut script = MemSource::new(script, PIECE, Vec::new(alloc));
    let mut cert = MemSource::new(cert, PIECE, Vec::new(alloc));
    let mut out = TextSink::new(alloc);
    match verify(alloc, DEFAULT_PLACES, &mut script, &mut cert, &mut out) {
        Ok(_) => Ok(out.into_bytes()),
        Err(_) => Err(AllocError),
    }
}

// The counts, and what stands in the text of a check behind the answers.
fn counted(alloc: Global, tally: Tally, verdict: &[u8]) -> Result<Vec<u8>, AllocError>
    requires { answers_length tally ≤ length verdict.now }
    ensures { IfOk result (λ text. text.items
        ≡ bench_text tally (drop (answers_length tally) verdict.now)) }
{
    let counts = Counts {
        checks: tally.checks,
        sat: tally.sat,
        unsat: tally.unsat,
        unknown: tally.unknown,
    };
    counts_text(alloc, counts, &verdict[answers_length(tally)..])
}

// How long the lines of the answers are.
fn answers_length(tally: Tally) -> usize
    requires { answers_length tally < 2 ^ 64 }
    ensures { result ≡ answers_length tally }
{
    let sat = 4 * u128::from(tally.sat);
    let unsat = 6 * u128::from(tally.unsat);
    let unknown = 8 * u128::from(tally.unknown);
    (sat + unsat + unknown) as usize
}
