//! The reader of certificates.

ghost use Rattle.std.specs.Prelude.{◌≡◌, ℕ, ◌≤◌, ◌<◌, ◌+◌, ◌^◌, [], None, Some, Ok, IsSome, IfOk};
ghost use Rattle.std.specs.Prelude.{IfErr, OnOk, length};
ghost use Rattle.qv_io.specs.Count.{Rose};
ghost use Rattle.qv_io.specs.Source.{TellsAsBefore};
ghost use Rattle.qv_cert.specs.Line.{IsCertLine};
ghost use Rattle.qv_cert.specs.LineView.{cert_line_of};
ghost use Rattle.qv_cert.specs.Text.{line_behind};
ghost use Rattle.qv_cert.specs.Reading.{Gives};
ghost use Rattle.qv_cert.specs.CertReader.{to_give, GivesNext, ReadsOnDemand, stop_of, IsNumbered};
ghost use Rattle.qv_cert.specs.CertReader.{IsInRange, TookShort, given_behind, version_behind};
ghost use Rattle.qv_cert.specs.Took.{TookNext};
ghost use Rattle.qv_cert.specs.Taking.{TakenLine, NoNext, answer_of};

use crate::answers::{CertNext, Stop};
use crate::fault::{CertLineFault, NoMemory};
use crate::input::Input;
use crate::line::Line;
use crate::reading::read_with;
use qv_io::Source;
use qv_lrat_text::LineReader;
use std::alloc::Global;
use std::marker::Model;

/// Reads the lines of a certificate, one after another.
#[derive(Drop)]
pub struct CertReader {
    alloc: Global,
    input: Input,
    steps: LineReader,
    /// How many lines were given.
    lines: u64,
    /// The version that line 1 named, or 0.
    version: u64,
    /// Why reading stopped, if it did.
    stopped: Option<Stop>,
}

impl Model for CertReader {
    ghost use Rattle.qv_cert.specs.CertReader.{Position};

    ghost Value = { Position };

    ghost view = { λ r. record {
      rest = r.input.buffer;
      taken = r.input.taken;
      given = r.lines;
      version = r.version;
      stopped = r.stopped;
    } };

    ghost use Rattle.std.specs.Prelude.{◌≡◌, ◌<◌, ◌≤◌, ◌+◌, ◌*◌, ◌^◌, None, length};
    ghost use Rattle.qv_cert.specs.CertReader.{piece_size};

    // A line has at least four bytes.
    ghost invariant = { λ r. (r.lines < 2 ^ 60)
        × (r.stopped ≡ None → length r.input.buffer < piece_size)
        × (r.stopped ≡ None → 4 * r.lines + length r.input.buffer ≤ r.input.taken) };
}

// The line that the text is behind so many others: line 1 is a header.
fn line_behind(
    alloc: Global,
    steps: &mut LineReader,
    given: u64,
    text: &[u8],
    in_lrat: bool,
) -> Result<Line, CertLineFault>
    ensures read { Gives cert_line_of result (line_behind given in_lrat text.now) }
    ensures in_range { IfOk result (λ line. IsCertLine (cert_line_of line)) }
{
    if given > 0 {
        return read_with(alloc, steps, text, in_lrat);
    }
    match read_with(alloc, steps, text, false) {
        Ok(Line::Header { version }) => Ok(Line::Header { version }),
        Err(CertLineFault::NoMemory) => Err(CertLineFault::NoMemory),
        _ => Err(CertLineFault::Header),
    }
}

// The next line, or why there is none.
fn read_next<S: Source>(
    alloc: Global,
    input: &mut Input,
    steps: &mut LineReader,
    given: u64,
    source: &mut S,
    in_lrat: bool,
) -> Result<Line, Stop>
    ensures line { IfOk result (λ line. TakenLine S.read_gives S.left given in_lrat input.old.buffer
        input.old.taken source.old (Ok (cert_line_of line)) input.new.buffer input.new.taken
        source.new) }
    ensures err { IfErr result (λ stop. NoNext S.read_gives S.left
        (Rose (S.faults source.old) (S.faults source.new)) given in_lrat input.old.buffer
        input.old.taken source.old stop input.new.buffer input.new.taken source.new) }
    ensures in_range { IfOk result (λ line. IsCertLine (cert_line_of line)) }
    // A line has at least four bytes.
    ensures four { OnOk result
        (4 + length input.new.buffer + input.old.taken
        ≤ input.new.taken + length input.old.buffer) }
    ensures telling { TellsAsBefore (S.left source.old) (S.left source.new) }
    ensures count { S.faults source.old ≤ S.faults source.new }
{
    input.take_line(source)?;
    Ok(line_behind(alloc, steps, given, input.line(), in_lrat)?)
}

// The answer where there is no line.
fn answer_of(number: u64, stop: Stop) -> CertNext
    ensures { result ≡ answer_of number stop }
{
    match stop {
        Stop::End => CertNext::End { number },
        Stop::Fault(kind) => CertNext::Fault { number, kind },
        Stop::ReadFault => CertNext::ReadFault,
        Stop::ReadLimit => CertNext::ReadLimit,
        Stop::NoMemory => CertNext::NoMemory,
    }
}

// The version behind a line that comes behind so many: line 1 names it.
fn version_behind(given: u64, version: u64, line: &Line) -> u64
    ensures { (number : ℕ) → result ≡ version_behind given version (CertNext.Line number line.now) }
{
    match line {
        Line::Header { version: named } if given == 0 => *named,
        _ if given == 0 => 0,
        _ => version,
    }
}

impl CertReader {
    pub fn new(alloc: Global) -> Result<CertReader, NoMemory>
        ensures { IfOk result (λ reader. reader ≡ record {
          rest = [];
          taken = 0;
          given = 0;
          version = 0;
          stopped = None;
        }) }
    {
        Ok(CertReader {
            alloc,
            input: Input::new(alloc),
            steps: LineReader::new(alloc),
            lines: 0,
            version: 0,
            stopped: None,
        })
    }

    /// The version that line 1 named, and 0 before that line was read.
    pub fn version(&self) -> u64
        ensures { result ≡ self.now.version }
    {
        self.version
    }

    /// The next line of the certificate, of its refutation with `in_lrat`. It takes a further piece
    /// of the source only where no whole line is in what was taken. After an answer that is no line
    /// the same answer comes again, and the source is left alone.
    pub fn next_line<S: Source>(&mut self, source: &mut S, in_lrat: bool) -> CertNext
        // Where the source tells its bytes, this is what comes next in them.
        ensures next { self.old.stopped ≡ None →
            GivesNext self.old.given in_lrat (to_give self.old.rest (S.left source.old)) result
            (to_give self.new.rest (S.left source.new)) }
        // The source is called only where no whole line is in what was taken.
        ensures calls { self.old.stopped ≡ None →
            ReadsOnDemand S.read_gives in_lrat self.old source.old result self.new source.new }
        // Told or not: which bytes were taken, and where the rest begins.
        ensures took { self.old.stopped ≡ None →
            TookNext S.read_gives S.left self.old source.old result self.new source.new }
        // What isn't a line ends the reading.
        ensures stopped { self.new.stopped ≡ stop_of result }
        ensures again { IsSome self.old.stopped → (self.new ≡ self.old)
            × (source.new ≡ source.old) }
        ensures in_range { IsInRange result }
        ensures number { IsNumbered self.old.given result }
        ensures given { self.new.given ≡ given_behind self.old.given result }
        ensures small { self.new.given < 2 ^ 60 }
        ensures version { self.new.version
            ≡ version_behind self.old.given self.old.version result }
        // Less than a piece was taken behind the line's LF.
        ensures ahead { self.old.stopped ≡ None → TookShort result self.new.rest }
        ensures failed { self.old.stopped ≡ None → self.new.stopped ≡ Some Stop.ReadFault →
            Rose (S.faults source.old) (S.faults source.new) }
        ensures telling { TellsAsBefore (S.left source.old) (S.left source.new) }
        ensures count { S.faults source.old ≤ S.faults source.new }
    {
        if let Some(stop) = self.stopped {
            return answer_of(self.lines + 1, stop);
        }
        match read_next(
            self.alloc,
            &mut self.input,
            &mut self.steps,
            self.lines,
            source,
            in_lrat,
        ) {
            Ok(line) => {
                self.version = version_behind(self.lines, self.version, &line);
                self.lines += 1;
                CertNext::Line {
                    number: self.lines,
                    line,
                }
            }
            Err(stop) => {
                self.stopped = Some(stop);
                answer_of(self.lines + 1, stop)
            }
        }
    }

    /// Takes a line back that isn't needed any more: a step's memory is used for the next one.
    pub fn reuse(&mut self, line: Line)
        ensures { self.new ≡ self.old }
    {
        if let Line::Step(step) = line {
            self.steps.reuse(step);
        }
    }
}
