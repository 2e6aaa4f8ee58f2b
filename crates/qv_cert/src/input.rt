//! A source, line by line.

ghost use Rattle.std.specs.Prelude.{◌≡◌, ◌≤◌, ◌<◌, ◌+◌, ◌^◌, ◌∷◌, [], ◌++◌, IfOk, IfErr, OnOk};
ghost use Rattle.std.specs.Prelude.{MatchOption, IsErrOf, length, take, drop};
ghost use Rattle.qv_io.specs.Count.{Rose};
ghost use Rattle.qv_io.specs.Source.{TellsAsBefore};
ghost use Rattle.qv_cert.specs.TextLaws.{HasNoLf};
ghost use Rattle.qv_cert.specs.CertReader.{piece_size, read_limit, GoesOver};
ghost use Rattle.qv_cert.specs.Took.{Took};
ghost use Rattle.qv_cert.specs.Lines.{lines_left, GivesLine, ReadsLine, TookLine};
ghost use Rattle.qv_cert.specs.Taking.{TakesToLf, TakesPiece, NoPiece, NoLine, TellsLine, end_stop};
ghost use Rattle.qv_cert.specs.Taking.{OnEnd, TakesLast, has_line, lines_state};

use crate::answers::Stop;
use crate::buffer::Buffer;
use crate::kind::RefusalKind;
use memchr::memchr;
use qv_io::{LIMIT, PIECE, Source};
use std::alloc::{AllocError, Global};

/// The lines of a source, one after another.
#[derive(Drop)]
pub(crate) struct Input {
    /// The line that was taken last, without its LF.
    line: Vec<u8>,
    /// What was taken behind it.
    buffer: Buffer,
    /// How many bytes were taken of the source.
    taken: usize,
    ghost short: { length buffer ≤ piece_size },
    ghost small: { taken < 2 ^ 62 },
}

// Where the first LF stands.
fn lf_at(bytes: &[u8]) -> Option<usize>
    ensures { MatchOption result (HasNoLf bytes.now)
        (λ i. HasNoLf (take i bytes.now)
        × (bytes.now ≡ take i bytes.now ++ 10 ∷ drop (i + 1) bytes.now)
        × (i < length bytes.now)) }
{
    memchr(b'\n', bytes)
}

// Takes the bytes up to the next LF behind the line, and passes that LF; takes all bytes of the
// buffer where there is none.
fn take_to_lf(line: &mut Vec<u8>, buffer: &mut Buffer) -> Result<bool, AllocError>
    ensures takes { IfOk result
        (λ found. TakesToLf found line.old.items buffer.old line.new.items buffer.new) }
    ensures shorter { length buffer.new ≤ length buffer.old }
{
    let bytes = buffer.as_slice();
    match lf_at(bytes) {
        Some(i) => {
            line.extend_from_slice(&bytes[..i])?;
            buffer.advance(i + 1);
            Ok(true)
        }
        None => {
            let len = bytes.len();
            line.extend_from_slice(bytes)?;
            buffer.advance(len);
            Ok(false)
        }
    }
}

// Whether there is a line, which is one without its LF too.
fn has_line(taken: Result<(), Stop>) -> Result<bool, Stop>
    ensures { result ≡ has_line taken }
{
    match taken {
        Ok(()) => Ok(true),
        Err(Stop::End) => Ok(false),
        Err(Stop::Fault(_kind)) => Ok(true),
        Err(stop) => Err(stop),
    }
}

impl Input {
    pub(crate) fn new(alloc: Global) -> Input
        ensures buffer { result.buffer ≡ [] }
        ensures taken { result.taken ≡ 0 }
    {
        Input {
            line: Vec::new(alloc),
            buffer: Buffer::new(alloc),
            taken: 0,
        }
    }

    /// The line that was taken last.
    pub(crate) fn line(&self) -> &[u8]
        ensures { result.now ≡ self.now.line.items }
    {
        &self.line
    }

    /// Takes the next whole line.
    pub(crate) fn take_line<S: Source>(&mut self, source: &mut S) -> Result<(), Stop>
        ensures line { OnOk result (GoesOver S.read_gives self.old.buffer self.old.taken source.old
            self.new.line.items self.new.buffer self.new.taken source.new) }
        ensures told { OnOk result (TellsLine (S.left source.old) self.old.buffer
            self.new.line.items (S.left source.new) self.new.buffer) }
        ensures took { OnOk result (Took S.read_gives S.left self.old.buffer self.old.taken
            source.old (self.new.line.items ++ 10 ∷ self.new.buffer) self.new.taken
            source.new) }
        ensures ahead { OnOk result (length self.new.buffer < piece_size) }
        ensures err { IfErr result (λ stop.
            NoLine S.read_gives S.left (Rose (S.faults source.old) (S.faults source.new))
            self.old.buffer self.old.taken source.old stop self.new.taken source.new) }
        // Where the bytes end, the line has all that was left of them.
        ensures last { IfErr result (λ stop. OnEnd stop (TakesLast S.read_gives S.left
            self.old.buffer self.old.taken source.old stop self.new.line.items self.new.buffer
            self.new.taken source.new)) }
        ensures telling { TellsAsBefore (S.left source.old) (S.left source.new) }
        ensures count { S.faults source.old ≤ S.faults source.new }
    {
        self.line.clear();
        'pieces: loop {
            if take_to_lf(&mut self.line, &mut self.buffer)? {
                return Ok(());
            }
            if !self.read_piece(source)? {
                return Err(self.end());
            }
        }
    }

    /// Takes the next line, of which the last may lack its LF, and says whether there is one.
    pub(crate) fn next_line<S: Source>(&mut self, source: &mut S) -> Result<bool, Stop>
        ensures gives { GivesLine (lines_left self.old.buffer (S.left source.old)) result
            self.new.line.items (lines_left self.new.buffer (S.left source.new)) }
        ensures calls { ReadsLine S.read_gives
            (lines_state self.old.line.items self.old.buffer self.old.taken) source.old result
            (lines_state self.new.line.items self.new.buffer self.new.taken) source.new }
        ensures took { TookLine S.read_gives S.left
            (lines_state self.old.line.items self.old.buffer self.old.taken) source.old result
            (lines_state self.new.line.items self.new.buffer self.new.taken) source.new }
        ensures failed { IsErrOf result Stop.ReadFault →
            Rose (S.faults source.old) (S.faults source.new) }
        ensures telling { TellsAsBefore (S.left source.old) (S.left source.new) }
        ensures count { S.faults source.old ≤ S.faults source.new }
    {
        has_line(self.take_line(source))
    }

    // Takes the next piece of the source, and answers whether it had one.
    fn read_piece<S: Source>(&mut self, source: &mut S) -> Result<bool, Stop>
        // The source is called only here, where no whole line is left.
        requires { self.old.buffer ≡ [] }
        ensures ok { IfOk result (λ more. TakesPiece S.read_gives S.left more self.old.taken
            source.old self.new.buffer self.new.taken source.new) }
        ensures err { IfErr result (λ stop.
            NoPiece S.read_gives (Rose (S.faults source.old) (S.faults source.new))
            self.old.taken source.old stop self.new.taken source.new) }
        ensures line { self.new.line ≡ self.old.line }
        ensures telling { TellsAsBefore (S.left source.old) (S.left source.new) }
        ensures count { S.faults source.old ≤ S.faults source.new }
    {
        if self.taken >= LIMIT {
            return Err(Stop::ReadLimit);
        }
        let mut piece = [0; PIECE];
        let n = source.read(&mut piece)?;
        self.buffer.refill(&piece[..n])?;
        self.taken += n;
        Ok(n > 0)
    }

    // Why the bytes end behind the line.
    fn end(&self) -> Stop
        ensures { result ≡ end_stop self.now.line.items }
    {
        if self.line.is_empty() {
            Stop::End
        } else {
            Stop::Fault(RefusalKind::Truncated)
        }
    }
}
