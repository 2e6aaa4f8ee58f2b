//! Std's writers as sinks.
ghost use Rattle.std.specs.Prelude.{◌≡◌, ◌≢◌, ◌≤◌, ◌<◌, None, Err, IfOk, IfErr, OnErr, IsErr, IsOk};
ghost use Rattle.std.specs.Prelude.{IsSome, IfSome, is_ok, length, option_and_then, min};
ghost use Rattle.std.specs.Prelude.{if◌then◌else◌};
ghost use Rattle.std.specs.Io.{WritesAtMost};
ghost use Rattle.std.specs.Io.KnownBytes.{WriteAppends};
ghost use Rattle.std.specs.Result.{result_ok, result_err};
ghost use Rattle.std.specs.IoError.{error_kind};
ghost use Rattle.qv_io.specs.Count.{Rose, next_count};
ghost use Rattle.qv_io.specs.Sink.{Writes};

use crate::again::write_again;
use crate::sinks::Sink;
use crate::sources::Failed;
use std::io::{self, ErrorKind, Write};

/// A sink over one of std's writers, as a file or standard output. It tells no bytes. An error of
/// the writer is a fault, and so are a piece of which it takes nothing, each call behind these,
/// where the writer isn't called again, and each call where there is no writer, as for a file that
/// could not be made. A call that a signal interrupts is no error: it is made again.
#[derive(Debug, Drop)]
pub struct StdSink<W> {
    opened: io::Result<W>,
    error: Option<io::Error>,
    faults: u64,
    ghost open: { error ≡ None → IsOk opened },
    ghost failed: { 0 < faults → IsSome error },
}

impl<W> StdSink<W> {
    ghost use Rattle.qv_io.specs.StdSink.{writer_of, error_of, faults_of};

    /// Writes to what was opened; where that failed each call fails.
    pub fn new(opened: io::Result<W>) -> StdSink<W>
        ensures writer { writer_of result ≡ result_ok opened }
        ensures error { error_of result ≡ result_err opened }
        ensures faults { faults_of result ≡ 0 }
    {
        let error = match &opened {
            Ok(_) => None,
            Err(why) => Some(*why),
        };
        StdSink {
            opened,
            error,
            faults: 0,
        }
    }

    /// Why it failed, if it did: at a call, or where no writer was opened.
    pub fn error(&self) -> Option<io::Error>
        ensures error { result ≡ error_of self.now }
        ensures failed { 0 < faults_of self.now → IsSome result }
    {
        self.error
    }

    /// How many calls failed.
    pub fn faults(&self) -> u64
        ensures { result ≡ faults_of self.now }
    {
        self.faults
    }
}

impl<W: Write> StdSink<W> {
    ghost use Rattle.qv_io.specs.StdSink.{writer_of, error_of, faults_of};

    // One call of the writer, but none behind an error.
    fn call(&mut self, piece: &[u8]) -> io::Result<usize>
        ensures some { IfOk result (λ n. Writes None None n piece.now) }
        ensures bytes { WriteAppends (option_and_then W.contents (writer_of self.old))
            (option_and_then W.contents (writer_of self.new)) result piece.now }
        ensures error { error_of self.new ≡ error_of self.old }
        ensures faults { faults_of self.new ≡ faults_of self.old }
        ensures behind { IfSome (error_of self.old)
            (λ why. (result ≡ Err why) × (self.new ≡ self.old)) }
        ensures open { IsOk result → error_of self.old ≡ None }
        ensures again { IfErr result
            (λ why. error_of self.old ≡ None → error_kind why ≢ ErrorKind.Interrupted) }
    {
        if let Some(why) = self.error {
            return Err(why);
        }
        match &mut self.opened {
            Ok(writer) => some_of(write_again(writer, piece)?, piece),
            Err(why) => Err(*why),
        }
    }
}

// How many bytes of a piece a writer took: that it took none of them is an error.
fn some_of(n: usize, piece: &[u8]) -> io::Result<usize>
    requires { n ≤ length piece.now }
    ensures some { IfOk result (λ taken. (taken ≡ n) × Writes None None n piece.now) }
    ensures none { IfErr result (λ why. (n ≡ 0) × (error_kind why ≡ ErrorKind.WriteZero)) }
{
    if n == 0 && !piece.is_empty() {
        Err(io::Error::from(ErrorKind::WriteZero))
    } else {
        Ok(n)
    }
}

impl<W: Write> Sink for StdSink<W> {
    ghost use Rattle.qv_io.specs.StdSink.{writer_of, error_of, faults_of, StaysFailed};

    ghost held = { λ _. None };

    ghost faults = { faults_of };

    fn write(&mut self, piece: &[u8]) -> Result<usize, Failed>
        ensures writes { IfOk result (λ n. Writes None None n piece.now) }
        ensures failed { OnErr result (Rose (faults_of self.old) (faults_of self.new)) }
        ensures count { faults_of self.old ≤ faults_of self.new }

        // Behind an error, and where no writer was opened, each call fails, for good.
        ensures behind { IsSome (error_of self.old) → IsErr result }
        ensures stays { StaysFailed self.old self.new }
        ensures noted { IsErr result → IsSome (error_of self.new) }
        ensures open { IsOk result → error_of self.new ≡ None }
        ensures again { OnErr result (error_of self.old ≡ None
            → IfSome (error_of self.new) (λ why. error_kind why ≢ ErrorKind.Interrupted)) }
        // The writer gets what is taken, and nothing where the call fails.
        ensures passes { WriteAppends (option_and_then W.contents (writer_of self.old))
            (option_and_then W.contents (writer_of self.new)) result piece.now }
        ensures faults { faults_of self.new
            ≡ (if is_ok result then faults_of self.old else next_count (faults_of self.old)) }
    {
        match self.call(piece) {
            Ok(n) => Ok(n),
            Err(why) => {
                self.error = Some(why);
                self.faults = self.faults.saturating_add(1);
                Err(Failed)
            }
        }
    }
}
