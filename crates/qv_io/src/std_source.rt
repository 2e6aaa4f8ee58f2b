//! Std's readers as sources.
ghost use Rattle.std.specs.Prelude.{◌≡◌, ◌≢◌, ◌≤◌, ◌<◌, None, Err, IfOk, IfErr, OnErr, IsErr};
ghost use Rattle.std.specs.Prelude.{IsOk, IsSome, IfSome, is_ok, length, option_and_then, min};
ghost use Rattle.std.specs.Prelude.{if◌then◌else◌};
ghost use Rattle.std.specs.Io.{ReadsAtMost};
ghost use Rattle.std.specs.Io.KnownBytes.{ReadConsumes};
ghost use Rattle.std.specs.Result.{result_ok, result_err};
ghost use Rattle.std.specs.IoError.{error_kind};
ghost use Rattle.qv_io.specs.Count.{Rose, count_on, next_count};
ghost use Rattle.qv_io.specs.Source.{Reads, given};

use crate::again::read_again;
use crate::sources::{Failed, Source};
use std::io::{self, ErrorKind, Read};

/// A source over one of std's readers, as a file or standard input. It tells no bytes, but counts
/// those that it gave. An error of the reader is a fault, and so is each call behind it, where the
/// reader isn't called again, and each call where there is no reader, as for a file that could not
/// be opened. A call that a signal interrupts is no error: it is made again.
#[derive(Debug, Drop)]
pub struct StdSource<R> {
    opened: io::Result<R>,
    error: Option<io::Error>,
    given: u64,
    faults: u64,
    ghost open: { error ≡ None → IsOk opened },
    ghost failed: { 0 < faults → IsSome error },
}

impl<R> StdSource<R> {
    ghost use Rattle.qv_io.specs.StdSource.{reader_of, error_of, given_of, faults_of};

    /// Reads from what was opened; where that failed each call fails.
    pub fn new(opened: io::Result<R>) -> StdSource<R>
        ensures reader { reader_of result ≡ result_ok opened }
        ensures error { error_of result ≡ result_err opened }
        ensures given { given_of result ≡ 0 }
        ensures faults { faults_of result ≡ 0 }
    {
        let error = match &opened {
            Ok(_) => None,
            Err(why) => Some(*why),
        };
        StdSource {
            opened,
            error,
            given: 0,
            faults: 0,
        }
    }

    /// Why it failed, if it did: at a call, or where no reader was opened.
    pub fn error(&self) -> Option<io::Error>
        ensures error { result ≡ error_of self.now }
        ensures failed { 0 < faults_of self.now → IsSome result }
    {
        self.error
    }

    /// How many bytes it gave.
    pub fn given(&self) -> u64
        ensures { result ≡ given_of self.now }
    {
        self.given
    }

    /// How many calls failed.
    pub fn faults(&self) -> u64
        ensures { result ≡ faults_of self.now }
    {
        self.faults
    }
}

impl<R: Read> StdSource<R> {
    ghost use Rattle.qv_io.specs.StdSource.{reader_of, error_of, given_of, faults_of};

    // One call of the reader, but none behind an error.
    fn call(&mut self, buf: &mut [u8]) -> io::Result<usize>
        ensures bound { ReadsAtMost result buf.new }
        ensures bytes { ReadConsumes (option_and_then R.remaining (reader_of self.old))
            (option_and_then R.remaining (reader_of self.new)) result buf.new }
        ensures error { error_of self.new ≡ error_of self.old }
        ensures given { given_of self.new ≡ given_of self.old }
        ensures faults { faults_of self.new ≡ faults_of self.old }
        ensures behind { IfSome (error_of self.old)
            (λ why. (result ≡ Err why) × (self.new ≡ self.old)) }
        ensures open { IsOk result → error_of self.old ≡ None }
        ensures again { IfErr result
            (λ why. error_of self.old ≡ None → error_kind why ≢ ErrorKind.Interrupted) }
    {
        if let Some(why) = self.error {
            return Err(why);
        }
        match &mut self.opened {
            Ok(reader) => read_again(reader, buf),
            Err(why) => Err(*why),
        }
    }
}

impl<R: Read> Source for StdSource<R> {
    ghost use Rattle.qv_io.specs.StdSource.{reader_of, error_of, given_of, faults_of, ReadGives};
    ghost use Rattle.qv_io.specs.StdSource.{StaysFailed};

    ghost left = { λ _. None };

    ghost faults = { faults_of };

    ghost read_gives = { ReadGives R.remaining };

    fn read(&mut self, buf: &mut [u8]) -> Result<usize, Failed>
        ensures reads { IfOk result (λ n. Reads None None n buf.old buf.new) }
        ensures failed { OnErr result (Rose (faults_of self.old) (faults_of self.new)) }
        ensures count { faults_of self.old ≤ faults_of self.new }
        ensures call { ReadGives R.remaining self.old (length buf.old) (given result buf.new)
            self.new }

        // Behind an error, and where no reader was opened, each call fails.
        ensures behind { IsSome (error_of self.old) → IsErr result }
        ensures again { OnErr result (error_of self.old ≡ None
            → IfSome (error_of self.new) (λ why. error_kind why ≢ ErrorKind.Interrupted)) }
        // What the reader tells is given, and nothing where the call fails.
        ensures passes { ReadConsumes (option_and_then R.remaining (reader_of self.old))
            (option_and_then R.remaining (reader_of self.new)) result buf.new }
        ensures faults { faults_of self.new
            ≡ (if is_ok result then faults_of self.old else next_count (faults_of self.old)) }
    {
        match self.call(buf) {
            Ok(n) => {
                self.given = self.given.saturating_add(n as u64);
                Ok(n)
            }
            Err(why) => {
                self.error = Some(why);
                self.faults = self.faults.saturating_add(1);
                Err(Failed)
            }
        }
    }
}
