//! Calls of std's readers and writers, made again where a signal interrupted them.
ghost use Rattle.std.specs.Prelude.{◌≡◌, ◌≢◌, ◌≤◌, ℕ, List, Result, IfErr, length, ⊤};
ghost use Rattle.std.specs.Io.{ReadsAtMost, WritesAtMost};
ghost use Rattle.std.specs.Io.KnownBytes.{ReadConsumes, WriteAppends};
ghost use Rattle.std.specs.IoError.{error_kind};
ghost use Rattle.std.specs.declared.io.Error.{Error};
ghost use Rattle.qv_io.specs.Again.{Again};

use std::io::{self, ErrorKind, Read, Write};

// One call of a reader. Who calls it shows each call by `read_gives`.
pub(crate) trait ReadOnce: Read {
    // What a call makes of the reader and its buffer, with this result.
    ghost read_gives: { Self × List ℕ → Result ℕ Error → Self × List ℕ → Type 0 };

    fn read_once(&mut self, buf: &mut [u8]) -> io::Result<usize>
        ensures bound { ReadsAtMost result buf.new }
        ensures bytes { ReadConsumes (Self.remaining self.old) (Self.remaining self.new) result
            buf.new }
        ensures call { read_gives (self.old, buf.old) result (self.new, buf.new) };
}

impl<R: Read> ReadOnce for R {
    ghost read_gives = { λ _ _ _. ⊤ };

    fn read_once(&mut self, buf: &mut [u8]) -> io::Result<usize> {
        self.read(buf)
    }
}

// One call of a writer, in the same way.
pub(crate) trait WriteOnce: Write {
    // What a call with a piece makes of the writer, with this result.
    ghost write_gives: { List ℕ → Self → Result ℕ Error → Self → Type 0 };

    fn write_once(&mut self, piece: &[u8]) -> io::Result<usize>
        ensures bound { WritesAtMost result piece.now }
        ensures bytes { WriteAppends (Self.contents self.old) (Self.contents self.new) result
            piece.now }
        ensures call { write_gives piece.now self.old result self.new };
}

impl<W: Write> WriteOnce for W {
    ghost write_gives = { λ _ _ _ _. ⊤ };

    fn write_once(&mut self, piece: &[u8]) -> io::Result<usize> {
        self.write(piece)
    }
}

/// Reads, and again where it was interrupted, but behind no other error.
pub(crate) fn read_again<R: ReadOnce>(reader: &mut R, buf: &mut [u8]) -> io::Result<usize>
    ensures bound { ReadsAtMost result buf.new }
    ensures bytes { ReadConsumes (R.remaining reader.old) (R.remaining reader.new) result buf.new }
    ensures again { IfErr result (λ why. error_kind why ≢ ErrorKind.Interrupted) }
    ensures calls { Again R.read_gives (reader.old, buf.old) result (reader.new, buf.new) }
{
    'tries: for _ in 0..u64::MAX {
        match reader.read_once(buf) {
            Ok(n) => return Ok(n),
            Err(why) => {
                if why.kind() != ErrorKind::Interrupted {
                    return Err(why);
                }
            }
        }
    }
    Err(io::Error::from(ErrorKind::TimedOut))
}

/// Writes, and again where it was interrupted, but behind no other error.
pub(crate) fn write_again<W: WriteOnce>(writer: &mut W, piece: &[u8]) -> io::Result<usize>
    ensures bound { WritesAtMost result piece.now }
    ensures bytes { WriteAppends (W.contents writer.old) (W.contents writer.new) result piece.now }
    ensures again { IfErr result (λ why. error_kind why ≢ ErrorKind.Interrupted) }
    ensures calls { Again (W.write_gives piece.now) writer.old result writer.new }
{
    'tries: for _ in 0..u64::MAX {
        match writer.write_once(piece) {
            Ok(n) => return Ok(n),
            Err(why) => {
                if why.kind() != ErrorKind::Interrupted {
                    return Err(why);
                }
            }
        }
    }
    Err(io::Error::from(ErrorKind::TimedOut))
}
