//! A reader and a writer of std fail, with an error of some kind, where a source and a sink over memory do.
use qv_io::{Failed, MemSink, MemSource, Sink, Source};
use std::io::{self, ErrorKind, Read, Write};

/// A reader over a source, and the kind of its errors.
#[derive(Drop)]
pub struct FlakyReader<'a>(pub &'a mut MemSource, pub ErrorKind);

impl Read for FlakyReader<'_> {
    fn read(&mut self, buf: &mut [u8]) -> io::Result<usize> {
        match self.0.read(buf) {
            Ok(n) => Ok(n),
            Err(Failed) => Err(io::Error::from(self.1)),
        }
    }
}

/// A writer over a sink, and the kind of its errors.
#[derive(Drop)]
pub struct FlakyWriter<'a>(pub &'a mut MemSink, pub ErrorKind);

impl Write for FlakyWriter<'_> {
    fn write(&mut self, buf: &[u8]) -> io::Result<usize> {
        match self.0.write(buf) {
            Ok(n) => Ok(n),
            Err(Failed) => Err(io::Error::from(self.1)),
        }
    }

    fn flush(&mut self) -> io::Result<()> {
        Ok(())
    }
}
