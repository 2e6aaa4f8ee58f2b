//! The calls of one source or one sink.
use qv_cases_rows::Answer;
use qv_cases_runs::{Case, FlakyReader, FlakyWriter, say_quoted};
use qv_io::{Failed, MemSink, NullSink, Sink, Source, StdSink, StdSource, put_all};
use std::alloc::Global;
use std::io::{self, Cursor, ErrorKind};

// What a call of each size gives, and the buffer behind it, of which a call writes the front.
fn reads<S: Source>(out: &mut Answer, source: &mut S, sizes: &[u64]) {
    let mut buf = [b'.'; 8];
    for size in sizes {
        let size = *size as usize;
        if size > 8 {
            out.refuse();
            return;
        }
        say_count(out, source.read(&mut buf[..size]));
        say_quoted(out, &buf);
        out.say(" ");
    }
}

fn say_count(out: &mut Answer, count: Result<usize, Failed>) {
    match count {
        Ok(n) => {
            out.show(n);
            out.say(" ");
        }
        Err(Failed) => out.say("failed "),
    }
}

// What a call with each piece takes.
fn writes<O: Sink>(out: &mut Answer, sink: &mut O, pieces: &[Vec<u8>]) {
    for piece in pieces {
        say_count(out, sink.write(piece));
    }
}

// What becomes of each piece that is to be written whole.
fn puts<O: Sink>(out: &mut Answer, sink: &mut O, pieces: &[Vec<u8>]) {
    for piece in pieces {
        out.say(match put_all(sink, piece) {
            Ok(()) => "put ",
            Err(Failed) => "failed ",
        });
    }
}

fn say_faults(out: &mut Answer, faults: u64) {
    out.say("faults=");
    out.show(faults);
}

fn say_calls(out: &mut Answer, calls: u64, faults: u64) {
    out.say(" calls=");
    out.show(calls);
    out.say(" ");
    say_faults(out, faults);
}

/// A source over memory.
pub fn source(out: &mut Answer, case: &mut Case) {
    reads(out, &mut case.source, &case.sizes);
    out.say("left=");
    say_quoted(out, case.source.left());
    say_calls(out, case.source.calls(), case.source.faults());
}

/// A source over a reader that fails with errors of this kind.
pub fn std_source(out: &mut Answer, case: &mut Case, kind: ErrorKind) {
    let mut source = StdSource::new(Ok(FlakyReader(&mut case.source, kind)));
    reads(out, &mut source, &case.sizes);
    let (given, faults) = (source.given(), source.faults());
    out.say("given=");
    out.show(given);
    say_calls(out, case.source.calls(), faults);
}

// Why there is no reader and no writer.
fn not_there() -> io::Error {
    io::Error::from(ErrorKind::NotFound)
}

/// A source without a reader.
pub fn no_source(out: &mut Answer, case: &Case) {
    let mut source = StdSource::<FlakyReader<'_>>::new(Err(not_there()));
    reads(out, &mut source, &case.sizes);
    say_faults(out, source.faults());
}

/// Sources over a slice and over a cursor of std.
pub fn slice_source(out: &mut Answer, case: &Case) {
    let bytes = case.source.left();
    let mut slice = StdSource::new(Ok(bytes));
    reads(out, &mut slice, &case.sizes);
    say_faults(out, slice.faults());
    out.say(" ");
    let mut cursor = StdSource::new(Ok(Cursor::new(bytes)));
    reads(out, &mut cursor, &case.sizes);
    say_faults(out, cursor.faults());
}

// The bytes that a sink holds, its calls, and how many failed.
fn say_held(out: &mut Answer, sink: &MemSink) {
    say_quoted(out, sink.bytes());
    say_calls(out, sink.calls(), sink.faults());
}

/// A sink over memory.
pub fn sink(out: &mut Answer, case: &mut Case) {
    writes(out, &mut case.sink, &case.texts);
    say_held(out, &case.sink);
}

/// Whole pieces into a sink over memory.
pub fn put(out: &mut Answer, case: &mut Case) {
    puts(out, &mut case.sink, &case.texts);
    say_held(out, &case.sink);
}

/// A sink over a writer that fails with errors of this kind.
pub fn std_sink(out: &mut Answer, case: &mut Case, kind: ErrorKind) {
    let mut sink = StdSink::new(Ok(FlakyWriter(&mut case.sink, kind)));
    writes(out, &mut sink, &case.texts);
    puts(out, &mut sink, &case.texts);
    let faults = sink.faults();
    say_quoted(out, case.sink.bytes());
    say_calls(out, case.sink.calls(), faults);
}

/// A sink without a writer.
pub fn no_sink(out: &mut Answer, case: &Case) {
    let mut sink = StdSink::<FlakyWriter<'_>>::new(Err(not_there()));
    writes(out, &mut sink, &case.texts);
    say_faults(out, sink.faults());
}

/// A sink over a slice, which takes nothing once it is full.
pub fn slice_sink(alloc: Global, out: &mut Answer, case: &Case) {
    match vec![in alloc; b'.'; case.room] {
        Ok(mut room) => fill(out, &mut room, &case.texts),
        Err(_) => out.refuse(),
    }
}

fn fill(out: &mut Answer, room: &mut [u8], texts: &[Vec<u8>]) {
    let mut sink = StdSink::new(Ok(&mut *room));
    writes(out, &mut sink, texts);
    let faults = sink.faults();
    say_quoted(out, room);
    out.say(" ");
    say_faults(out, faults);
}

/// A sink that keeps nothing.
pub fn null_sink(out: &mut Answer, case: &Case) {
    let mut sink = NullSink::new();
    writes(out, &mut sink, &case.texts);
    puts(out, &mut sink, &case.texts);
    out.say("nothing is kept");
}
