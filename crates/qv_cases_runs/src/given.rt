//! What a run over memory is given.
use crate::case::add_bytes;
use qv_cases_rows::Answer;
use qv_io::{MemSink, MemSource};
use std::alloc::Global;

/// A script, a certificate that is read, what is printed, and a certificate that is written.
#[derive(Drop)]
pub struct Given {
    pub script: MemSource,
    pub cert_in: MemSource,
    pub out: MemSink,
    pub cert_out: MemSink,
}

// How many bytes are written of a run of which nothing is said.
const OUT_ROOM: usize = 1 << 16;

impl Given {
    /// A script and a certificate, with room for so many bytes of another. None for want of memory.
    pub fn new(
        alloc: Global,
        out: &mut Answer,
        script: &[u8],
        cert: &[u8],
        room: usize,
    ) -> Option<Given> {
        let written = MemSink::new(alloc, OUT_ROOM, 4096, Vec::new(alloc)).ok()?;
        let cert_out = MemSink::new(alloc, room, 4096, Vec::new(alloc)).ok()?;
        Some(Given {
            script: whole_source(alloc, out, script),
            cert_in: whole_source(alloc, out, cert),
            out: written,
            cert_out,
        })
    }
}

/// A source that gives a text as it is asked for.
pub fn whole_source(alloc: Global, out: &mut Answer, text: &[u8]) -> MemSource {
    let mut bytes = Vec::new(alloc);
    add_bytes(&mut bytes, text, out);
    MemSource::new(bytes, 4096, Vec::new(alloc))
}
