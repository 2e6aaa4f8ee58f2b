//! Texts are written.

ghost use Rattle.std.specs.Prelude.{◌≡◌, ◌≤◌, ◌⊎◌};
ghost use Rattle.qv_io.specs.Count.{Rose};
ghost use Rattle.qv_gen.specs.Generating.{IsGenRun, IsWriting};

use crate::scripts::{GREATEST_NUMBER, script};
use crate::status::Status;
use qv_io::{Failed, Sink, put_all};
use std::alloc::Global;

/// Writes a text, and gives this status, or 4 where the sink fails.
pub fn write_text<O: Sink>(out: &mut O, text: &[u8], ends: Status) -> Status
    ensures run { IsWriting (O.held out.old) (O.held out.new) text.now ends result }
    ensures write { result ≡ ends
        ⊎ ((result ≡ 4) × Rose (O.faults out.old) (O.faults out.new)) }
    ensures out_count { O.faults out.old ≤ O.faults out.new }
{
    match put_all(out, text) {
        Ok(()) => ends,
        Err(Failed) => 4,
    }
}

/// Writes the generator's script of a number, and gives the status.
pub fn generate<O: Sink>(alloc: Global, number: u64, out: &mut O) -> Status
    requires { number ≤ GREATEST_NUMBER }
    ensures run { IsGenRun number (O.held out.old) (O.held out.new) result }
    ensures write { result ≡ 4 → Rose (O.faults out.old) (O.faults out.new) }
    ensures out_count { O.faults out.old ≤ O.faults out.new }
{
    match script(alloc, number) {
        Ok(text) => write_text(out, &text, 0),
        Err(_) => 5,
    }
}
