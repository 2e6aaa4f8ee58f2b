//! A file is solved.

ghost use Rattle.std.specs.Prelude.{◌≡◌, ◌≤◌, ◌⊎◌, Err, IfOk, OnErr, IsErrOf};
ghost use Rattle.qv_io.specs.Count.{Rose};
ghost use Rattle.qv_io.specs.Sink.{Appends};
ghost use Rattle.qv_check_defs.specs.Limits.{MetLimit};
ghost use Rattle.qv_meter.specs.Records.{AreLimits, records_of};
ghost use Rattle.qv_meter.specs.Views.{limits_of};
ghost use Rattle.qv_shell_qdimacs.specs.Ending.{run_status};
ghost use Rattle.qv_shell_qdimacs.specs.Solving.{IsFileSolved};
ghost use Rattle.qv_shell_qdimacs.specs.Replies.{WritesPart};

use crate::ending::FileEnding;
use crate::replies::{Reply, reply_to};
use qv_check_script::Halt;
use qv_io::{Sink, Source, put_all};
use qv_meter::{Limits, Meter};
use std::alloc::Global;

// The first line of a certificate.
const HEADER: &[u8] = b"qbv-cert 2\n";

/// Reads a file in the QDIMACS format, solves it within limits, with a record of the meter, and
/// prints its answer. The first line of the certificate is written before the text is read, and the
/// section before the answer is printed.
pub fn solve_file<S: Source, O: Sink, P: Sink>(
    alloc: Global,
    places: u32,
    limits: Limits,
    source: &mut S,
    out: &mut O,
    cert: &mut P,
    meter: &mut Meter,
) -> Result<FileEnding, Halt>
    requires { AreLimits (limits_of limits) }

    // What was printed is right, the certificate is one of it, and the record is that of its search.
    ensures run { IsFileSolved places S.read_gives S.left (limits_of limits) source.old source.new
        (O.held out.old) (O.held out.new) (P.held cert.old) (P.held cert.new)
        (records_of meter.old) (records_of meter.new) (run_status result) }

    // Where the others come from.
    ensures read { IsErrOf result Halt.Read → Rose (S.faults source.old) (S.faults source.new) }
    ensures limit { IsErrOf result Halt.ReadLimit →
        MetLimit S.read_gives (S.left source.old) source.old source.new }
    ensures write { IsErrOf result Halt.Write → Rose (O.faults out.old) (O.faults out.new)
        ⊎ Rose (P.faults cert.old) (P.faults cert.new) }

    // What stays.
    ensures source_count { S.faults source.old ≤ S.faults source.new }
    ensures out_count { O.faults out.old ≤ O.faults out.new }
    ensures cert_count { P.faults cert.old ≤ P.faults cert.new }
{
    put_all(cert, HEADER)?;
    let reply = reply_to(alloc, places, limits, source, meter)?;
    write_reply(out, cert, &reply)?;
    Ok(reply.ending)
}

// Writes the section of a reply, and behind it its text.
fn write_reply<O: Sink, P: Sink>(out: &mut O, cert: &mut P, reply: &Reply) -> Result<(), Halt>
    ensures section { IfOk result (λ _.
        Appends (P.held cert.old) (P.held cert.new) reply.now.section.items) }
    ensures text { IfOk result (λ _.
        Appends (O.held out.old) (O.held out.new) reply.now.text.items) }
    ensures cut { OnErr result (WritesPart reply.now (O.held out.old) (O.held out.new)
        (P.held cert.old) (P.held cert.new)) }
    ensures write { OnErr result ((result ≡ Err Halt.Write)
        × (Rose (O.faults out.old) (O.faults out.new)
        ⊎ Rose (P.faults cert.old) (P.faults cert.new))) }
    ensures out_count { O.faults out.old ≤ O.faults out.new }
    ensures cert_count { P.faults cert.old ≤ P.faults cert.new }
{
    put_all(cert, &reply.section)?;
    put_all(out, &reply.text)?;
    Ok(())
}
