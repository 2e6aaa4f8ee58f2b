//! A script is followed.

ghost use Rattle.std.specs.Prelude.{◌≡◌, ◌≤◌, ◌⊎◌, Err, IfOk, OnErr, IsErrOf};
ghost use Rattle.qv_io.specs.Count.{Rose};
ghost use Rattle.qv_io.specs.Sink.{Appends};
ghost use Rattle.qv_meter.specs.Records.{AreLimits, records_of};
ghost use Rattle.qv_meter.specs.Views.{limits_of};
ghost use Rattle.qv_check_defs.specs.Limits.{MetLimit};
ghost use Rattle.qv_script_transcript.specs.Certificates.{checks_of};
ghost use Rattle.qv_script_defs.specs.State.{opening};
ghost use Rattle.qv_solve_offer.specs.Sharing.{IsShared};
ghost use Rattle.qv_shell_command.specs.Ending.{status_of};
ghost use Rattle.qv_shell_command.specs.Tallies.{no_checks};
ghost use Rattle.qv_shell_follow.specs.Tallies.{IsTallied};
ghost use Rattle.qv_shell_follow.specs.Solved.{IsSolved};
ghost use Rattle.qv_shell_follow.specs.Ending.{run_status};
ghost use Rattle.qv_shell_command.specs.Moves.{StandsFor};
ghost use Rattle.qv_shell_follow.specs.Between.{fresh, WritesPart, end_after};

use crate::watching::{Watch, tell};
use qv_io::{Sink, Source, put_all};
use qv_meter::{Limits, Meter};
use qv_sexpr::Reader;
use qv_shell_command::{After, Course, Ending, Halt, Move, Tally, next_move};
use std::alloc::Global;

/// How a script that was followed to its end ended, and its checks, counted.
#[derive(Clone, Copy)]
pub struct Followed {
    pub ending: Ending,
    pub tally: Tally,
}

// The first line of a certificate.
const HEADER: &[u8] = b"qbv-cert 2\n";

/// Follows a script command by command to its end. Each check within the limit on prefixes is
/// answered, with a record of the meter; its section is written before its answer is printed, and
/// the first line of the certificate before the first command is read. With `rechecks` the checker
/// looks at each section before it is written. Behind each command `watch` is told of the newest
/// check.
pub fn solve<S: Source, O: Sink, P: Sink, W: Watch>(
    alloc: Global,
    places: u32,
    limits: Limits,
    rechecks: bool,
    script: &mut S,
    out: &mut O,
    cert: &mut P,
    meter: &mut Meter,
    watch: &mut W,
) -> Result<Followed, Halt>
    requires { AreLimits (limits_of limits) }

    // What was printed, the certificate and the records are those of one run, and so is the tally.
    ensures run { (run : IsSolved places S.read_gives (limits_of limits) (S.left script.old)
        script.old script.new (O.held out.old) (O.held out.new) (P.held cert.old) (P.held cert.new)
        (records_of meter.old) (records_of meter.new) (run_status result))
        × IsTallied (checks_of run.checks) result }

    // A script that was followed to its end is done or refused.
    ensures ends { IfOk result (λ followed. status_of followed.ending ≤ 1) }

    // Where the others come from.
    ensures read { IsErrOf result Halt.Read → Rose (S.faults script.old) (S.faults script.new)
        ⊎ MetLimit S.read_gives (S.left script.old) script.old script.new }
    ensures write { IsErrOf result Halt.Write → Rose (O.faults out.old) (O.faults out.new)
        ⊎ Rose (P.faults cert.old) (P.faults cert.new) }

    // What stays.
    ensures script_count { S.faults script.old ≤ S.faults script.new }
    ensures out_count { O.faults out.old ≤ O.faults out.new }
    ensures cert_count { P.faults cert.old ≤ P.faults cert.new }
{
    let mut reader = Reader::new(alloc)?;
    let mut course = Course::new(alloc);
    follow(
        alloc,
        places,
        limits,
        rechecks,
        &mut reader,
        &mut course,
        script,
        out,
        cert,
        meter,
        watch,
    )
}

// The same with a reader and a course, to which nothing has happened.
fn follow<S: Source, O: Sink, P: Sink, W: Watch>(
    alloc: Global,
    places: u32,
    limits: Limits,
    rechecks: bool,
    reader: &mut Reader,
    course: &mut Course,
    script: &mut S,
    out: &mut O,
    cert: &mut P,
    meter: &mut Meter,
    watch: &mut W,
) -> Result<Followed, Halt>
    requires limits { AreLimits (limits_of limits) }
    requires fresh { reader.old ≡ fresh }
    requires stands { StandsFor course.old opening }
    requires tally { course.old.tally ≡ no_checks }
    requires shared { IsShared course.old.store course.old.shared }
    ensures run { (run : IsSolved places S.read_gives (limits_of limits) (S.left script.old)
        script.old script.new (O.held out.old) (O.held out.new) (P.held cert.old) (P.held cert.new)
        (records_of meter.old) (records_of meter.new) (run_status result))
        × IsTallied (checks_of run.checks) result }
    ensures ends { IfOk result (λ followed. status_of followed.ending ≤ 1) }
    ensures read { IsErrOf result Halt.Read → Rose (S.faults script.old) (S.faults script.new)
        ⊎ MetLimit S.read_gives (S.left script.old) script.old script.new }
    ensures write { IsErrOf result Halt.Write → Rose (O.faults out.old) (O.faults out.new)
        ⊎ Rose (P.faults cert.old) (P.faults cert.new) }
    ensures script_count { S.faults script.old ≤ S.faults script.new }
    ensures out_count { O.faults out.old ≤ O.faults out.new }
    ensures cert_count { P.faults cert.old ≤ P.faults cert.new }
{
    put_all(cert, HEADER)?;
    'commands: loop {
        let next = reader.next_command(script);
        let made = next_move(alloc, places, limits, rechecks, next, course, meter)?;
        match write_move(out, cert, &made)? {
            Some(ending) => {
                let tally = course.tally;
                return Ok(Followed { ending, tally });
            }
            None => tell(watch, course),
        }
    }
}

// Writes the section of a move, and behind it its text. Gives the end of the script, where the move
// ends it.
fn write_move<O: Sink, P: Sink>(
    out: &mut O,
    cert: &mut P,
    made: &Move,
) -> Result<Option<Ending>, Halt>
    ensures ending { IfOk result (λ ending. ending ≡ end_after made.now.after) }
    ensures section { IfOk result (λ _.
        Appends (P.held cert.old) (P.held cert.new) made.now.section.items) }
    ensures text { IfOk result (λ _.
        Appends (O.held out.old) (O.held out.new) made.now.text.items) }
    ensures cut { OnErr result (WritesPart made.now (O.held out.old) (O.held out.new)
        (P.held cert.old) (P.held cert.new)) }
    ensures write { OnErr result ((result ≡ Err Halt.Write)
        × (Rose (O.faults out.old) (O.faults out.new)
        ⊎ Rose (P.faults cert.old) (P.faults cert.new))) }
    ensures out_count { O.faults out.old ≤ O.faults out.new }
    ensures cert_count { P.faults cert.old ≤ P.faults cert.new }
{
    put_all(cert, &made.section)?;
    put_all(out, &made.text)?;
    match made.after {
        After::More => Ok(None),
        After::Ended(ending) => Ok(Some(ending)),
    }
}
