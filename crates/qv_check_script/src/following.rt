//! What comes behind the first line of a certificate.

ghost use Rattle.std.specs.Prelude.{◌≡◌, ◌⊎◌, ◌+◌, ◌<◌, ◌≤◌, Err, None, IfOk, OnErr, IfSome};
ghost use Rattle.std.specs.Prelude.{IsErrOf, option_map};
ghost use Rattle.qv_io.specs.Count.{Rose};
ghost use Rattle.qv_io.specs.Sink.{Appends, AppendsPart};
ghost use Rattle.qv_text.specs.Progress.{fed};
ghost use Rattle.qv_sexpr.specs.Limits.{piece_size, read_limit};
ghost use Rattle.qv_sexpr.specs.Reader.{to_read};
ghost use Rattle.qv_sexpr.specs.Script.{reads};
ghost use Rattle.qv_cert.specs.CertReader.{to_give};
ghost use Rattle.qv_script_defs.specs.State.{State, opening};
ghost use Rattle.qv_check_script.specs.Ending.{status_of, run_status};
ghost use Rattle.qv_check_defs.specs.Limits.{TakesToLimit};
ghost use Rattle.qv_check_script.specs.Reading.{ReadsFrom, unfed};
ghost use Rattle.qv_check_script.specs.Turns.{Stands, Cut, Done, Short, StopsWanting, to_come, said};
ghost use Rattle.qv_check_script.specs.Turns.{ending_of};

use crate::commands::next_turn;
use crate::course::Course;
use crate::ending::{Ending, Halt};
use crate::turns::Turn;
use qv_cert::CertReader;
use qv_io::{Sink, Source, put_all};
use qv_sexpr::Reader;
use std::alloc::Global;

/// Follows a script from its start, beside a certificate whose first line was read.
pub(crate) fn follow<S: Source, C: Source, O: Sink>(
    alloc: Global,
    places: u32,
    reader: &mut CertReader,
    script: &mut S,
    cert: &mut C,
    out: &mut O,
) -> Result<Ending, Halt>
    requires begun { 0 < reader.old.given }
    requires reads { reader.old.stopped ≡ None }
    ensures done { IfOk result (λ ending. IfSome (to_come places reader.old.version 0 opening
        (option_map reads (S.left script.old)) reader.old.given
        (to_give reader.old.rest (C.left cert.old)))
        (Done (O.held out.old) (O.held out.new) (status_of ending))) }
    ensures cut { OnErr result (IfSome (to_come places reader.old.version 0 opening
        (option_map reads (S.left script.old)) reader.old.given
        (to_give reader.old.rest (C.left cert.old))) (Cut (O.held out.old) (O.held out.new))) }
    ensures short { IsErrOf result Halt.NoMemory → IfSome (to_come places reader.old.version 0
        opening (option_map reads (S.left script.old)) reader.old.given
        (to_give reader.old.rest (C.left cert.old))) (Short (O.held out.old) (O.held out.new)) }
    ensures reading { ReadsFrom places S.read_gives (Rose (C.faults cert.old) (C.faults cert.new)
        ⊎ StopsWanting C.read_gives C.left reader.old cert.old reader.new cert.new
        (to_come places reader.old.version 0 opening (option_map reads (S.left script.old))
        reader.old.given (to_give reader.old.rest (C.left cert.old)))) opening unfed
        script.old (option_map reads (S.left script.old)) (O.held out.old) (O.held out.new)
        (run_status result) script.new }
    ensures read { IsErrOf result Halt.Read → Rose (S.faults script.old) (S.faults script.new)
        ⊎ Rose (C.faults cert.old) (C.faults cert.new) }
    ensures limit { IsErrOf result Halt.ReadLimit →
        TakesToLimit S.read_gives S.left 0 script.old script.new
        ⊎ StopsWanting C.read_gives C.left reader.old cert.old reader.new cert.new
        (to_come places reader.old.version 0 opening (option_map reads (S.left script.old))
        reader.old.given (to_give reader.old.rest (C.left cert.old))) }
    ensures write { IsErrOf result Halt.Write → Rose (O.faults out.old) (O.faults out.new) }
    ensures script_count { S.faults script.old ≤ S.faults script.new }
    ensures cert_count { C.faults cert.old ≤ C.faults cert.new }
    ensures out_count { O.faults out.old ≤ O.faults out.new }
{
    let mut commands = Reader::new(alloc)?;
    let mut course = Course::new(alloc);
    take_turns(
        alloc,
        places,
        &mut commands,
        &mut course,
        reader,
        script,
        cert,
        out,
    )
}

// The turns from a state on.
fn take_turns<S: Source, C: Source, O: Sink>(
    alloc: Global,
    places: u32,
    commands: &mut Reader,
    course: &mut Course,
    reader: &mut CertReader,
    script: &mut S,
    cert: &mut C,
    out: &mut O,
) -> Result<Ending, Halt>
    requires stands { (s : State) × Stands course.old s }
    requires reading { commands.old.stopped ≡ None }
    requires small { fed commands.old.lexer < read_limit + piece_size }
    requires room { course.old.checks ≤ commands.old.lexer.place }
    requires begun { 0 < reader.old.given }
    requires reads { reader.old.stopped ≡ None }
    ensures done { IfOk result (λ ending. (s : State) → Stands course.old s →
        IfSome (to_come places reader.old.version course.old.checks s
        (to_read commands.old (S.left script.old)) reader.old.given
        (to_give reader.old.rest (C.left cert.old)))
        (Done (O.held out.old) (O.held out.new) (status_of ending))) }
    ensures cut { OnErr result ((s : State) → Stands course.old s →
        IfSome (to_come places reader.old.version course.old.checks s
        (to_read commands.old (S.left script.old)) reader.old.given
        (to_give reader.old.rest (C.left cert.old))) (Cut (O.held out.old) (O.held out.new))) }
    ensures short { IsErrOf result Halt.NoMemory → (s : State) → Stands course.old s →
        IfSome (to_come places reader.old.version course.old.checks s
        (to_read commands.old (S.left script.old)) reader.old.given
        (to_give reader.old.rest (C.left cert.old))) (Short (O.held out.old) (O.held out.new)) }
    ensures reading { (s : State) → Stands course.old s → ReadsFrom places S.read_gives
        (Rose (C.faults cert.old) (C.faults cert.new)
        ⊎ StopsWanting C.read_gives C.left reader.old cert.old reader.new cert.new
        (to_come places reader.old.version course.old.checks s (to_read commands.old (S.left script.old))
        reader.old.given (to_give reader.old.rest (C.left cert.old)))) s
        commands.old.lexer script.old (to_read commands.old (S.left script.old)) (O.held out.old)
        (O.held out.new) (run_status result) script.new }
    ensures read { IsErrOf result Halt.Read → Rose (S.faults script.old) (S.faults script.new)
        ⊎ Rose (C.faults cert.old) (C.faults cert.new) }
    ensures limit { IsErrOf result Halt.ReadLimit →
        TakesToLimit S.read_gives S.left (fed commands.old.lexer) script.old script.new
        ⊎ ((s : State) → Stands course.old s →
        StopsWanting C.read_gives C.left reader.old cert.old reader.new cert.new
        (to_come places reader.old.version course.old.checks s (to_read commands.old (S.left script.old))
        reader.old.given (to_give reader.old.rest (C.left cert.old)))) }
    ensures write { IsErrOf result Halt.Write → Rose (O.faults out.old) (O.faults out.new) }
    ensures script_count { S.faults script.old ≤ S.faults script.new }
    ensures cert_count { C.faults cert.old ≤ C.faults cert.new }
    ensures out_count { O.faults out.old ≤ O.faults out.new }
{
    'turns: loop {
        let next = commands.next_command(script);
        let turn = next_turn(alloc, places, next, course, reader, cert)?;
        match write_turn(out, &turn)? {
            Some(ending) => return Ok(ending),
            None => (),
        }
    }
}

// Writes the text of a turn, and gives the end of the check, where the turn ends it.
fn write_turn<O: Sink>(out: &mut O, turn: &Turn) -> Result<Option<Ending>, Halt>
    ensures ending { IfOk result (λ ending. ending ≡ ending_of turn.now) }
    ensures done { IfOk result (λ _. Appends (O.held out.old) (O.held out.new) (said turn.now)) }
    ensures cut { OnErr result (AppendsPart (O.held out.old) (O.held out.new) (said turn.now)) }
    ensures write { OnErr result ((result ≡ Err Halt.Write)
        × Rose (O.faults out.old) (O.faults out.new)) }
    ensures out_count { O.faults out.old ≤ O.faults out.new }
{
    match turn {
        Turn::Goes(text) => {
            put_all(out, text)?;
            Ok(None)
        }
        Turn::Ended(text, ending) => {
            put_all(out, text)?;
            Ok(Some(*ending))
        }
    }
}
