//! The section of one check.

ghost use Rattle.std.specs.Prelude.{◌≡◌, ◌⊎◌, ◌+◌, ◌^◌, ◌<◌, ◌≤◌, List, Option, None, IfOk, IsErrOf};
ghost use Rattle.std.specs.Prelude.{option_map};
ghost use Rattle.qv_io.specs.Count.{Rose};
ghost use Rattle.qv_io.specs.Source.{TellsAsBefore};
ghost use Rattle.qv_words.specs.Tree.{Tree};
ghost use Rattle.qv_sexpr.specs.Script.{Script as Commands, command as stands};
ghost use Rattle.qv_sexpr.specs.Script.{Tree as Expression};
ghost use Rattle.qv_elab_defs.specs.Tokens.{place_of};
ghost use Rattle.qv_cert.specs.CertReader.{to_give};
ghost use Rattle.qv_script_defs.specs.State.{State};
ghost use Rattle.qv_script_defs.specs.Moves.{Check};
ghost use Rattle.qv_script_stack.specs.Held.{AreAt};
ghost use Rattle.qv_cert.specs.Took.{TookLines};
ghost use Rattle.qv_check_script.specs.Turns.{HasStepped, to_come, TurnsTo, GoesOn, StopsWanting};

use crate::answers::last_of;
use crate::course::Course;
use crate::end::refused;
use crate::ending::{Ending, Halt};
use crate::texts::answer_line;
use crate::turns::Turn;
use qv_cert::CertReader;
use qv_check::{Verdict, check_one};
use qv_io::Source;
use qv_script::Counts;
use qv_script_texts::refusal;
use qv_store::Id;
use std::alloc::Global;

/// Reads the section of a check of these formulas, whose command stands at this place.
pub(crate) fn section_turn<C: Source>(
    alloc: Global,
    places: u32,
    place: u64,
    formulas: &[Id],
    course: &mut Course,
    reader: &mut CertReader,
    cert: &mut C,
) -> Result<Turn, Halt>
    requires stepped { (s : State) × (e : Expression) × (now : State) × (trees : List Tree)
        × HasStepped course.old s e now (Check trees)
        × AreAt course.old.store formulas.now trees }
    requires room { course.old.checks < 2 ^ 62 }
    requires begun { 0 < reader.old.given }
    requires reads { reader.old.stopped ≡ None }
    ensures turns { IfOk result (λ t. (s : State) (e : Expression) (now : State)
        (trees : List Tree) (rest : Option Commands) → HasStepped course.old s e now (Check trees) →
        AreAt course.old.store formulas.now trees → place ≡ place_of e →
        TurnsTo places t course.new s (option_map (stands e) rest) rest None (to_come places reader.old.version course.old.checks s
        (option_map (stands e) rest) reader.old.given
        (to_give reader.old.rest (C.left cert.old)))
        (λ t. to_come places reader.old.version course.new.checks t rest
        reader.new.given (to_give reader.new.rest (C.left cert.new)))) }
    ensures goes_on { IfOk result (λ t. GoesOn t →
        (0 < reader.new.given) × (reader.new.stopped ≡ None)) }
    ensures checks { course.new.checks ≤ course.old.checks + 1 }
    ensures version { reader.new.version ≡ reader.old.version }
    ensures read { IsErrOf result Halt.Read → Rose (C.faults cert.old) (C.faults cert.new) }
    ensures takes { IfOk result (λ t. GoesOn t → TookLines C.read_gives C.left reader.old cert.old
        reader.new.given reader.new.rest reader.new.taken cert.new) }
    ensures limit { IsErrOf result Halt.ReadLimit → (s : State) (e : Expression) (now : State)
        (trees : List Tree) (rest : Option Commands) → HasStepped course.old s e now (Check trees) →
        AreAt course.old.store formulas.now trees →
        StopsWanting C.read_gives C.left reader.old cert.old reader.new cert.new
        (to_come places reader.old.version course.old.checks s (option_map (stands e) rest)
        reader.old.given (to_give reader.old.rest (C.left cert.old))) }
    ensures no_write { IsErrOf result Halt.Write → ⊥ }
    ensures telling { TellsAsBefore (C.left cert.old) (C.left cert.new) }
    ensures count { C.faults cert.old ≤ C.faults cert.new }
{
    let number = course.checks + 1;
    match check_one(
        alloc,
        &mut course.store,
        formulas,
        number,
        places,
        reader,
        cert,
    ) {
        Verdict::Accepted(answer) => {
            course.checks = number;
            let last = last_of(alloc, &course.script, answer)?;
            // A certificate says nothing of what was counted.
            let counts = Counts {
                conflicts: 0,
                instances: 0,
                variables: 0,
            };
            course.script.answered(last, counts);
            Ok(Turn::Goes(Vec::from_slice(alloc, answer_line(answer))?))
        }
        Verdict::Refused { line, kind } => Ok(refused(alloc, line, kind)?),
        Verdict::PrefixLimit => {
            let line = refusal(alloc, place, "prefix limit")?;
            Ok(Turn::Ended(line, Ending::Faulty))
        }
        Verdict::ReadFault => Err(Halt::Read),
        Verdict::ReadLimit => Err(Halt::ReadLimit),
        Verdict::NoMemory => Err(Halt::NoMemory),
    }
}
