//! What the next command of a script leads to.

ghost use Rattle.std.specs.Prelude.{◌≡◌, ◌⊎◌, ◌+◌, ◌^◌, ◌<◌, ◌≤◌, List, Option, Some, None, Ok, Err, IfOk};
ghost use Rattle.std.specs.Prelude.{IsErrOf, option_map};
ghost use Rattle.qv_io.specs.Count.{Rose};
ghost use Rattle.qv_io.specs.Source.{TellsAsBefore};
ghost use Rattle.qv_sexpr.specs.Items.{IsExpr, IsExprOf};
ghost use Rattle.qv_sexpr.specs.Reader.{stop_of, GivesNext};
ghost use Rattle.qv_sexpr.specs.Script.{Script as Commands, command as stands};
ghost use Rattle.qv_sexpr.specs.Script.{Tree as Expression};
ghost use Rattle.qv_sexpr.specs.declared.answers.Stop.TheVariants.{ReadFault, ReadLimit};
ghost use Rattle.qv_elab_defs.specs.Tokens.{place_of};
ghost use Rattle.qv_cert.specs.CertReader.{to_give};
ghost use Rattle.qv_script_defs.specs.State.{State};
ghost use Rattle.qv_script_defs.specs.Moves.{Effect as Done};
ghost use Rattle.qv_script_stack.specs.Steps.{IsEffect};
ghost use Rattle.qv_cert.specs.Took.{TookLines};
ghost use Rattle.qv_check_script.specs.Reading.{IsUnread};
ghost use Rattle.qv_check_script.specs.Turns.{Stands, HasStepped, to_come, TurnsTo, GoesOn};
ghost use Rattle.qv_check_script.specs.Turns.{StopsWanting};

use crate::course::Course;
use crate::end::finish;
use crate::ending::{Ending, Halt};
use crate::sections::section_turn;
use crate::turns::Turn;
use qv_cert::CertReader;
use qv_io::Source;
use qv_script::{Effect, ScriptFault};
use qv_script_texts::{kind_text, lex_line, nesting_line, parse_line, refusal};
use qv_sexpr::{Expr, Next};
use std::alloc::Global;

/// What the next answer of the reader of commands leads to.
pub(crate) fn next_turn<C: Source>(
    alloc: Global,
    places: u32,
    next: Next,
    course: &mut Course,
    reader: &mut CertReader,
    cert: &mut C,
) -> Result<Turn, Halt>
    requires given { (old new : Option Commands) × GivesNext old next new }
    requires stands { (s : State) × Stands course.old s }
    requires room { course.old.checks < 2 ^ 62 }
    requires begun { 0 < reader.old.given }
    requires reads { reader.old.stopped ≡ None }
    ensures turns { IfOk result (λ t. (s : State) (old new : Option Commands) →
        Stands course.old s → GivesNext old next new →
        TurnsTo places t course.new s old new (stop_of next)
        (to_come places reader.old.version course.old.checks s old reader.old.given (to_give reader.old.rest (C.left cert.old)))
        (λ now. to_come places reader.old.version course.new.checks now new
        reader.new.given (to_give reader.new.rest (C.left cert.new)))) }
    ensures goes_on { IfOk result (λ t. GoesOn t →
        (0 < reader.new.given) × (reader.new.stopped ≡ None)) }
    ensures checks { course.new.checks ≤ course.old.checks + 1 }
    ensures version { reader.new.version ≡ reader.old.version }
    ensures read { IsErrOf result Halt.Read → (stop_of next ≡ Some ReadFault)
        ⊎ Rose (C.faults cert.old) (C.faults cert.new) }
    ensures takes { IfOk result (λ t. GoesOn t → TookLines C.read_gives C.left reader.old cert.old
        reader.new.given reader.new.rest reader.new.taken cert.new) }
    ensures limit { IsErrOf result Halt.ReadLimit → (stop_of next ≡ Some ReadLimit)
        ⊎ ((s : State) (old new : Option Commands) → Stands course.old s → GivesNext old next new →
        StopsWanting C.read_gives C.left reader.old cert.old reader.new cert.new
        (to_come places reader.old.version course.old.checks s old reader.old.given
        (to_give reader.old.rest (C.left cert.old)))) }
    ensures commands { IfOk result (λ t. GoesOn t → stop_of next ≡ None) }
    // A script that can't be read is neither of these, nor want of memory.
    ensures unread { IsUnread (stop_of next) →
        (result ≡ Err Halt.Read) ⊎ (result ≡ Err Halt.ReadLimit) }
    ensures no_write { IsErrOf result Halt.Write → ⊥ }
    ensures telling { TellsAsBefore (C.left cert.old) (C.left cert.new) }
    ensures count { C.faults cert.old ≤ C.faults cert.new }
{
    match next {
        Next::Command(expr) => command_turn(alloc, places, &expr, course, reader, cert),
        Next::End => finish(alloc, reader, cert),
        Next::Lex(fault) => Ok(faulty(lex_line(alloc, fault)?)),
        Next::Parse(fault) => Ok(faulty(parse_line(alloc, fault)?)),
        Next::NestingLimit { place } => Ok(faulty(nesting_line(alloc, place)?)),
        Next::ReadFault => Err(Halt::Read),
        Next::ReadLimit => Err(Halt::ReadLimit),
        Next::NoMemory => Err(Halt::NoMemory),
    }
}

// What a command leads to.
fn command_turn<C: Source>(
    alloc: Global,
    places: u32,
    expr: &Expr,
    course: &mut Course,
    reader: &mut CertReader,
    cert: &mut C,
) -> Result<Turn, Halt>
    requires expr { IsExpr expr.now }
    requires stands { (s : State) × Stands course.old s }
    requires room { course.old.checks < 2 ^ 62 }
    requires begun { 0 < reader.old.given }
    requires reads { reader.old.stopped ≡ None }
    ensures turns { IfOk result (λ t. (s : State) (e : Expression) (rest : Option Commands) →
        Stands course.old s → IsExprOf e expr.now →
        TurnsTo places t course.new s (option_map (stands e) rest) rest None (to_come places reader.old.version course.old.checks s
        (option_map (stands e) rest) reader.old.given (to_give reader.old.rest (C.left cert.old)))
        (λ now. to_come places reader.old.version course.new.checks now rest
        reader.new.given (to_give reader.new.rest (C.left cert.new)))) }
    ensures goes_on { IfOk result (λ t. GoesOn t →
        (0 < reader.new.given) × (reader.new.stopped ≡ None)) }
    ensures checks { course.new.checks ≤ course.old.checks + 1 }
    ensures version { reader.new.version ≡ reader.old.version }
    ensures read { IsErrOf result Halt.Read → Rose (C.faults cert.old) (C.faults cert.new) }
    ensures takes { IfOk result (λ t. GoesOn t → TookLines C.read_gives C.left reader.old cert.old
        reader.new.given reader.new.rest reader.new.taken cert.new) }
    ensures limit { IsErrOf result Halt.ReadLimit → (s : State) (e : Expression)
        (rest : Option Commands) → Stands course.old s → IsExprOf e expr.now →
        StopsWanting C.read_gives C.left reader.old cert.old reader.new cert.new
        (to_come places reader.old.version course.old.checks s (option_map (stands e) rest)
        reader.old.given (to_give reader.old.rest (C.left cert.old))) }
    ensures no_write { IsErrOf result Halt.Write → ⊥ }
    ensures telling { TellsAsBefore (C.left cert.old) (C.left cert.new) }
    ensures count { C.faults cert.old ≤ C.faults cert.new }
{
    let place = expr.items[0].place;
    match course.script.step(&mut course.store, expr) {
        Ok(effect) => effect_turn(alloc, places, place, &effect, course, reader, cert),
        Err(ScriptFault::At { place, kind }) => {
            Ok(faulty(refusal(alloc, place, kind_text(kind))?))
        }
        Err(ScriptFault::NoMemory) => Err(Halt::NoMemory),
    }
}

// What the effect of a command at this place leads to.
fn effect_turn<C: Source>(
    alloc: Global,
    places: u32,
    place: u64,
    effect: &Effect,
    course: &mut Course,
    reader: &mut CertReader,
    cert: &mut C,
) -> Result<Turn, Halt>
    requires stepped { (s : State) × (e : Expression) × (now : State) × (done : Done)
        × HasStepped course.old s e now done
        × IsEffect course.old.store course.old.script effect.now done }
    requires room { course.old.checks < 2 ^ 62 }
    requires begun { 0 < reader.old.given }
    requires reads { reader.old.stopped ≡ None }
    ensures turns { IfOk result (λ t. (s : State) (e : Expression) (now : State) (done : Done)
        (rest : Option Commands) → HasStepped course.old s e now done →
        IsEffect course.old.store course.old.script effect.now done → place ≡ place_of e →
        TurnsTo places t course.new s (option_map (stands e) rest) rest None (to_come places reader.old.version course.old.checks s
        (option_map (stands e) rest) reader.old.given (to_give reader.old.rest (C.left cert.old)))
        (λ t. to_come places reader.old.version course.new.checks t rest
        reader.new.given (to_give reader.new.rest (C.left cert.new)))) }
    ensures goes_on { IfOk result (λ t. GoesOn t →
        (0 < reader.new.given) × (reader.new.stopped ≡ None)) }
    ensures checks { course.new.checks ≤ course.old.checks + 1 }
    ensures version { reader.new.version ≡ reader.old.version }
    ensures read { IsErrOf result Halt.Read → Rose (C.faults cert.old) (C.faults cert.new) }
    ensures takes { IfOk result (λ t. GoesOn t → TookLines C.read_gives C.left reader.old cert.old
        reader.new.given reader.new.rest reader.new.taken cert.new) }
    ensures limit { IsErrOf result Halt.ReadLimit → (s : State) (e : Expression) (now : State)
        (done : Done) (rest : Option Commands) → HasStepped course.old s e now done →
        IsEffect course.old.store course.old.script effect.now done →
        StopsWanting C.read_gives C.left reader.old cert.old reader.new cert.new
        (to_come places reader.old.version course.old.checks s (option_map (stands e) rest)
        reader.old.given (to_give reader.old.rest (C.left cert.old))) }
    ensures no_write { IsErrOf result Halt.Write → ⊥ }
    ensures telling { TellsAsBefore (C.left cert.old) (C.left cert.new) }
    ensures count { C.faults cert.old ≤ C.faults cert.new }
{
    match effect {
        Effect::Check | Effect::CheckAssuming => {
            let mut formulas = Vec::from_slice(alloc, course.script.assertions())?;
            formulas.extend_from_slice(course.script.assumptions())?;
            section_turn(alloc, places, place, &formulas, course, reader, cert)
        }
        Effect::Exit => finish(alloc, reader, cert),
        _ => Ok(Turn::Goes(Vec::new(alloc))),
    }
}

// The script has a fault.
fn faulty(line: Vec<u8>) -> Turn
    ensures { result ≡ Turn.Ended line Ending.Faulty }
{
    Turn::Ended(line, Ending::Faulty)
}
