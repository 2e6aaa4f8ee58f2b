//! Goes from one command of a script to the next.

ghost use Rattle.std.specs.Prelude.{All, ℕ, ◌≡◌, ◌⊎◌, ◌+◌, ◌<◌, ◌^◌, Some, None, Err, List, []};
ghost use Rattle.std.specs.Prelude.{IfOk, OnErr, OnOk, IsErrOf};
ghost use Rattle.qv_words.specs.Sort.{IsLawful};
ghost use Rattle.qv_words.specs.Tree.{Tree};
ghost use Rattle.qv_elab_defs.specs.Scopes.{Named};
ghost use Rattle.qv_elab_defs.specs.Tokens.{place_of};
ghost use Rattle.qv_sexpr.specs.Script.{Tree as Expression};
ghost use Rattle.qv_sexpr.specs.Items.{IsExpr, IsExprOf};
ghost use Rattle.qv_sexpr.specs.Reader.{stop_of};
ghost use Rattle.qv_sexpr.specs.declared.answers.Stop.TheVariants.{ReadFault, ReadLimit};
ghost use Rattle.qv_meter.specs.Records.{AreLimits, records_of};
ghost use Rattle.qv_meter.specs.Views.{limits_of};
ghost use Rattle.qv_script_defs.specs.State.{State, opening};
ghost use Rattle.qv_script_defs.specs.Moves.{Effect as Done};
ghost use Rattle.qv_script_defs.specs.Settings.{limit_of};
ghost use Rattle.qv_script_stack.specs.Held.{IsScriptIn};
ghost use Rattle.qv_shell_answer.specs.Metered.{lesser};
ghost use Rattle.qv_shell_answer.specs.Checks.{texts_of};
ghost use Rattle.qv_script_texts.specs.Filled.{IsFilled};
ghost use Rattle.qv_script_texts.specs.Printing.{core_text};
ghost use Rattle.qv_solve_offer.specs.Sharing.{IsShared};
ghost use Rattle.qv_shell_command.specs.Tallies.{no_checks, IsSmall};
ghost use Rattle.qv_shell_command.specs.Moves.{words_of, StandsFor, HasCore, HasDone, HasCheck};
ghost use Rattle.qv_shell_command.specs.Moves.{MovesTo, NextMoves, IsAnswered, IsRead, GoesOn, HasStarted};

use crate::ending::{Ending, Halt};
use crate::tallies::Tally;
use crate::texts::{answer_line, success};
use qv_meter::{Limits, Meter};
use qv_script::{Effect, Last, Script, ScriptFault};
use qv_script_texts::{
    all_values, assumed_text, core_text, kind_text, lex_line, model_text, nesting_line, parse_line,
    refusal, values_text,
};
use qv_sexpr::{Expr, Next};
use qv_shell_answer::{Among, Checked, SolveFault, answer, core};
use qv_solve_offer::Shared;
use qv_store::Store;
use qv_words::Word;
use std::alloc::{AllocError, Global};

/// What comes behind a command: further commands, or the end.
#[derive(Clone, Copy)]
pub enum After {
    More,
    Ended(Ending),
}

/// What a reader's answer leads to: the section that is written, the text that is printed behind it,
/// and what comes then.
#[derive(Drop)]
pub struct Move {
    pub section: Vec<u8>,
    pub text: Vec<u8>,
    pub after: After,
}

/// What a script has made so far, in its store, its checks, counted, and what they leave for the
/// next.
#[derive(Drop)]
pub struct Course {
    pub store: Store,
    pub script: Script,
    pub tally: Tally,
    pub shared: Shared,
}

impl Course {
    /// Nothing was made yet.
    pub fn new(alloc: Global) -> Course
        ensures stands { StandsFor result opening }
        ensures tally { result.tally ≡ no_checks }
        ensures shared { IsShared result.store result.shared }
    {
        Course {
            store: Store::new(alloc),
            script: Script::new(alloc),
            tally: Tally::new(),
            shared: Shared::new(alloc),
        }
    }
}

/// What a reader's answer leads to. With `rechecks` the checker looks at each section.
pub fn next_move(
    alloc: Global,
    places: u32,
    limits: Limits,
    rechecks: bool,
    next: Next,
    course: &mut Course,
    meter: &mut Meter,
) -> Result<Move, Halt>
    requires read { IsRead next }
    requires stands { (s : State) × StandsFor course.old s }
    requires room { stop_of next ≡ None → course.old.tally.checks + 1 < 2 ^ 62 }
    requires tally { IsSmall course.old.tally }
    requires limits { AreLimits (limits_of limits) }
    requires shared { IsShared course.old.store course.old.shared }
    ensures moves { IfOk result (λ m. (s : State) → StandsFor course.old s →
        NextMoves places (limits_of limits) s next m course.old.tally course.new
        (records_of meter.old) (records_of meter.new)) }
    ensures goes_on { IfOk result (λ m. GoesOn m.after → stop_of next ≡ None) }
    ensures begun { OnErr result (HasStarted (limits_of limits)
        (records_of meter.old) (records_of meter.new)) }
    ensures read { IsErrOf result Halt.Read → (stop_of next ≡ Some ReadFault)
        ⊎ (stop_of next ≡ Some ReadLimit) }
    // A script that can't be read is no want of memory.
    ensures unread { (stop_of next ≡ Some ReadFault) ⊎ (stop_of next ≡ Some ReadLimit) →
        result ≡ Err Halt.Read }
    // No record is started for it.
    ensures unrecorded { (stop_of next ≡ Some ReadFault) ⊎ (stop_of next ≡ Some ReadLimit) →
        records_of meter.new ≡ records_of meter.old }
    ensures no_write { IsErrOf result Halt.Write → ⊥ }
    ensures shared { OnOk result (IsShared course.new.store course.new.shared) }
{
    match next {
        Next::Command(expr) => Ok(command_move(
            alloc, places, limits, rechecks, &expr, course, meter,
        )?),
        Next::End => Ok(ended(alloc, Vec::new(alloc), Ending::Done)),
        Next::ReadFault | Next::ReadLimit => Err(Halt::Read),
        Next::Lex(fault) => Ok(refused(alloc, lex_line(alloc, fault)?)),
        Next::Parse(fault) => Ok(refused(alloc, parse_line(alloc, fault)?)),
        Next::NestingLimit { place } => Ok(refused(alloc, nesting_line(alloc, place)?)),
        Next::NoMemory => Err(Halt::NoMemory),
    }
}

// What a command leads to.
fn command_move(
    alloc: Global,
    places: u32,
    limits: Limits,
    rechecks: bool,
    expr: &Expr,
    course: &mut Course,
    meter: &mut Meter,
) -> Result<Move, AllocError>
    requires expr { IsExpr expr.now }
    requires stands { (s : State) × StandsFor course.old s }
    requires room { course.old.tally.checks + 1 < 2 ^ 62 }
    requires tally { IsSmall course.old.tally }
    requires limits { AreLimits (limits_of limits) }
    requires shared { IsShared course.old.store course.old.shared }
    ensures moves { IfOk result (λ m. (s : State) (e : Expression) → StandsFor course.old s →
        IsExprOf e expr.now → MovesTo places (limits_of limits) s e m course.old.tally course.new
        (records_of meter.old) (records_of meter.new)) }
    ensures begun { OnErr result (HasStarted (limits_of limits)
        (records_of meter.old) (records_of meter.new)) }
    ensures shared { OnOk result (IsShared course.new.store course.new.shared) }
{
    let place = expr.items[0].place;
    match course.script.step(&mut course.store, expr) {
        Ok(effect) => effect_move(
            alloc, places, limits, rechecks, place, effect, course, meter,
        ),
        Err(ScriptFault::At { place, kind }) => {
            Ok(refused(alloc, refusal(alloc, place, kind_text(kind))?))
        }
        Err(ScriptFault::NoMemory) => Err(AllocError),
    }
}

// What the effect of a command at this place leads to.
fn effect_move(
    alloc: Global,
    places: u32,
    limits: Limits,
    rechecks: bool,
    place: u64,
    effect: Effect,
    course: &mut Course,
    meter: &mut Meter,
) -> Result<Move, AllocError>
    requires done { (s : State) × (e : Expression) × (now : State) × (done : Done)
        × HasDone course.old.store course.old.script s e now done effect }
    requires room { course.old.tally.checks + 1 < 2 ^ 62 }
    requires tally { IsSmall course.old.tally }
    requires limits { AreLimits (limits_of limits) }
    requires shared { IsShared course.old.store course.old.shared }
    ensures moves { IfOk result (λ m. (s : State) (e : Expression) (now : State) (done : Done) →
        HasDone course.old.store course.old.script s e now done effect → place ≡ place_of e →
        MovesTo places (limits_of limits) s e m course.old.tally course.new
        (records_of meter.old) (records_of meter.new)) }
    ensures begun { OnErr result (HasStarted (limits_of limits)
        (records_of meter.old) (records_of meter.new)) }
    ensures shared { OnOk result (IsShared course.new.store course.new.shared) }
{
    match effect {
        Effect::Quiet => Ok(goes_on(alloc, success(alloc, &course.script)?)),
        Effect::Text(text) => Ok(goes_on(alloc, text)),
        Effect::Check => check_move(alloc, places, limits, rechecks, place, course, meter),
        Effect::CheckAssuming => check_move(alloc, places, limits, rechecks, place, course, meter),
        Effect::Values(terms) => {
            let values = last_values(alloc, &course.script)?;
            Ok(goes_on(alloc, values_text(alloc, &course.store, &terms, &values)?))
        }
        Effect::Whole => {
            let values = last_values(alloc, &course.script)?;
            Ok(goes_on(
                alloc,
                model_text(alloc, course.script.constants(), &values)?,
            ))
        }
        Effect::Core => core_move(alloc, limits, Among::Names, course, meter),
        Effect::AssumedCore => core_move(alloc, limits, Among::Assumptions, course, meter),
        Effect::Exit => Ok(ended(alloc, success(alloc, &course.script)?, Ending::Done)),
    }
}

// The values that were answered, where the last answer is sat.
fn answered_values(script: &Script) -> &[Word]
    ensures { result.now ≡ words_of script.now.last }
{
    match script.last() {
        Some(Last::Sat { values }) => values,
        _ => &[],
    }
}

// The values of all constants, where the last answer is sat.
fn last_values(alloc: Global, script: &Script) -> Result<Vec<Word>, AllocError>
    requires { All (λ own. IsLawful own.sort) script.now.constants }
    ensures { IfOk result (λ words. IsFilled script.now.constants
        (words_of script.now.last) words.items) }
{
    let words = all_values(alloc, script.constants(), answered_values(script))?;
    Ok(words)
}

// The limits of a check of a script: those of the words, or fewer conflicts by its option.
fn limits_at(limits: Limits, script: &Script) -> Limits
    requires { AreLimits (limits_of limits) }
    ensures own { (trees : List Tree) (s : State) → IsScriptIn trees script.now s →
        limits_of result ≡ lesser (limits_of limits) (limit_of s) }
    ensures limits { AreLimits (limits_of result) }
{
    let most = script.limit();
    if most == 0 {
        return limits;
    }
    let conflicts = limits.conflicts.min(most);
    Limits {
        conflicts,
        instances: limits.instances,
        variables: limits.variables,
    }
}

// A check of the assertions in force and of what is assumed.
fn check_move(
    alloc: Global,
    places: u32,
    limits: Limits,
    rechecks: bool,
    place: u64,
    course: &mut Course,
    meter: &mut Meter,
) -> Result<Move, AllocError>
    requires check { (s : State) × (e : Expression) × (now : State) × (formulas : List Tree)
        × HasCheck course.old.store course.old.script s e now formulas }
    requires room { course.old.tally.checks + 1 < 2 ^ 62 }
    requires tally { IsSmall course.old.tally }
    requires limits { AreLimits (limits_of limits) }
    requires shared { IsShared course.old.store course.old.shared }
    ensures moves { IfOk result (λ m. (s : State) (e : Expression) (now : State)
        (formulas : List Tree) →
        HasCheck course.old.store course.old.script s e now formulas → place ≡ place_of e →
        MovesTo places (limits_of limits) s e m course.old.tally course.new
        (records_of meter.old) (records_of meter.new)) }
    ensures begun { OnErr result (HasStarted (limits_of limits)
        (records_of meter.old) (records_of meter.new)) }
    ensures shared { OnOk result (IsShared course.new.store course.new.shared) }
{
    let number = course.tally.checks + 1;
    let own = limits_at(limits, &course.script);
    match answer(
        alloc,
        &mut course.store,
        &course.script,
        &mut course.shared,
        number,
        places,
        own,
        rechecks,
        meter,
    ) {
        Ok(checked) => answered(alloc, checked, course),
        Err(SolveFault::PrefixLimit) => {
            Ok(refused(alloc, refusal(alloc, place, "prefix limit")?))
        }
        Err(SolveFault::NoMemory) => Err(AllocError),
    }
}

// A core of what was checked last.
fn core_move(
    alloc: Global,
    limits: Limits,
    among: Among,
    course: &mut Course,
    meter: &mut Meter,
) -> Result<Move, AllocError>
    requires core { (s : State) × (e : Expression) × (now : State) × (formulas : List Tree)
        × (texts : Named ℕ)
        × HasCore course.old.store course.old.script among s e now formulas texts }
    requires limits { AreLimits (limits_of limits) }
    requires shared { IsShared course.old.store course.old.shared }
    ensures moves { IfOk result (λ m. (places : ℕ) (s : State) (e : Expression) (now : State)
        (formulas : List Tree) (texts : Named ℕ) →
        HasCore course.old.store course.old.script among s e now formulas texts →
        MovesTo places (limits_of limits) s e m course.old.tally course.new
        (records_of meter.old) (records_of meter.new)) }
    ensures begun { OnErr result (HasStarted (limits_of limits)
        (records_of meter.old) (records_of meter.new)) }
    ensures shared { OnOk result (IsShared course.new.store course.new.shared) }
{
    let own = limits_at(limits, &course.script);
    let kept = core(alloc, &mut course.store, &course.script, among, own, meter)?;
    Ok(goes_on(alloc, kept_text(alloc, &kept, among, &course.script)?))
}

// What is printed of a core of which these places are kept.
fn kept_text(
    alloc: Global,
    kept: &[u64],
    among: Among,
    script: &Script,
) -> Result<Vec<u8>, AllocError>
    ensures { IfOk result (λ text. text.items ≡ core_text kept.now (texts_of among script.now)) }
{
    match among {
        Among::Names => core_text(alloc, kept, script.named()),
        Among::Assumptions => assumed_text(alloc, kept, script),
    }
}

// The section and the line of an answer, which is kept and counted.
fn answered(alloc: Global, checked: Checked, course: &mut Course) -> Result<Move, AllocError>
    requires small { IsSmall course.old.tally }
    requires unrefused { checked.refusal ≡ None }
    ensures { IfOk result (IsAnswered checked course.old course.new) }
{
    let Checked {
        last,
        section,
        counts,
        refusal,
    } = checked;
    if let Some(line) = refusal {
        // The checker refuses no section that was made, so this never comes.
        return Ok(ended(alloc, line, Ending::Unaccepted));
    }
    let text = Vec::from_slice(alloc, answer_line(&last))?;
    course.tally.count(&last);
    course.script.answered(last, counts);
    Ok(Move {
        section,
        text,
        after: After::More,
    })
}

// The script goes on.
fn goes_on(alloc: Global, text: Vec<u8>) -> Move
    ensures text { result.text ≡ text }
    ensures section { result.section.items ≡ [] }
    ensures after { result.after ≡ After.More }
{
    Move {
        section: Vec::new(alloc),
        text,
        after: After::More,
    }
}

// The script has ended.
fn ended(alloc: Global, text: Vec<u8>, ending: Ending) -> Move
    ensures text { result.text ≡ text }
    ensures section { result.section.items ≡ [] }
    ensures after { result.after ≡ After.Ended ending }
{
    Move {
        section: Vec::new(alloc),
        text,
        after: After::Ended(ending),
    }
}

// A refusal, which ends the script.
fn refused(alloc: Global, line: Vec<u8>) -> Move
    ensures text { result.text ≡ line }
    ensures section { result.section.items ≡ [] }
    ensures after { result.after ≡ After.Ended Ending.Refused }
{
    ended(alloc, line, Ending::Refused)
}
