//! The commands of a script are done once more, up to its next check.

ghost use Rattle.std.specs.Prelude.{◌≡◌, ℕ, IfOk, Some, option_map};
ghost use Rattle.qv_sexpr.specs.Items.{IsExpr, IsExprOf};
ghost use Rattle.qv_sexpr.specs.Reader.{to_read};
ghost use Rattle.qv_sexpr.specs.Script.{Script as Commands, Tree as Expression};
ghost use Rattle.qv_script_defs.specs.Moves.{Effect as Done};
ghost use Rattle.qv_script_defs.specs.State.{State};
ghost use Rattle.qv_script_stack.specs.Steps.{IsEffect};
ghost use Rattle.qv_check_script.specs.Turns.{HasStepped, Stands};
ghost use Rattle.qv_check_clauses.specs.Following.{IsAtCheck, IsDone, Leads};

use qv_check_script::Course;
use qv_check_trim::Held;
use qv_script::Effect;
use qv_sexpr::{Expr, Next, Reader};
use qv_store::Id;
use std::alloc::{AllocError, Global};

// The formulas of a check, if a command's effect is one.
fn check_of(alloc: Global, effect: &Effect, course: &Course) -> Result<Option<Vec<Id>>, AllocError>
    ensures { IfOk result (λ found. (s : State) (e : Expression) (now : State) (done : Done) →
        HasStepped course.now s e now done →
        IsEffect course.now.store course.now.script effect.now done →
        IsDone s e (option_map (λ ids. ids.items) found) course.now) }
{
    match effect {
        Effect::Check | Effect::CheckAssuming => {
            let mut formulas = Vec::from_slice(alloc, course.script.assertions())?;
            formulas.extend_from_slice(course.script.assumptions())?;
            Ok(Some(formulas))
        }
        // The script goes on up to a check, so that only memory can be wanting.
        Effect::Exit => Err(AllocError),
        _ => Ok(None),
    }
}

// Does a command, and gives the formulas of its check, if it is one.
fn do_command(
    alloc: Global,
    expr: &Expr,
    course: &mut Course,
) -> Result<Option<Vec<Id>>, AllocError>
    requires expr { IsExpr expr.now }
    requires stands { (s : State) × Stands course.old s }
    ensures { IfOk result (λ found. (s : State) (e : Expression) → Stands course.old s →
        IsExprOf e expr.now → IsDone s e (option_map (λ ids. ids.items) found) course.new) }
{
    match course.script.step(&mut course.store, expr) {
        Ok(effect) => check_of(alloc, &effect, course),
        Err(_) => Err(AllocError),
    }
}

// Does the next command, and gives the formulas of its check, if it is one.
fn next_command(
    alloc: Global,
    commands: &mut Reader,
    script: &mut Held<'_>,
    course: &mut Course,
) -> Result<Option<Vec<Id>>, AllocError>
    requires stands { (s : State) × Stands course.old s }
    ensures { IfOk result (λ found. (places : ℕ) (s : State) (c : Commands) → Stands course.old s →
        to_read commands.old (Some script.old.left.now) ≡ Some c → Leads places s c
        (option_map (λ ids. ids.items) found) course.new
        (to_read commands.new (Some script.new.left.now))) }
{
    match commands.next_command(script) {
        Next::Command(expr) => do_command(alloc, &expr, course),
        _ => Err(AllocError),
    }
}

/// Does the commands up to the next check, and gives its formulas.
pub(crate) fn next_check(
    alloc: Global,
    commands: &mut Reader,
    script: &mut Held<'_>,
    course: &mut Course,
) -> Result<Vec<Id>, AllocError>
    requires stands { (s : State) × Stands course.old s }
    requires told { (c : Commands) × (to_read commands.old (Some script.old.left.now) ≡ Some c) }
    ensures { IfOk result (λ ids. (places : ℕ) (s : State) (c : Commands) → Stands course.old s →
        to_read commands.old (Some script.old.left.now) ≡ Some c → IsAtCheck places s c
        ids.items course.new (to_read commands.new (Some script.new.left.now))) }
{
    'commands: for _count in 0..u64::MAX {
        if let Some(formulas) = next_command(alloc, commands, script, course)? {
            return Ok(formulas);
        }
    }
    // No script has as many commands.
    Err(AllocError)
}
