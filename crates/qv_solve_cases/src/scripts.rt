//! Scripts, up to their first check.

ghost use Rattle.std.specs.Prelude.{IfSome};
ghost use Rattle.qv_sexpr.specs.Items.{IsExpr};
ghost use Rattle.qv_solve_cases.specs.Scripts.{IsHeldIn};

use qv_io::MemSource;
use qv_script::{Declared, Effect, Script};
use qv_sexpr::{Expr, Next, Reader};
use qv_store::{Id, Store};
use qv_words::Sort;
use std::alloc::Global;

/// What is checked, over constants of these sorts.
#[derive(Drop)]
pub struct Check {
    pub sorts: Vec<Sort>,
    pub formulas: Vec<Id>,
}

/// What the first check of a script asks, if it has one.
pub fn checked(alloc: Global, store: &mut Store, text: &str) -> Option<Check> {
    let bytes = Vec::from_slice(alloc, text.as_bytes()).ok()?;
    let mut source = MemSource::new(bytes, 4096, Vec::new(alloc));
    match Reader::new(alloc) {
        Ok(mut reader) => first_check(alloc, store, &mut source, &mut reader, text.len()),
        Err(_) => None,
    }
}

// The same, of a script of at most so many commands.
fn first_check(
    alloc: Global,
    store: &mut Store,
    source: &mut MemSource,
    reader: &mut Reader,
    most: usize,
) -> Option<Check> {
    let mut script = begun(alloc, store);
    if follow(store, &mut script, source, reader, most) {
        asked(alloc, &script)
    } else {
        None
    }
}

// Where a script begins.
fn begun(alloc: Global, store: &Store) -> Script
    ensures { IsHeldIn store.now result }
{
    Script::new(alloc)
}

// Follows at most so many commands up to a check: whether there is one.
fn follow(
    store: &mut Store,
    script: &mut Script,
    source: &mut MemSource,
    reader: &mut Reader,
    most: usize,
) -> bool
    requires { IsHeldIn store.old script.old }
{
    'commands: for _ in 0..most {
        let Some(expr) = command_of(source, reader) else {
            return false;
        };
        match is_check(store, script, &expr) {
            Some(false) => {}
            Some(true) => return true,
            None => return false,
        }
    }
    false
}

// The next command, if there is one.
fn command_of(source: &mut MemSource, reader: &mut Reader) -> Option<Expr>
    ensures { IfSome result (λ command. IsExpr command) }
{
    match reader.next_command(source) {
        Next::Command(command) => Some(command),
        _ => None,
    }
}

// Does a command: whether it checks. `None` where it is refused, or ends the script.
fn is_check(store: &mut Store, script: &mut Script, expr: &Expr) -> Option<bool>
    requires expr { IsExpr expr.now }
    requires held { IsHeldIn store.old script.old }
    ensures held { IsHeldIn store.new script.new }
{
    match script.step(store, expr) {
        Ok(Effect::Check) => Some(true),
        Ok(Effect::CheckAssuming) => Some(true),
        Ok(Effect::Exit) => None,
        Ok(_) => Some(false),
        Err(_) => None,
    }
}

// What is in force and what is assumed.
fn asked(alloc: Global, script: &Script) -> Option<Check> {
    let sorts = sorts_of(alloc, script.constants())?;
    let mut formulas = Vec::from_slice(alloc, script.assertions()).ok()?;
    formulas.extend_from_slice(script.assumptions()).ok()?;
    Some(Check { sorts, formulas })
}

fn sorts_of(alloc: Global, constants: &[Declared]) -> Option<Vec<Sort>> {
    let mut sorts = Vec::new(alloc);
    for own in constants {
        sorts.push(own.sort).ok()?;
    }
    Some(sorts)
}
