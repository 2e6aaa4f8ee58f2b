//! The commands that speak of no terms. Each is called with the items at which its arguments begin.

ghost use Rattle.std.specs.Prelude.{◌≡◌, ◌∷◌, [], List, Ok, OnErr, length};
ghost use Rattle.qv_sexpr.specs.Script.{Tree as Expression};
ghost use Rattle.qv_sexpr.specs.Items.{IsExpr, Begins};
ghost use Rattle.qv_words.specs.Tree.{Tree};
ghost use Rattle.qv_script_defs.specs.State.{State};
ghost use Rattle.qv_script_defs.specs.Moves.{declare, define_sort, push, pop};
ghost use Rattle.qv_script_stack.specs.Held.{IsScriptIn};
ghost use Rattle.qv_script_defs.specs.Commands.{SetLogic, SetInfo, DeclareConst};
ghost use Rattle.qv_script_defs.specs.Commands.{DeclareFun, DefineSort};
ghost use Rattle.qv_script_defs.specs.Commands.{GetInfo, Echo, ResetAssertions, Reset, Leave};
ghost use Rattle.qv_script_defs.specs.Commands.{CheckSat, GetModel, GetUnsatCore, GetUnsatAssumptions};
ghost use Rattle.qv_script_parts.specs.Parted.{IsPart};
ghost use Rattle.qv_script_stack.specs.Steps.{Settles, Steps, Does};

use qv_elab_scope::scoped_sort;
use qv_script_defs::{Effect, ScriptFault, ScriptKind, fault_at};
use qv_script_parts::{is_empty_list, is_logic, keyword_at, line, string_at, symbol_at};
use qv_script_stack::{Declared, Stack};
use qv_sexpr::Expr;

/// How many levels may be open.
const LEVEL_LIMIT: u128 = 1_000_000;

/// `(set-logic L)`
pub fn set_logic(stack: &mut Stack, place: u64, expr: &Expr, l: u64) -> Result<Effect, ScriptFault>
    ensures step { Steps SetLogic place expr.now (l ∷ []) stack.old stack.new result }
    ensures err { OnErr result (stack.new ≡ stack.old) }
{
    let Some(name) = symbol_at(expr, l) else {
        return Err(fault_at(place, ScriptKind::Form));
    };
    if stack.has_logic() || stack.has_begun() || !is_logic(name) {
        return Err(fault_at(place, ScriptKind::Logic));
    }
    stack.set_logic();
    Ok(Effect::Quiet)
}

/// `(set-info :k)`, `(set-info :k v)`
pub fn set_info(stack: &mut Stack, place: u64, expr: &Expr, k: u64) -> Result<Effect, ScriptFault>
    ensures step { Steps SetInfo place expr.now (k ∷ []) stack.old stack.new result }
    ensures err { OnErr result (stack.new ≡ stack.old) }
{
    match keyword_at(expr, k) {
        Some(_) => Ok(Effect::Quiet),
        None => Err(fault_at(place, ScriptKind::Form)),
    }
}

/// `(declare-const x S)`
pub fn declare_const(
    stack: &mut Stack,
    place: u64,
    expr: &Expr,
    x: u64,
    sort: u64,
) -> Result<Effect, ScriptFault>
    requires expr { IsExpr expr.now }
    requires sort { Begins expr.now sort }
    ensures step { Steps DeclareConst place expr.now (x ∷ sort ∷ []) stack.old stack.new result }
    ensures err { OnErr result (stack.new ≡ stack.old) }
{
    let Some(name) = symbol_at(expr, x) else {
        return Err(fault_at(place, ScriptKind::Form));
    };
    declare(stack, place, name, expr, sort)
}

/// `(declare-fun x () S)`
pub fn declare_fun(
    stack: &mut Stack,
    place: u64,
    expr: &Expr,
    x: u64,
    sorts: u64,
    sort: u64,
) -> Result<Effect, ScriptFault>
    requires expr { IsExpr expr.now }
    requires sort { Begins expr.now sort }
    ensures step { Steps DeclareFun place expr.now (x ∷ sorts ∷ sort ∷ [])
        stack.old stack.new result }
    ensures err { OnErr result (stack.new ≡ stack.old) }
{
    let Some(name) = symbol_at(expr, x) else {
        return Err(fault_at(place, ScriptKind::Form));
    };
    match is_empty_list(expr, sorts) {
        Some(true) => declare(stack, place, name, expr, sort),
        Some(false) => Err(fault_at(place, ScriptKind::NotSupported)),
        None => Err(fault_at(place, ScriptKind::Form)),
    }
}

// Declares a constant of the sort that stands at an item.
fn declare(
    stack: &mut Stack,
    place: u64,
    name: &[u8],
    expr: &Expr,
    sort: u64,
) -> Result<Effect, ScriptFault>
    requires expr { IsExpr expr.now }
    requires sort { Begins expr.now sort }
    ensures step { (trees : List Tree) (s : State) (e : Expression) →
        IsScriptIn trees stack.old s → IsPart expr.now sort e →
        Settles trees stack.new (declare place s name.now e) result }
    ensures err { OnErr result (stack.new ≡ stack.old) }
{
    if stack.is_taken(name) {
        return Err(fault_at(place, ScriptKind::NameInUse));
    }
    let sort = scoped_sort(stack.scope(), expr, sort)?;
    let name = Vec::from_slice(stack.alloc(), name)?;
    stack.add_constant(Declared { name, sort })?;
    Ok(Effect::Quiet)
}

/// `(define-sort x () S)`
pub fn define_sort(
    stack: &mut Stack,
    place: u64,
    expr: &Expr,
    x: u64,
    parameters: u64,
    sort: u64,
) -> Result<Effect, ScriptFault>
    requires expr { IsExpr expr.now }
    requires sort { Begins expr.now sort }
    ensures step { Steps DefineSort place expr.now (x ∷ parameters ∷ sort ∷ [])
        stack.old stack.new result }
    ensures err { OnErr result (stack.new ≡ stack.old) }
{
    let Some(name) = symbol_at(expr, x) else {
        return Err(fault_at(place, ScriptKind::Form));
    };
    match is_empty_list(expr, parameters) {
        Some(true) => name_sort(stack, place, name, expr, sort),
        Some(false) => Err(fault_at(place, ScriptKind::NotSupported)),
        None => Err(fault_at(place, ScriptKind::Form)),
    }
}

// Defines a name as the sort that stands at an item.
fn name_sort(
    stack: &mut Stack,
    place: u64,
    name: &[u8],
    expr: &Expr,
    sort: u64,
) -> Result<Effect, ScriptFault>
    requires expr { IsExpr expr.now }
    requires sort { Begins expr.now sort }
    ensures step { (trees : List Tree) (s : State) (e : Expression) →
        IsScriptIn trees stack.old s → IsPart expr.now sort e →
        Settles trees stack.new (define_sort place s name.now e) result }
    ensures err { OnErr result (stack.new ≡ stack.old) }
{
    if stack.is_sort_taken(name) {
        return Err(fault_at(place, ScriptKind::NameInUse));
    }
    let sort = scoped_sort(stack.scope(), expr, sort)?;
    stack.add_sort(name, sort)?;
    Ok(Effect::Quiet)
}

/// `(push n)`
pub fn push(stack: &mut Stack, place: u64, count: u128) -> Result<Effect, ScriptFault>
    ensures step { (trees : List Tree) (s : State) → IsScriptIn trees stack.old s →
        Settles trees stack.new (push place s count) result }
    ensures err { OnErr result (stack.new ≡ stack.old) }
{
    if (stack.levels() as u128).saturating_add(count) > LEVEL_LIMIT {
        return Err(fault_at(place, ScriptKind::LevelLimit));
    }
    stack.open_levels(count as usize)?;
    Ok(Effect::Quiet)
}

/// `(pop n)`
pub fn pop(stack: &mut Stack, place: u64, count: u128) -> Result<Effect, ScriptFault>
    requires { length stack.old.starts ≡ length stack.old.force.starts }
    ensures step { (trees : List Tree) (s : State) → IsScriptIn trees stack.old s →
        Settles trees stack.new (pop place s count) result }
    ensures err { OnErr result (stack.new ≡ stack.old) }
{
    if count > stack.levels() as u128 {
        return Err(fault_at(place, ScriptKind::PopBelow));
    }
    stack.close_levels(count as usize);
    Ok(Effect::Quiet)
}

/// `(get-info :k)`
pub fn get_info(stack: &mut Stack, place: u64, expr: &Expr, k: u64) -> Result<Effect, ScriptFault>
    ensures step { Steps GetInfo place expr.now (k ∷ []) stack.old stack.new result }
    ensures err { OnErr result (stack.new ≡ stack.old) }
{
    let Some(key) = keyword_at(expr, k) else {
        return Err(fault_at(place, ScriptKind::Form));
    };
    Ok(Effect::Text(stack.info_text(place, key)?))
}

/// `(echo "s")`
pub fn echo(stack: &mut Stack, place: u64, expr: &Expr, e: u64) -> Result<Effect, ScriptFault>
    ensures step { Steps Echo place expr.now (e ∷ []) stack.old stack.new result }
    ensures err { OnErr result (stack.new ≡ stack.old) }
{
    match string_at(expr, e) {
        Some(text) => Ok(Effect::Text(line(stack.alloc(), text)?)),
        None => Err(fault_at(place, ScriptKind::Form)),
    }
}

/// `(check-sat)`
pub fn check_sat(stack: &mut Stack, place: u64) -> Effect
    ensures { Does CheckSat place stack.old stack.new (Ok result) }
{
    stack.forget();
    Effect::Check
}

/// `(get-model)`
pub fn get_model(stack: &Stack, place: u64) -> Result<Effect, ScriptFault>
    ensures { Does GetModel place stack.now stack.now result }
{
    if !stack.has_model() {
        return Err(fault_at(place, ScriptKind::NoModel));
    }
    Ok(Effect::Whole)
}

/// `(get-unsat-core)`
pub fn get_unsat_core(stack: &Stack, place: u64) -> Result<Effect, ScriptFault>
    ensures { Does GetUnsatCore place stack.now stack.now result }
{
    if !stack.has_core() {
        return Err(fault_at(place, ScriptKind::NoCore));
    }
    Ok(Effect::Core)
}

/// `(get-unsat-assumptions)`
pub fn get_unsat_assumptions(stack: &Stack, place: u64) -> Result<Effect, ScriptFault>
    ensures { Does GetUnsatAssumptions place stack.now stack.now result }
{
    if !stack.has_assumed_core() {
        return Err(fault_at(place, ScriptKind::NoCore));
    }
    Ok(Effect::AssumedCore)
}

/// `(reset-assertions)`
pub fn reset_assertions(stack: &mut Stack, place: u64) -> Effect
    ensures { Does ResetAssertions place stack.old stack.new (Ok result) }
{
    stack.empty();
    Effect::Quiet
}

/// `(reset)`
pub fn reset(stack: &mut Stack, place: u64) -> Effect
    ensures { Does Reset place stack.old stack.new (Ok result) }
{
    stack.restart();
    Effect::Quiet
}

/// `(exit)`
pub fn exit(stack: &Stack, place: u64) -> Effect
    ensures { Does Leave place stack.now stack.now (Ok result) }
{
    Effect::Exit
}
