//! Assertions. A command is called with the item at which its argument begins.

ghost use Rattle.std.specs.Prelude.{◌≡◌, ◌∷◌, [], ℕ, Some, None, OnErr};
ghost use Rattle.qv_sexpr.specs.Script.{Tree};
ghost use Rattle.qv_sexpr.specs.Items.{IsExpr, Begins};
ghost use Rattle.qv_words.specs.declared.sort.Sort.TheVariants.{Bool};
ghost use Rattle.qv_words.specs.Rank.{sort_eq};
ghost use Rattle.qv_store.specs.Stores.{Grows};
ghost use Rattle.qv_elab_defs.specs.Scopes.{Scope as Defs, outermost};
ghost use Rattle.qv_elab_defs.specs.Beginnings.{beginning};
ghost use Rattle.qv_elab_scope.specs.Kept.{IsScopeIn};
ghost use Rattle.qv_script_defs.specs.Faults.{inside};
ghost use Rattle.qv_script_defs.specs.Commands.{Assert};
ghost use Rattle.qv_script_defs.specs.State.{State};
ghost use Rattle.qv_script_defs.specs.Moves.{assert, assert_named};
ghost use Rattle.qv_script_stack.specs.Held.{IsScriptIn};
ghost use Rattle.qv_script_terms.specs.Told.{formula_of, TellsTree};
ghost use Rattle.qv_script_terms.specs.Beginnings.{term_beginning, assert_beginning, RunsOutIn};
ghost use Rattle.qv_script_parts.specs.Parted.{IsPart};
ghost use Rattle.qv_script_stack.specs.Steps.{Gives, StepsIn, RunsOut};

use qv_elab::elaborate;
use qv_script_defs::{Effect, ScriptFault, ScriptKind, fault_at};
use qv_script_parts::asserted_at;
use qv_script_stack::Stack;
use qv_sexpr::Expr;
use qv_store::{Id, Store};
use qv_words::Sort;

// Whether terms of a sort are formulas.
fn is_bool(sort: Sort) -> bool
    ensures { result ≡ sort_eq Bool sort }
{
    sort == Sort::Bool
}

// The formula at an item, whose fault is at another item's place where it is a term of another
// sort.
pub(crate) fn formula(
    stack: &Stack,
    store: &mut Store,
    expr: &Expr,
    at: u64,
    whole: u64,
) -> Result<Id, ScriptFault>
    requires expr { IsExpr expr.now }
    requires at { Begins expr.now at }
    requires whole { Begins expr.now whole }
    requires scope { (defs : Defs) × IsScopeIn store.old stack.now.force defs }
    ensures tells { (defs : Defs) (e : Tree) (w : Tree) →
        IsScopeIn store.old stack.now.force defs → IsPart expr.now at e →
        IsPart expr.now whole w →
        TellsTree store.new (formula_of defs e w) result }
    ensures short { (defs : Defs) (e : Tree) →
        IsScopeIn store.old stack.now.force defs → IsPart expr.now at e →
        RunsOut (inside (beginning e (outermost defs))) result }
    ensures grows { Grows store.old store.new }
{
    let place = expr.items[whole as usize].place;
    let id = elaborate(stack.alloc(), store, stack.scope(), expr, at)?;
    if !is_bool(store.sort(id)) {
        return Err(fault_at(place, ScriptKind::Sorts));
    }
    Ok(id)
}

// Asserts the formula at an item, without a name.
fn assert_plain(
    stack: &mut Stack,
    store: &mut Store,
    expr: &Expr,
    t: u64,
) -> Result<Effect, ScriptFault>
    requires expr { IsExpr expr.now }
    requires t { Begins expr.now t }
    requires held { (s : State) × IsScriptIn store.old stack.old s }
    ensures step { (place : ℕ) (s : State) (e : Tree) →
        IsScriptIn store.old stack.old s → IsPart expr.now t e →
        Gives store.new stack.new (assert place s e None e) result }
    ensures short { (s : State) (e : Tree) →
        IsScriptIn store.old stack.old s → IsPart expr.now t e →
        RunsOut (term_beginning s e) result }
    ensures err { OnErr result (stack.new ≡ stack.old) }
    ensures grows { Grows store.old store.new }
{
    let id = formula(stack, store, expr, t, t)?;
    stack.add_assertion(id)?;
    Ok(Effect::Quiet)
}

/// `(assert t)`, `(assert (! t .. :named x ..))`
pub fn assert(
    stack: &mut Stack,
    store: &mut Store,
    place: u64,
    expr: &Expr,
    t: u64,
) -> Result<Effect, ScriptFault>
    requires expr { IsExpr expr.now }
    requires t { Begins expr.now t }
    requires held { (s : State) × IsScriptIn store.old stack.old s }
    ensures step { StepsIn Assert place expr.now (t ∷ []) store.old store.new
        stack.old stack.new result }
    ensures short { RunsOutIn Assert place expr.now (t ∷ []) store.old stack.old result }
    ensures err { OnErr result (stack.new ≡ stack.old) }
    ensures grows { Grows store.old store.new }
{
    match asserted_at(expr, t) {
        Some((term, name)) => assert_named(stack, store, place, expr, t, term, name),
        None => assert_plain(stack, store, expr, t),
    }
}

// Asserts the formula at an item under a name, where another item begins the whole.
fn assert_named(
    stack: &mut Stack,
    store: &mut Store,
    place: u64,
    expr: &Expr,
    whole: u64,
    term: u64,
    name: &[u8],
) -> Result<Effect, ScriptFault>
    requires expr { IsExpr expr.now }
    requires whole { Begins expr.now whole }
    requires term { Begins expr.now term }
    requires held { (s : State) × IsScriptIn store.old stack.old s }
    ensures step { (s : State) (w : Tree) (e : Tree) →
        IsScriptIn store.old stack.old s → IsPart expr.now whole w → IsPart expr.now term e →
        Gives store.new stack.new (assert_named place s w e name.now) result }
    ensures short { (s : State) (w : Tree) (e : Tree) →
        IsScriptIn store.old stack.old s → IsPart expr.now whole w → IsPart expr.now term e →
        RunsOut (assert_beginning place s (Some name.now) e) result }
    ensures err { OnErr result (stack.new ≡ stack.old) }
    ensures grows { Grows store.old store.new }
{
    if stack.is_taken(name) {
        return Err(fault_at(place, ScriptKind::NameInUse));
    }
    let id = formula(stack, store, expr, term, whole)?;
    stack.add_named(id, name)?;
    Ok(Effect::Quiet)
}
