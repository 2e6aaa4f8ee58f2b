//! The command that asks for values of terms, called with the item at which its argument begins.

ghost use Rattle.std.specs.Prelude.{◌≡◌, ◌∷◌, [], List};
ghost use Rattle.qv_sexpr.specs.Script.{Tree};
ghost use Rattle.qv_sexpr.specs.Items.{IsExpr, Begins};
ghost use Rattle.qv_store.specs.Stores.{Grows};
ghost use Rattle.qv_elab_defs.specs.Scopes.{Scope as Defs};
ghost use Rattle.qv_elab_scope.specs.Kept.{IsScopeIn};
ghost use Rattle.qv_script_defs.specs.State.{State};
ghost use Rattle.qv_script_defs.specs.Moves.{value_terms};
ghost use Rattle.qv_script_defs.specs.Commands.{GetValue};
ghost use Rattle.qv_script_stack.specs.Held.{IsScriptIn};
ghost use Rattle.qv_script_terms.specs.Asking.{value_of, TellsValue, TellsValues};
ghost use Rattle.qv_script_terms.specs.Beginnings.{RunsOutIn};
ghost use Rattle.qv_script_parts.specs.Parted.{IsPart, AreParts};
ghost use Rattle.qv_script_stack.specs.Steps.{StepsIn};

use qv_elab::elaborate;
use qv_script_defs::{Effect, ScriptFault, ScriptKind, ValueTerm, fault_at};
use qv_script_parts::{is_empty_list, parts_of, spaced};
use qv_script_stack::Stack;
use qv_sexpr::Expr;
use qv_store::Store;

/// `(get-value (t ..))`
pub fn get_value(
    stack: &Stack,
    store: &mut Store,
    place: u64,
    expr: &Expr,
    ts: u64,
) -> Result<Effect, ScriptFault>
    requires expr { IsExpr expr.now }
    requires ts { Begins expr.now ts }
    requires held { (s : State) × IsScriptIn store.old stack.now s }
    ensures step { StepsIn GetValue place expr.now (ts ∷ []) store.old store.new
        stack.now stack.now result }
    ensures short { RunsOutIn GetValue place expr.now (ts ∷ []) store.old stack.now result }
    ensures grows { Grows store.old store.new }
{
    let Some(false) = is_empty_list(expr, ts) else {
        return Err(fault_at(place, ScriptKind::Form));
    };
    if !stack.has_model() {
        return Err(fault_at(place, ScriptKind::NoModel));
    }
    let parts = parts_of(stack.alloc(), expr, ts)?;
    let terms = value_terms(stack, store, expr, &parts)?;
    Ok(Effect::Values(terms))
}

// The terms at items, whose values are asked for.
fn value_terms(
    stack: &Stack,
    store: &mut Store,
    expr: &Expr,
    parts: &[u64],
) -> Result<Vec<ValueTerm>, ScriptFault>
    requires expr { IsExpr expr.now }
    requires parts { (es : List Tree) × AreParts expr.now parts.now es }
    requires held { (s : State) × IsScriptIn store.old stack.now s }
    ensures tells { (s : State) (es : List Tree) → IsScriptIn store.old stack.now s →
        AreParts expr.now parts.now es →
        TellsValues store.new (value_terms s es) result }
    ensures grows { Grows store.old store.new }
{
    let mut terms = Vec::new(stack.alloc());
    'terms: for part in parts {
        let term = value_term(stack, store, expr, *part)?;
        terms.reserve(1)?;
        terms.push_reserved(term);
    }
    Ok(terms)
}

// The term at an item, whose value is asked for.
fn value_term(
    stack: &Stack,
    store: &mut Store,
    expr: &Expr,
    at: u64,
) -> Result<ValueTerm, ScriptFault>
    requires expr { IsExpr expr.now }
    requires at { Begins expr.now at }
    requires scope { (defs : Defs) × IsScopeIn store.old stack.now.force defs }
    ensures tells { (defs : Defs) (e : Tree) →
        IsScopeIn store.old stack.now.force defs → IsPart expr.now at e →
        TellsValue store.new (value_of defs e) result }
    ensures grows { Grows store.old store.new }
{
    let place = expr.items[at as usize].place;
    let id = elaborate(stack.alloc(), store, stack.scope(), expr, at)?;
    if store.quantified(id) {
        return Err(fault_at(place, ScriptKind::Quantifier));
    }
    let text = spaced(stack.alloc(), expr, at)?;
    Ok(ValueTerm { text, id })
}
