//! The command that checks under assumptions, called with the item at which its argument begins.

ghost use Rattle.std.specs.Prelude.{◌≡◌, ◌∷◌, [], List, None, OnOk, OnErr, IfOk, map};
ghost use Rattle.qv_sexpr.specs.Script.{Tree};
ghost use Rattle.qv_sexpr.specs.Items.{IsExpr, Begins};
ghost use Rattle.qv_store.specs.Stores.{Grows};
ghost use Rattle.qv_script_defs.specs.State.{State};
ghost use Rattle.qv_script_defs.specs.Moves.{assumptions};
ghost use Rattle.qv_script_defs.specs.Parts.{spaced};
ghost use Rattle.qv_script_defs.specs.Commands.{CheckSatAssuming};
ghost use Rattle.qv_script_stack.specs.Held.{IsScriptIn};
ghost use Rattle.qv_script_terms.specs.Asking.{TellsTrees};
ghost use Rattle.qv_script_terms.specs.Beginnings.{RunsOutIn};
ghost use Rattle.qv_script_parts.specs.Parted.{AreParts};
ghost use Rattle.qv_script_stack.specs.Steps.{StepsIn};

use crate::terms::formula;
use qv_script_defs::{Effect, ScriptFault, ScriptKind, fault_at};
use qv_script_parts::{is_empty_list, parts_of, spaced};
use qv_script_stack::Stack;
use qv_sexpr::Expr;
use qv_store::{Id, NoMemory, Store};
use std::alloc::Global;

/// `(check-sat-assuming (t ..))`
pub fn check_sat_assuming(
    stack: &mut Stack,
    store: &mut Store,
    place: u64,
    expr: &Expr,
    ts: u64,
) -> Result<Effect, ScriptFault>
    requires expr { IsExpr expr.now }
    requires ts { Begins expr.now ts }
    requires held { (s : State) × IsScriptIn store.old stack.old s }
    ensures step { StepsIn CheckSatAssuming place expr.now (ts ∷ []) store.old store.new
        stack.old stack.new result }
    ensures short { RunsOutIn CheckSatAssuming place expr.now (ts ∷ []) store.old stack.old result }
    ensures forgets { OnOk result (stack.new.last ≡ None) }
    ensures err { OnErr result (stack.new ≡ stack.old) }
    ensures grows { Grows store.old store.new }
{
    let Some(_) = is_empty_list(expr, ts) else {
        return Err(fault_at(place, ScriptKind::Form));
    };
    let parts = parts_of(stack.alloc(), expr, ts)?;
    let ids = formulas(stack, store, expr, &parts)?;
    let terms = texts_of(stack.alloc(), expr, &parts)?;
    stack.assume(ids, terms);
    Ok(Effect::CheckAssuming)
}

// The formulas at items.
fn formulas(
    stack: &Stack,
    store: &mut Store,
    expr: &Expr,
    parts: &[u64],
) -> Result<Vec<Id>, ScriptFault>
    requires expr { IsExpr expr.now }
    requires parts { (es : List Tree) × AreParts expr.now parts.now es }
    requires held { (s : State) × IsScriptIn store.old stack.now s }
    ensures tells { (s : State) (es : List Tree) → IsScriptIn store.old stack.now s →
        AreParts expr.now parts.now es →
        TellsTrees store.new (assumptions s es) result }
    ensures grows { Grows store.old store.new }
{
    let mut ids = Vec::new(stack.alloc());
    'formulas: for part in parts {
        let id = formula(stack, store, expr, *part, *part)?;
        ids.reserve(1)?;
        ids.push_reserved(id);
    }
    Ok(ids)
}

// The terms at items, as they are written.
fn texts_of(alloc: Global, expr: &Expr, parts: &[u64]) -> Result<Vec<Vec<u8>>, NoMemory>
    requires expr { IsExpr expr.now }
    requires parts { (es : List Tree) × AreParts expr.now parts.now es }
    ensures { IfOk result (λ texts. (es : List Tree) → AreParts expr.now parts.now es →
        map (λ t. t.items) texts.items ≡ map spaced es) }
{
    let mut texts = Vec::new(alloc);
    'texts: for part in parts {
        let text = spaced(alloc, expr, *part)?;
        texts.reserve(1)?;
        texts.push_reserved(text);
    }
    Ok(texts)
}
