//! Terms within those of a command that have names: each is defined before the command.

ghost use Rattle.std.specs.Prelude.{◌≡◌, List, OnOk, OnErr};
ghost use Rattle.qv_sexpr.specs.Items.{IsExpr};
ghost use Rattle.qv_store.specs.Stores.{Grows};
ghost use Rattle.qv_script_defs.specs.State.{State};
ghost use Rattle.qv_script_defs.specs.Labels.{Label, label, labelled};
ghost use Rattle.qv_script_parts.specs.Walking.{IsLabel, AreLabels};
ghost use Rattle.qv_script_stack.specs.Held.{IsScriptIn};
ghost use Rattle.qv_script_stack.specs.Changes.{IsLonger};
ghost use Rattle.qv_script_terms.specs.Labelling.{IsDefined, GivesState};

use qv_elab::elaborate;
use qv_script_defs::{ScriptFault, ScriptKind, fault_at};
use qv_script_parts::asserted_at;
use qv_script_stack::Stack;
use qv_sexpr::Expr;
use qv_store::Store;

/// Defines the names of the terms that begin at these items, one after another, for a command at
/// this place. Where one is refused, those before it stay.
pub fn label_all(
    stack: &mut Stack,
    store: &mut Store,
    place: u64,
    expr: &Expr,
    labels: &[u64],
) -> Result<(), ScriptFault>
    requires expr { IsExpr expr.now }
    requires labels { (ls : List Label) × AreLabels expr.now labels.now ls }
    requires held { (s : State) × IsScriptIn store.old stack.old s }
    ensures labelled { (s : State) (ls : List Label) → IsScriptIn store.old stack.old s →
        AreLabels expr.now labels.now ls →
        GivesState store.new stack.new (labelled place ls s) result }
    ensures longer { IsLonger stack.old stack.new }
    ensures grows { Grows store.old store.new }
{
    'labels: for at in labels {
        label(stack, store, place, expr, *at)?;
    }
    Ok(())
}

// Defines the name of the term that begins at an item, with its annotation.
fn label(
    stack: &mut Stack,
    store: &mut Store,
    place: u64,
    expr: &Expr,
    at: u64,
) -> Result<(), ScriptFault>
    requires expr { IsExpr expr.now }
    requires label { (l : Label) × IsLabel expr.now at l }
    requires held { (s : State) × IsScriptIn store.old stack.old s }
    ensures label { (s : State) (l : Label) → IsScriptIn store.old stack.old s →
        IsLabel expr.now at l → GivesState store.new stack.new (label place s l) result }
    ensures ok { OnOk result (IsDefined stack.old stack.new) }
    ensures err { OnErr result (stack.new ≡ stack.old) }
    ensures grows { Grows store.old store.new }
{
    let Some((term, name)) = asserted_at(expr, at) else {
        return Err(ScriptFault::NoMemory);
    };
    if stack.is_taken(name) {
        return Err(fault_at(place, ScriptKind::NameInUse));
    }
    let id = elaborate(stack.alloc(), store, stack.scope(), expr, term)?;
    stack.add_label(name, id)?;
    Ok(())
}
