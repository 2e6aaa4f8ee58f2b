//! The commands that define. Each is called with the items at which its arguments begin.

ghost use Rattle.std.specs.Prelude.{◌≡◌, ◌∷◌, [], false, OnOk, OnErr, IfOk, map};
ghost use Rattle.qv_sexpr.specs.Script.{Tree};
ghost use Rattle.qv_sexpr.specs.Items.{IsExpr, Begins};
ghost use Rattle.qv_store.specs.Stores.{Grows};
ghost use Rattle.qv_elab_scope.specs.Force.{is_taken};
ghost use Rattle.qv_elab_defs.specs.TreeLaws.{AreParameters};
ghost use Rattle.qv_elab.specs.ReadBodies.{parameters_of};
ghost use Rattle.qv_script_defs.specs.State.{State};
ghost use Rattle.qv_script_defs.specs.Commands.{DefineFun, DefineConst};
ghost use Rattle.qv_script_stack.specs.Held.{IsScriptIn};
ghost use Rattle.qv_script_terms.specs.Defined.{defined};
ghost use Rattle.qv_script_terms.specs.Beginnings.{body_beginning, RunsOutIn};
ghost use Rattle.qv_script_parts.specs.Parted.{IsPart};
ghost use Rattle.qv_script_stack.specs.Steps.{Gives, StepsIn, RunsOut};

use qv_elab::{Parameter, are_parameters, elaborate_body, read_parameters, scoped_sort};
use qv_script_defs::{Effect, ScriptFault, ScriptKind, fault_at};
use qv_script_parts::symbol_at;
use qv_script_stack::Stack;
use qv_sexpr::Expr;
use qv_store::{NoMemory, Store};
use qv_words::Sort;
use std::alloc::Global;

// The sorts of parameters.
fn sorts_of(alloc: Global, parameters: &[Parameter]) -> Result<Vec<Sort>, NoMemory>
    ensures { IfOk result (λ sorts. sorts.items ≡ map (λ p. p.sort) parameters.now) }
{
    let mut sorts = Vec::new(alloc);
    'sorts: for parameter in parameters {
        sorts.push(parameter.sort)?;
    }
    Ok(sorts)
}

/// `(define-fun f ((x S) ..) S t)`
pub fn define_fun(
    stack: &mut Stack,
    store: &mut Store,
    place: u64,
    expr: &Expr,
    f: u64,
    parameters: u64,
    sort: u64,
    t: u64,
) -> Result<Effect, ScriptFault>
    requires expr { IsExpr expr.now }
    requires parameters { Begins expr.now parameters }
    requires sort { Begins expr.now sort }
    requires t { Begins expr.now t }
    requires held { (s : State) × IsScriptIn store.old stack.old s }
    ensures step { StepsIn DefineFun place expr.now (f ∷ parameters ∷ sort ∷ t ∷ [])
        store.old store.new stack.old stack.new result }
    ensures short { RunsOutIn DefineFun place expr.now (f ∷ parameters ∷ sort ∷ t ∷ [])
        store.old stack.old result }
    ensures lasts { OnOk result (stack.new.last ≡ stack.old.last) }
    ensures err { OnErr result (stack.new ≡ stack.old) }
    ensures grows { Grows store.old store.new }
{
    let Some(name) = symbol_at(expr, f) else {
        return Err(fault_at(place, ScriptKind::Form));
    };
    if !are_parameters(expr, parameters) {
        return Err(fault_at(place, ScriptKind::Form));
    }
    if stack.is_taken(name) {
        return Err(fault_at(place, ScriptKind::NameInUse));
    }
    let parameters = read_parameters(stack.alloc(), stack.scope(), expr, parameters)?;
    define(stack, store, name, &parameters, expr, sort, t)
}

/// `(define-const f S t)`
pub fn define_const(
    stack: &mut Stack,
    store: &mut Store,
    place: u64,
    expr: &Expr,
    f: u64,
    sort: u64,
    t: u64,
) -> Result<Effect, ScriptFault>
    requires expr { IsExpr expr.now }
    requires sort { Begins expr.now sort }
    requires t { Begins expr.now t }
    requires held { (s : State) × IsScriptIn store.old stack.old s }
    ensures step { StepsIn DefineConst place expr.now (f ∷ sort ∷ t ∷ [])
        store.old store.new stack.old stack.new result }
    ensures short { RunsOutIn DefineConst place expr.now (f ∷ sort ∷ t ∷ [])
        store.old stack.old result }
    ensures lasts { OnOk result (stack.new.last ≡ stack.old.last) }
    ensures err { OnErr result (stack.new ≡ stack.old) }
    ensures grows { Grows store.old store.new }
{
    let Some(name) = symbol_at(expr, f) else {
        return Err(fault_at(place, ScriptKind::Form));
    };
    if stack.is_taken(name) {
        return Err(fault_at(place, ScriptKind::NameInUse));
    }
    define(stack, store, name, &[], expr, sort, t)
}

// Defines a name that isn't taken, with these parameters.
fn define(
    stack: &mut Stack,
    store: &mut Store,
    name: &[u8],
    parameters: &[Parameter],
    expr: &Expr,
    sort: u64,
    t: u64,
) -> Result<Effect, ScriptFault>
    requires free { is_taken name.now stack.old.force ≡ false }
    requires parameters { AreParameters (parameters_of parameters.now) }
    requires expr { IsExpr expr.now }
    requires sort { Begins expr.now sort }
    requires t { Begins expr.now t }
    requires held { (s : State) × IsScriptIn store.old stack.old s }
    ensures step { (s : State) (e : Tree) (b : Tree) → IsScriptIn store.old stack.old s →
        IsPart expr.now sort e → IsPart expr.now t b →
        Gives store.new stack.new
        (defined s name.now (parameters_of parameters.now) e b) result }
    ensures short { (s : State) (e : Tree) (b : Tree) → IsScriptIn store.old stack.old s →
        IsPart expr.now sort e → IsPart expr.now t b → parameters.now ≡ [] →
        RunsOut (body_beginning s e b) result }
    ensures lasts { OnOk result (stack.new.last ≡ stack.old.last) }
    ensures err { OnErr result (stack.new ≡ stack.old) }
    ensures grows { Grows store.old store.new }
{
    let sort = scoped_sort(stack.scope(), expr, sort)?;
    let body = elaborate_body(
        stack.alloc(),
        store,
        stack.scope(),
        parameters,
        sort,
        expr,
        t,
    )?;
    let sorts = sorts_of(stack.alloc(), parameters)?;
    stack.add_definition(name, sorts, body)?;
    Ok(Effect::Quiet)
}
