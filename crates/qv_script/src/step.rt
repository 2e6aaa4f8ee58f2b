//! Commands as they are read: each by its name, with its arguments.

ghost use Rattle.std.specs.Prelude.{◌≡◌, ◌≤◌, ◌∷◌, List, [], OnErr, true, false, length, take};
ghost use Rattle.std.specs.List.{list_any};
ghost use Rattle.std.specs.Option.{option_map, option_and_then};
ghost use Rattle.qv_sexpr.specs.Script.{Tree};
ghost use Rattle.qv_sexpr.specs.Items.{IsExpr, IsExprOf, Begins};
ghost use Rattle.qv_store.specs.Stores.{Grows};
ghost use Rattle.qv_elab_defs.specs.Tokens.{symbol_of};
ghost use Rattle.qv_elab_defs.specs.Scopes.{found};
ghost use Rattle.qv_script_defs.specs.State.{State};
ghost use Rattle.qv_script_defs.specs.Commands.{Push, Pop, DefineSort, commands, labels_of, after};
ghost use Rattle.qv_script_defs.specs.Commands.{behind_labels, commanded};
ghost use Rattle.qv_script_stack.specs.Held.{IsScriptIn};
ghost use Rattle.qv_script_parts.specs.Meant.{
  meant,
  is_setting,
  is_level,
  is_declaration,
  is_check,
  is_question,
};
ghost use Rattle.qv_script_parts.specs.Parted.{IsPart, AreParts, inside_of};
ghost use Rattle.qv_script_stack.specs.Steps.{Gives, Steps, StepsIn, RunsOut};
ghost use Rattle.qv_elab_items.specs.Inside.{is_named};
ghost use Rattle.qv_script_terms.specs.Beginnings.{RunsOutIn};
ghost use Rattle.qv_script.specs.Beginnings.{
  has_terms,
  mentions_named,
  outset,
  expression_beginning,
};
ghost use Rattle.qv_script_stack.specs.Changes.{IsLonger};
ghost use Rattle.qv_script_defs.specs.Parts.{asserted_of};
ghost use Rattle.qv_script_defs.specs.Labels.{Label, nothing, labels_in};
ghost use Rattle.qv_script_parts.specs.Walking.{AreLabels, TellsLabels};

use qv_elab_items::{behind, is_named};
use qv_script_defs::{Effect, ScriptFault, ScriptKind, fault_at};
use qv_script_parts::{
    Command, asserted_at, command_named, count_of, labels_below, labels_in, labels_listed,
    symbol_at,
};
use qv_script_plain::{
    check_sat, declare_const, declare_fun, define_sort, echo, exit, get_info, get_model,
    get_option, get_unsat_assumptions, get_unsat_core, pop, push, reset, reset_assertions,
    set_info, set_logic, set_option,
};
use qv_script_stack::Stack;
use qv_script_terms::{assert, check_sat_assuming, define_const, define_fun, get_value, label_all};
use qv_sexpr::{Expr, ItemKind};
use qv_store::Store;
use std::alloc::Global;

// The command that a part names.
fn command_at(expr: &Expr, at: u64) -> Option<Command>
    ensures { (e : Tree) → IsPart expr.now at e →
        option_map meant result ≡ option_and_then (λ name. found name commands) (symbol_of e) }
{
    command_named(symbol_at(expr, at)?)
}

// How many parts of a command are looked at: its name, and one argument more than any takes.
const FRONT: usize = 6;

// The items at which the first parts of a command begin, and how many there are.
fn front_of(expr: &Expr) -> ([u64; FRONT], usize)
    requires expr { IsExpr expr.now }
    ensures count { result.1 ≤ 6 }
    ensures parts { (e : Tree) → IsExprOf e expr.now →
        AreParts expr.now (take result.1 result.0) (take 6 (inside_of e)) }
{
    let mut parts = [0; FRONT];
    let mut count = 0;
    let ItemKind::Open { close } = expr.items[0].kind else {
        return (parts, 0);
    };
    let mut next = 1;
    'front: while next < close as usize && count < FRONT {
        parts[count] = next as u64;
        count += 1;
        next = behind(&expr.items, next);
    }
    (parts, count)
}

/// Does the command that an expression is: its effect, or why it is refused. Where it is
/// refused, what is held is as it was; the store may hold further nodes.
pub(crate) fn step(stack: &mut Stack, store: &mut Store, expr: &Expr) -> Result<Effect, ScriptFault>
    requires expr { IsExpr expr.now }
    requires held { (s : State) × IsScriptIn store.old stack.old s }
    ensures step { (s : State) (e : Tree) → IsScriptIn store.old stack.old s →
        IsExprOf e expr.now → Gives store.new stack.new (after s e) result }
    ensures short { (s : State) (e : Tree) → IsScriptIn store.old stack.old s →
        IsExprOf e expr.now → RunsOut (expression_beginning s e) result }
    ensures err { OnErr result (stack.new ≡ stack.old) }
    ensures grows { Grows store.old store.new }
    ensures held { (s : State) × IsScriptIn store.new stack.new s }
{
    let (parts, count) = front_of(expr);
    step_front(stack, store, expr, &parts[..count])
}

// Does the command whose first parts begin at these items.
fn step_front(
    stack: &mut Stack,
    store: &mut Store,
    expr: &Expr,
    front: &[u64],
) -> Result<Effect, ScriptFault>
    requires expr { IsExpr expr.now }
    requires front { (e : Tree) → IsExprOf e expr.now →
        AreParts expr.now front.now (take 6 (inside_of e)) }
    requires held { (s : State) × IsScriptIn store.old stack.old s }
    ensures step { (s : State) (e : Tree) → IsScriptIn store.old stack.old s →
        IsExprOf e expr.now → Gives store.new stack.new (after s e) result }
    ensures short { (s : State) (e : Tree) → IsScriptIn store.old stack.old s →
        IsExprOf e expr.now → RunsOut (expression_beginning s e) result }
    ensures err { OnErr result (stack.new ≡ stack.old) }
    ensures grows { Grows store.old store.new }
    ensures held { (s : State) × IsScriptIn store.new stack.new s }
{
    let place = expr.items[0].place;
    let Some((first, args)) = front.split_first() else {
        return Err(fault_at(place, ScriptKind::Command));
    };
    match command_at(expr, *first) {
        Some(command) => run_command(stack, store, command, place, expr, args),
        None => Err(fault_at(place, ScriptKind::Command)),
    }
}

// Whether a command has terms, and takes so many arguments.
fn has_terms(command: Command, count: usize) -> bool
    ensures { result ≡ has_terms (meant command) count }
{
    match command {
        Command::Assert | Command::CheckSatAssuming | Command::GetValue => count == 1,
        Command::DefineConst => count == 3,
        Command::DefineFun => count == 4,
        _ => false,
    }
}

// Whether the keyword `:named` stands in an expression.
fn has_named(expr: &Expr) -> bool
    ensures { result ≡ list_any (is_named expr.now.text.items) expr.now.items.items }
{
    expr.items.iter().any(|item| is_named(&expr.text, item))
}

// Does a command; one whose terms may have names behind the definitions of these.
fn run_command(
    stack: &mut Stack,
    store: &mut Store,
    command: Command,
    place: u64,
    expr: &Expr,
    args: &[u64],
) -> Result<Effect, ScriptFault>
    requires expr { IsExpr expr.now }
    requires parts { (es : List Tree) × AreParts expr.now args.now es }
    requires held { (s : State) × IsScriptIn store.old stack.old s }
    ensures step { (s : State) (es : List Tree) → IsScriptIn store.old stack.old s →
        AreParts expr.now args.now es →
        Gives store.new stack.new (commanded (meant command) place es s) result }
    ensures short { (s : State) (e : Tree) (es : List Tree) → IsScriptIn store.old stack.old s →
        IsExprOf e expr.now → AreParts expr.now args.now es →
        RunsOut (outset (mentions_named e) (meant command) place es s) result }
    ensures err { OnErr result (stack.new ≡ stack.old) }
    ensures grows { Grows store.old store.new }
{
    if !has_terms(command, args.len()) {
        return run_plain(stack, command, place, expr, args);
    }
    if has_named(expr) {
        return run_labelled(stack, store, command, place, expr, args);
    }
    run_terms(stack, store, command, place, expr, args)
}

// Does a command, before which the terms within its terms that have names are defined.
fn run_labelled(
    stack: &mut Stack,
    store: &mut Store,
    command: Command,
    place: u64,
    expr: &Expr,
    args: &[u64],
) -> Result<Effect, ScriptFault>
    requires terms { has_terms (meant command) (length args.now) ≡ true }
    requires expr { IsExpr expr.now }
    requires parts { (es : List Tree) × AreParts expr.now args.now es }
    requires held { (s : State) × IsScriptIn store.old stack.old s }
    ensures step { (s : State) (es : List Tree) → IsScriptIn store.old stack.old s →
        AreParts expr.now args.now es →
        Gives store.new stack.new (commanded (meant command) place es s) result }
    ensures err { OnErr result (stack.new ≡ stack.old) }
    ensures grows { Grows store.old store.new }
{
    let labels = labels_of(stack.alloc(), command, expr, args)?;
    let mark = stack.mark();
    match run_behind(stack, store, command, place, expr, args, &labels) {
        Ok(effect) => Ok(effect),
        Err(fault) => {
            stack.undefine(mark);
            Err(fault)
        }
    }
}

// Does a command behind the definitions of the terms with names that begin at these items. Where
// it is refused, some of them may be left.
fn run_behind(
    stack: &mut Stack,
    store: &mut Store,
    command: Command,
    place: u64,
    expr: &Expr,
    args: &[u64],
    labels: &[u64],
) -> Result<Effect, ScriptFault>
    requires expr { IsExpr expr.now }
    requires parts { (es : List Tree) × AreParts expr.now args.now es }
    requires labels { (ls : List Label) × AreLabels expr.now labels.now ls }
    requires terms { has_terms (meant command) (length args.now) ≡ true }
    requires held { (s : State) × IsScriptIn store.old stack.old s }
    ensures step { (s : State) (es : List Tree) (ls : List Label) →
        IsScriptIn store.old stack.old s → AreParts expr.now args.now es →
        AreLabels expr.now labels.now ls →
        Gives store.new stack.new (behind_labels (meant command) place es s ls) result }
    ensures err { OnErr result (IsLonger stack.old stack.new) }
    ensures grows { Grows store.old store.new }
{
    label_all(stack, store, place, expr, labels)?;
    run_terms(stack, store, command, place, expr, args)
}

// The items at which the terms with names begin within the terms of a command.
fn labels_of(
    alloc: Global,
    command: Command,
    expr: &Expr,
    args: &[u64],
) -> Result<Vec<u64>, ScriptFault>
    requires expr { IsExpr expr.now }
    requires parts { (es : List Tree) × AreParts expr.now args.now es }
    ensures { (es : List Tree) → AreParts expr.now args.now es →
        TellsLabels expr.now (labels_of (meant command) es) result }
{
    match command {
        Command::Assert => match args {
            [t] => labels_asserted(alloc, expr, *t),
            _ => Ok(Vec::new(alloc)),
        },
        Command::CheckSatAssuming => match args {
            [ts] => labels_listed(alloc, expr, *ts),
            _ => Ok(Vec::new(alloc)),
        },
        Command::GetValue => match args {
            [ts] => labels_listed(alloc, expr, *ts),
            _ => Ok(Vec::new(alloc)),
        },
        Command::DefineConst => match args {
            [_, _, t] => labels_in(alloc, expr, *t),
            _ => Ok(Vec::new(alloc)),
        },
        Command::DefineFun => match args {
            [_, parameters, _, t] => labels_below(alloc, expr, *parameters, *t),
            _ => Ok(Vec::new(alloc)),
        },
        _ => Ok(Vec::new(alloc)),
    }
}

// Those of an asserted term, whose own name is none of them.
fn labels_asserted(alloc: Global, expr: &Expr, t: u64) -> Result<Vec<u64>, ScriptFault>
    requires expr { IsExpr expr.now }
    requires t { Begins expr.now t }
    ensures { (e : Tree) → IsPart expr.now t e →
        TellsLabels expr.now (labels_in (asserted_of e).term nothing []) result }
{
    match asserted_at(expr, t) {
        Some((term, _)) => labels_in(alloc, expr, term),
        None => labels_in(alloc, expr, t),
    }
}

// Does a command with terms, whose arguments begin at these items.
fn run_terms(
    stack: &mut Stack,
    store: &mut Store,
    command: Command,
    place: u64,
    expr: &Expr,
    args: &[u64],
) -> Result<Effect, ScriptFault>
    requires terms { has_terms (meant command) (length args.now) ≡ true }
    requires expr { IsExpr expr.now }
    requires parts { (es : List Tree) × AreParts expr.now args.now es }
    requires held { (s : State) × IsScriptIn store.old stack.old s }
    ensures step { StepsIn (meant command) place expr.now args.now store.old store.new
        stack.old stack.new result }
    ensures short { RunsOutIn (meant command) place expr.now args.now
        store.old stack.old result }
    ensures err { OnErr result (stack.new ≡ stack.old) }
    ensures grows { Grows store.old store.new }
{
    match args {
        [t] => run_asked(stack, store, command, place, expr, *t),
        [f, sort, t] => define_const(stack, store, place, expr, *f, *sort, *t),
        [f, parameters, sort, t] => {
            define_fun(stack, store, place, expr, *f, *parameters, *sort, *t)
        }
        _ => Err(fault_at(place, ScriptKind::Form)),
    }
}

// Does a command with a term, or a list of terms, that begins at an item.
fn run_asked(
    stack: &mut Stack,
    store: &mut Store,
    command: Command,
    place: u64,
    expr: &Expr,
    t: u64,
) -> Result<Effect, ScriptFault>
    requires terms { has_terms (meant command) 1 ≡ true }
    requires expr { IsExpr expr.now }
    requires t { Begins expr.now t }
    requires held { (s : State) × IsScriptIn store.old stack.old s }
    ensures step { StepsIn (meant command) place expr.now (t ∷ []) store.old store.new
        stack.old stack.new result }
    ensures short { RunsOutIn (meant command) place expr.now (t ∷ [])
        store.old stack.old result }
    ensures err { OnErr result (stack.new ≡ stack.old) }
    ensures grows { Grows store.old store.new }
{
    match command {
        Command::Assert => assert(stack, store, place, expr, t),
        Command::CheckSatAssuming => check_sat_assuming(stack, store, place, expr, t),
        Command::GetValue => get_value(stack, store, place, expr, t),
        _ => Err(fault_at(place, ScriptKind::Form)),
    }
}

// Does a command without terms, or refuses one that has them and takes another number of arguments.
fn run_plain(
    stack: &mut Stack,
    command: Command,
    place: u64,
    expr: &Expr,
    args: &[u64],
) -> Result<Effect, ScriptFault>
    requires plain { has_terms (meant command) (length args.now) ≡ false }
    requires expr { IsExpr expr.now }
    requires parts { (es : List Tree) × AreParts expr.now args.now es }
    requires starts { length stack.old.starts ≡ length stack.old.force.starts }
    ensures step { Steps (meant command) place expr.now args.now stack.old stack.new result }
    ensures err { OnErr result (stack.new ≡ stack.old) }
{
    match command {
        Command::SetLogic
        | Command::SetOption
        | Command::SetInfo
        | Command::GetInfo
        | Command::GetOption
        | Command::Echo => step_setting(stack, command, place, expr, args),
        Command::Push | Command::Pop | Command::ResetAssertions | Command::Reset | Command::Exit =>
            step_level(stack, command, place, expr, args),
        Command::DeclareConst | Command::DeclareFun | Command::DefineSort => {
            step_declaration(stack, command, place, expr, args)
        }
        Command::DefineConst | Command::DefineFun => Err(fault_at(place, ScriptKind::Form)),
        Command::Assert | Command::CheckSat | Command::CheckSatAssuming => {
            step_check(stack, command, place, expr, args)
        }
        Command::GetValue
        | Command::GetModel
        | Command::GetUnsatCore
        | Command::GetUnsatAssumptions => step_question(stack, command, place, expr, args),
        _ => Err(fault_at(place, ScriptKind::NotSupported)),
    }
}

// Options, and what is told without a store.
fn step_setting(
    stack: &mut Stack,
    command: Command,
    place: u64,
    expr: &Expr,
    args: &[u64],
) -> Result<Effect, ScriptFault>
    requires setting { is_setting command ≡ true }
    requires expr { IsExpr expr.now }
    requires parts { (es : List Tree) × AreParts expr.now args.now es }
    ensures step { Steps (meant command) place expr.now args.now stack.old stack.new result }
    ensures err { OnErr result (stack.new ≡ stack.old) }
{
    match command {
        Command::SetLogic => match args {
            [l] => set_logic(stack, place, expr, *l),
            _ => Err(fault_at(place, ScriptKind::Form)),
        },
        Command::SetOption => match args {
            [k, v] => set_option(stack, place, expr, *k, *v),
            _ => Err(fault_at(place, ScriptKind::Form)),
        },
        Command::SetInfo => match args {
            [k] => set_info(stack, place, expr, *k),
            [k, _] => set_info(stack, place, expr, *k),
            _ => Err(fault_at(place, ScriptKind::Form)),
        },
        Command::GetInfo => match args {
            [k] => get_info(stack, place, expr, *k),
            _ => Err(fault_at(place, ScriptKind::Form)),
        },
        Command::Echo => match args {
            [e] => echo(stack, place, expr, *e),
            _ => Err(fault_at(place, ScriptKind::Form)),
        },
        Command::GetOption => match args {
            [k] => get_option(stack, place, expr, *k),
            _ => Err(fault_at(place, ScriptKind::Form)),
        },
        _ => Err(fault_at(place, ScriptKind::Form)),
    }
}

// Levels, and the end.
fn step_level(
    stack: &mut Stack,
    command: Command,
    place: u64,
    expr: &Expr,
    args: &[u64],
) -> Result<Effect, ScriptFault>
    requires level { is_level command ≡ true }
    requires starts { length stack.old.starts ≡ length stack.old.force.starts }
    ensures step { Steps (meant command) place expr.now args.now stack.old stack.new result }
    ensures err { OnErr result (stack.new ≡ stack.old) }
{
    match command {
        Command::Push => push_counted(stack, place, expr, args),
        Command::Pop => pop_counted(stack, place, expr, args),
        Command::ResetAssertions => match args {
            [] => Ok(reset_assertions(stack, place)),
            _ => Err(fault_at(place, ScriptKind::Form)),
        },
        Command::Reset => match args {
            [] => Ok(reset(stack, place)),
            _ => Err(fault_at(place, ScriptKind::Form)),
        },
        Command::Exit => match args {
            [] => Ok(exit(stack, place)),
            _ => Err(fault_at(place, ScriptKind::Form)),
        },
        _ => Err(fault_at(place, ScriptKind::Form)),
    }
}

// `(push)`, `(push n)`
fn push_counted(
    stack: &mut Stack,
    place: u64,
    expr: &Expr,
    args: &[u64],
) -> Result<Effect, ScriptFault>
    ensures step { Steps Push place expr.now args.now stack.old stack.new result }
    ensures err { OnErr result (stack.new ≡ stack.old) }
{
    let count = count_of(place, expr, args)?;
    push(stack, place, count)
}

// `(pop)`, `(pop n)`
fn pop_counted(
    stack: &mut Stack,
    place: u64,
    expr: &Expr,
    args: &[u64],
) -> Result<Effect, ScriptFault>
    requires { length stack.old.starts ≡ length stack.old.force.starts }
    ensures step { Steps Pop place expr.now args.now stack.old stack.new result }
    ensures err { OnErr result (stack.new ≡ stack.old) }
{
    let count = count_of(place, expr, args)?;
    pop(stack, place, count)
}

// Declarations, and sorts.
fn step_declaration(
    stack: &mut Stack,
    command: Command,
    place: u64,
    expr: &Expr,
    args: &[u64],
) -> Result<Effect, ScriptFault>
    requires declaration { is_declaration command ≡ true }
    requires expr { IsExpr expr.now }
    requires parts { (es : List Tree) × AreParts expr.now args.now es }
    ensures step { Steps (meant command) place expr.now args.now stack.old stack.new result }
    ensures err { OnErr result (stack.new ≡ stack.old) }
{
    match command {
        Command::DeclareConst => match args {
            [x, sort] => declare_const(stack, place, expr, *x, *sort),
            _ => Err(fault_at(place, ScriptKind::Form)),
        },
        Command::DeclareFun => match args {
            [x, sorts, sort] => declare_fun(stack, place, expr, *x, *sorts, *sort),
            _ => Err(fault_at(place, ScriptKind::Form)),
        },
        Command::DefineSort => define_shaped(stack, place, expr, args),
        _ => Err(fault_at(place, ScriptKind::Form)),
    }
}

// `(define-sort x () S)`
fn define_shaped(
    stack: &mut Stack,
    place: u64,
    expr: &Expr,
    args: &[u64],
) -> Result<Effect, ScriptFault>
    requires expr { IsExpr expr.now }
    requires parts { (es : List Tree) × AreParts expr.now args.now es }
    ensures step { Steps DefineSort place expr.now args.now stack.old stack.new result }
    ensures err { OnErr result (stack.new ≡ stack.old) }
{
    match args {
        [x, parameters, sort] => define_sort(stack, place, expr, *x, *parameters, *sort),
        _ => Err(fault_at(place, ScriptKind::Form)),
    }
}

// The check without assumptions. Others, and assertions, have terms.
fn step_check(
    stack: &mut Stack,
    command: Command,
    place: u64,
    expr: &Expr,
    args: &[u64],
) -> Result<Effect, ScriptFault>
    requires check { is_check command ≡ true }
    requires plain { has_terms (meant command) (length args.now) ≡ false }
    ensures step { Steps (meant command) place expr.now args.now stack.old stack.new result }
    ensures err { OnErr result (stack.new ≡ stack.old) }
{
    match command {
        Command::CheckSat => match args {
            [] => Ok(check_sat(stack, place)),
            _ => Err(fault_at(place, ScriptKind::Form)),
        },
        _ => Err(fault_at(place, ScriptKind::Form)),
    }
}

// Models, and cores. The values of terms have terms.
fn step_question(
    stack: &mut Stack,
    command: Command,
    place: u64,
    expr: &Expr,
    args: &[u64],
) -> Result<Effect, ScriptFault>
    requires question { is_question command ≡ true }
    requires plain { has_terms (meant command) (length args.now) ≡ false }
    ensures step { Steps (meant command) place expr.now args.now stack.old stack.new result }
    ensures err { OnErr result (stack.new ≡ stack.old) }
{
    match command {
        Command::GetModel => match args {
            [] => get_model(stack, place),
            _ => Err(fault_at(place, ScriptKind::Form)),
        },
        Command::GetUnsatCore => match args {
            [] => get_unsat_core(stack, place),
            _ => Err(fault_at(place, ScriptKind::Form)),
        },
        Command::GetUnsatAssumptions => match args {
            [] => get_unsat_assumptions(stack, place),
            _ => Err(fault_at(place, ScriptKind::Form)),
        },
        _ => Err(fault_at(place, ScriptKind::Form)),
    }
}
