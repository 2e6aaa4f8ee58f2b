//! `set-option` and `get-option`. Each is called with the items at which its arguments begin.

ghost use Rattle.std.specs.Prelude.{◌≡◌, ◌∷◌, [], List, OnOk, OnErr, Some, true, false, codes};
ghost use Rattle.std.specs.Str.{bytes_eq};
ghost use Rattle.std.specs.List.{list_any};
ghost use Rattle.qv_sexpr.specs.Script.{Tree as Expression};
ghost use Rattle.qv_sexpr.specs.Items.{IsExpr, Begins};
ghost use Rattle.qv_words.specs.Tree.{Tree};
ghost use Rattle.qv_script_defs.specs.State.{State};
ghost use Rattle.qv_script_defs.specs.Settings.{standard_output, standard_error};
ghost use Rattle.qv_script_defs.specs.Moves.{with_value, set_to};
ghost use Rattle.qv_script_defs.specs.Commands.{SetOption, GetOption};
ghost use Rattle.qv_script_parts.specs.Parted.{IsPart};
ghost use Rattle.qv_script_stack.specs.Held.{IsScriptIn};
ghost use Rattle.qv_script_stack.specs.Steps.{Settles, Steps};
ghost use Rattle.qv_script_plain.specs.Told.{kept, channelled};

use qv_script_defs::{Effect, ScriptFault, ScriptKind, Setting, fault_at};
use qv_script_parts::{
    is_numeral_at, keyword_at, setting_named, spaced, string_at, truth_at, unsupported,
};
use qv_script_stack::{Chosen, Stack};
use qv_sexpr::Expr;
use qv_store::NoMemory;

// An option is set to the value that stands at an item.
fn choose(stack: &mut Stack, key: &[u8], expr: &Expr, v: u64) -> Result<(), NoMemory>
    requires expr { IsExpr expr.now }
    requires v { Begins expr.now v }
    ensures ok { OnOk result ((trees : List Tree) (s : State) (e : Expression) →
        IsScriptIn trees stack.old s → IsPart expr.now v e →
        IsScriptIn trees stack.new (with_value key.now e s)) }
    ensures err { OnErr result (stack.new ≡ stack.old) }
{
    let key = Vec::from_slice(stack.alloc(), key)?;
    let value = spaced(stack.alloc(), expr, v)?;
    stack.add_option(Chosen { key, value })?;
    Ok(())
}

// An option is set, without effect.
fn keep(stack: &mut Stack, key: &[u8], expr: &Expr, v: u64) -> Result<Effect, ScriptFault>
    requires expr { IsExpr expr.now }
    requires v { Begins expr.now v }
    ensures step { (trees : List Tree) (s : State) (e : Expression) →
        IsScriptIn trees stack.old s → IsPart expr.now v e →
        Settles trees stack.new (kept key.now e s) result }
    ensures err { OnErr result (stack.new ≡ stack.old) }
{
    choose(stack, key, expr, v)?;
    Ok(Effect::Quiet)
}

// `:print-success`
fn set_success(
    stack: &mut Stack,
    place: u64,
    key: &[u8],
    expr: &Expr,
    v: u64,
) -> Result<Effect, ScriptFault>
    requires expr { IsExpr expr.now }
    requires v { Begins expr.now v }
    ensures step { (trees : List Tree) (s : State) (e : Expression) →
        IsScriptIn trees stack.old s → IsPart expr.now v e →
        Settles trees stack.new (set_to place s key.now e (Some Setting.Success)) result }
    ensures err { OnErr result (stack.new ≡ stack.old) }
{
    let Some(value) = truth_at(expr, v) else {
        return Err(fault_at(place, ScriptKind::Form));
    };
    choose(stack, key, expr, v)?;
    stack.set_success(value);
    Ok(Effect::Quiet)
}

// `:global-declarations`
fn set_global(
    stack: &mut Stack,
    place: u64,
    key: &[u8],
    expr: &Expr,
    v: u64,
) -> Result<Effect, ScriptFault>
    requires expr { IsExpr expr.now }
    requires v { Begins expr.now v }
    ensures step { (trees : List Tree) (s : State) (e : Expression) →
        IsScriptIn trees stack.old s → IsPart expr.now v e →
        Settles trees stack.new (set_to place s key.now e (Some Setting.Global)) result }
    ensures err { OnErr result (stack.new ≡ stack.old) }
{
    let Some(value) = truth_at(expr, v) else {
        return Err(fault_at(place, ScriptKind::Form));
    };
    if !stack.is_untouched() {
        return Err(fault_at(place, ScriptKind::Form));
    }
    choose(stack, key, expr, v)?;
    stack.set_global(value);
    Ok(Effect::Quiet)
}

// An option that is true or false, without effect.
fn set_truth(
    stack: &mut Stack,
    place: u64,
    key: &[u8],
    expr: &Expr,
    v: u64,
) -> Result<Effect, ScriptFault>
    requires expr { IsExpr expr.now }
    requires v { Begins expr.now v }
    ensures step { (trees : List Tree) (s : State) (e : Expression) →
        IsScriptIn trees stack.old s → IsPart expr.now v e →
        Settles trees stack.new (set_to place s key.now e (Some Setting.Truth)) result }
    ensures err { OnErr result (stack.new ≡ stack.old) }
{
    match truth_at(expr, v) {
        Some(_) => keep(stack, key, expr, v),
        None => Err(fault_at(place, ScriptKind::Form)),
    }
}

// An option that is a numeral, without effect.
fn set_numeral(
    stack: &mut Stack,
    place: u64,
    key: &[u8],
    expr: &Expr,
    v: u64,
) -> Result<Effect, ScriptFault>
    requires expr { IsExpr expr.now }
    requires v { Begins expr.now v }
    ensures step { (trees : List Tree) (s : State) (e : Expression) →
        IsScriptIn trees stack.old s → IsPart expr.now v e →
        Settles trees stack.new (set_to place s key.now e (Some Setting.Numeral)) result }
    ensures err { OnErr result (stack.new ≡ stack.old) }
{
    if !is_numeral_at(expr, v) {
        return Err(fault_at(place, ScriptKind::Form));
    }
    keep(stack, key, expr, v)
}

// Where answers may go.
fn is_output(text: &[u8]) -> bool
    ensures { result ≡ list_any (bytes_eq text.now) (standard_output ∷ []) }
{
    text == b"\"stdout\"".as_slice()
}

// Where diagnostics may go.
fn is_channel(text: &[u8]) -> bool
    ensures { result ≡ list_any (bytes_eq text.now) (standard_output ∷ standard_error ∷ []) }
{
    text == b"\"stdout\"".as_slice() || text == b"\"stderr\"".as_slice()
}

// An option is set, where its value is supported.
fn keep_if(
    stack: &mut Stack,
    supported: bool,
    key: &[u8],
    expr: &Expr,
    v: u64,
) -> Result<Effect, ScriptFault>
    requires expr { IsExpr expr.now }
    requires v { Begins expr.now v }
    ensures step { (trees : List Tree) (s : State) (e : Expression) →
        IsScriptIn trees stack.old s → IsPart expr.now v e →
        Settles trees stack.new (channelled supported key.now e s) result }
    ensures err { OnErr result (stack.new ≡ stack.old) }
{
    if !supported {
        return Ok(Effect::Text(unsupported(stack.alloc())?));
    }
    keep(stack, key, expr, v)
}

// `:regular-output-channel`
fn set_output(
    stack: &mut Stack,
    place: u64,
    key: &[u8],
    expr: &Expr,
    v: u64,
) -> Result<Effect, ScriptFault>
    requires expr { IsExpr expr.now }
    requires v { Begins expr.now v }
    ensures step { (trees : List Tree) (s : State) (e : Expression) →
        IsScriptIn trees stack.old s → IsPart expr.now v e →
        Settles trees stack.new (set_to place s key.now e (Some Setting.Answers)) result }
    ensures err { OnErr result (stack.new ≡ stack.old) }
{
    match string_at(expr, v) {
        Some(text) => keep_if(stack, is_output(text), key, expr, v),
        None => Err(fault_at(place, ScriptKind::Form)),
    }
}

// `:diagnostic-output-channel`
fn set_diagnostics(
    stack: &mut Stack,
    place: u64,
    key: &[u8],
    expr: &Expr,
    v: u64,
) -> Result<Effect, ScriptFault>
    requires expr { IsExpr expr.now }
    requires v { Begins expr.now v }
    ensures step { (trees : List Tree) (s : State) (e : Expression) →
        IsScriptIn trees stack.old s → IsPart expr.now v e →
        Settles trees stack.new (set_to place s key.now e (Some Setting.Diagnostics)) result }
    ensures err { OnErr result (stack.new ≡ stack.old) }
{
    match string_at(expr, v) {
        Some(text) => keep_if(stack, is_channel(text), key, expr, v),
        None => Err(fault_at(place, ScriptKind::Form)),
    }
}

// An option that takes this.
fn set_to(
    stack: &mut Stack,
    place: u64,
    setting: Setting,
    key: &[u8],
    expr: &Expr,
    v: u64,
) -> Result<Effect, ScriptFault>
    requires expr { IsExpr expr.now }
    requires v { Begins expr.now v }
    ensures step { (trees : List Tree) (s : State) (e : Expression) →
        IsScriptIn trees stack.old s → IsPart expr.now v e →
        Settles trees stack.new (set_to place s key.now e (Some setting)) result }
    ensures err { OnErr result (stack.new ≡ stack.old) }
{
    match setting {
        Setting::Success => set_success(stack, place, key, expr, v),
        Setting::Global => set_global(stack, place, key, expr, v),
        Setting::Truth => set_truth(stack, place, key, expr, v),
        Setting::Numeral => set_numeral(stack, place, key, expr, v),
        Setting::Answers => set_output(stack, place, key, expr, v),
        Setting::Diagnostics => set_diagnostics(stack, place, key, expr, v),
        Setting::Foreign => keep(stack, key, expr, v),
    }
}

/// `(set-option :k v)`
pub fn set_option(
    stack: &mut Stack,
    place: u64,
    expr: &Expr,
    k: u64,
    v: u64,
) -> Result<Effect, ScriptFault>
    requires expr { IsExpr expr.now }
    requires v { Begins expr.now v }
    ensures step { Steps SetOption place expr.now (k ∷ v ∷ []) stack.old stack.new result }
    ensures err { OnErr result (stack.new ≡ stack.old) }
{
    let Some(key) = keyword_at(expr, k) else {
        return Err(fault_at(place, ScriptKind::Form));
    };
    match setting_named(key) {
        Some(setting) => set_to(stack, place, setting, key, expr, v),
        None => Ok(Effect::Text(unsupported(stack.alloc())?)),
    }
}

/// `(get-option :k)`
pub fn get_option(stack: &mut Stack, place: u64, expr: &Expr, k: u64) -> Result<Effect, ScriptFault>
    ensures step { Steps GetOption place expr.now (k ∷ []) stack.old stack.new result }
    ensures err { OnErr result (stack.new ≡ stack.old) }
{
    let Some(key) = keyword_at(expr, k) else {
        return Err(fault_at(place, ScriptKind::Form));
    };
    Ok(Effect::Text(stack.option_text(key)?))
}
