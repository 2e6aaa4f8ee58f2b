//! The parts of commands: the expressions in a list, and what single ones are.

ghost use Rattle.std.specs.Prelude.{◌≡◌, List, IfOk, is_some};
ghost use Rattle.std.specs.Option.{option_map, option_and_then};
ghost use Rattle.qv_sexpr.specs.Script.{Tree};
ghost use Rattle.qv_sexpr.specs.Items.{IsExpr, Begins};
ghost use Rattle.qv_elab_defs.specs.Tokens.{symbol_of, keyword_of, numeral_of};
ghost use Rattle.qv_script_defs.specs.Parts.{string_of, truth_named, truth_of, count_of};
ghost use Rattle.qv_script_parts.specs.Parted.{inside_of, told_by, told_number, is_empty_list};
ghost use Rattle.qv_script_parts.specs.Parted.{string_in, is_numeral};
ghost use Rattle.qv_script_parts.specs.Parted.{IsPart, AreParts};

use qv_elab_items::{behind, keyword_in, name_in, number_in, text_of};
use qv_script_defs::{ScriptFault, ScriptKind, fault_at};
use qv_sexpr::{Expr, Item, ItemKind};
use qv_store::NoMemory;
use qv_text::TokenKind;
use std::alloc::Global;

/// The items at which the expressions of a list begin.
pub fn parts_of(alloc: Global, expr: &Expr, at: u64) -> Result<Vec<u64>, NoMemory>
    requires expr { IsExpr expr.now }
    requires at { Begins expr.now at }
    ensures { IfOk result (λ parts. (e : Tree) → IsPart expr.now at e →
        AreParts expr.now parts.items (inside_of e)) }
{
    let mut parts = Vec::new(alloc);
    let ItemKind::Open { close } = expr.items[at as usize].kind else {
        return Ok(parts);
    };
    let mut next = at as usize + 1;
    'parts: while next < close as usize {
        parts.push(next as u64)?;
        next = behind(&expr.items, next);
    }
    Ok(parts)
}

/// The name that a part is, if it is a symbol.
pub fn symbol_at(expr: &Expr, at: u64) -> Option<&[u8]>
    ensures { (e : Tree) → IsPart expr.now at e →
        option_map (λ name. name.now) result ≡ symbol_of e }
{
    let item = expr.items.get(at as usize)?;
    name_in(&expr.text, item)
}

/// The text of the keyword that a part is.
pub fn keyword_at(expr: &Expr, at: u64) -> Option<&[u8]>
    ensures { (e : Tree) → IsPart expr.now at e →
        option_map (λ text. text.now) result ≡ keyword_of e }
{
    let item = expr.items.get(at as usize)?;
    keyword_in(&expr.text, item)
}

// The string that an item is, with its quotes.
fn string_in<'a>(text: &'a [u8], item: &Item) -> Option<&'a [u8]>
    ensures { option_map (λ bytes. bytes.now) result ≡ string_in text.now item.now }
{
    let ItemKind::Atom(TokenKind::Text) = item.kind else {
        return None;
    };
    text_of(text, item)
}

/// The string that a part is, with its quotes.
pub fn string_at(expr: &Expr, at: u64) -> Option<&[u8]>
    ensures { (e : Tree) → IsPart expr.now at e →
        option_map (λ text. text.now) result ≡ string_of e }
{
    let item = expr.items.get(at as usize)?;
    string_in(&expr.text, item)
}

// Whether a name is that of a truth value, and of which.
fn truth_named(name: &[u8]) -> Option<bool>
    ensures { result ≡ truth_named name.now }
{
    if name == b"true".as_slice() {
        Some(true)
    } else if name == b"false".as_slice() {
        Some(false)
    } else {
        None
    }
}

/// The truth value that a part is.
pub fn truth_at(expr: &Expr, at: u64) -> Option<bool>
    ensures { (e : Tree) → IsPart expr.now at e → result ≡ truth_of e }
{
    truth_named(symbol_at(expr, at)?)
}

// Whether an item is a numeral.
fn is_numeral(kind: ItemKind) -> bool
    ensures { result ≡ is_numeral kind }
{
    match kind {
        ItemKind::Atom(TokenKind::Numeral) => true,
        _ => false,
    }
}

/// Whether a part is a numeral.
pub fn is_numeral_at(expr: &Expr, at: u64) -> bool
    ensures { (e : Tree) → IsPart expr.now at e → result ≡ is_some (numeral_of e) }
{
    match expr.items.get(at as usize) {
        Some(item) => is_numeral(item.kind),
        None => false,
    }
}

// The number that a part is, of a command at this place.
fn number_at(place: u64, expr: &Expr, at: u64) -> Result<u128, ScriptFault>
    ensures { (e : Tree) → IsPart expr.now at e → result ≡ told_number place e }
{
    let Some(item) = expr.items.get(at as usize) else {
        return Err(fault_at(place, ScriptKind::Form));
    };
    if !is_numeral(item.kind) {
        return Err(fault_at(place, ScriptKind::Form));
    }
    match number_in(&expr.text, item) {
        Some(number) => Ok(number),
        None => Err(fault_at(item.place, ScriptKind::Literal)),
    }
}

/// How many levels `push` and `pop` are about.
pub fn count_of(place: u64, expr: &Expr, args: &[u64]) -> Result<u128, ScriptFault>
    ensures { (es : List Tree) → AreParts expr.now args.now es →
        result ≡ told_by (count_of place es) }
{
    match args {
        [] => Ok(1),
        [at] => number_at(place, expr, *at),
        _ => Err(fault_at(place, ScriptKind::Form)),
    }
}

/// Whether nothing stands in the list that a part is, if it is a list.
pub fn is_empty_list(expr: &Expr, at: u64) -> Option<bool>
    ensures { (e : Tree) → IsPart expr.now at e → result ≡ is_empty_list e }
{
    match expr.items.get(at as usize)?.kind {
        ItemKind::Open { close } => if close == at + 1 {
            Some(true)
        } else {
            Some(false)
        },
        _ => None,
    }
}
