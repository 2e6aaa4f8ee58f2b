//! The texts of terms, as a script writes them.

ghost use Rattle.std.specs.Prelude.{◌≡◌, ℕ, ◌<◌, ◌≤◌, ◌++◌, OnOk, IfOk, length};
ghost use Rattle.qv_sexpr.specs.Script.{Tree};
ghost use Rattle.qv_sexpr.specs.Items.{IsExpr, Begins};
ghost use Rattle.qv_sexpr.specs.Copying.{EndsBefore};
ghost use Rattle.qv_script_defs.specs.Parts.{spaced};
ghost use Rattle.qv_script_parts.specs.Spelling.{gap, is_edge, spelled};
ghost use Rattle.qv_script_parts.specs.Parted.{IsPart};

use qv_elab_items::{behind, text_of};
use qv_sexpr::{Expr, Item, ItemKind};
use qv_store::NoMemory;
use std::alloc::Global;

// Adds a space, unless the text is at an edge.
fn add_gap(bytes: &mut Vec<u8>, edge: bool) -> Result<(), NoMemory>
    ensures { OnOk result (bytes.new.items ≡ bytes.old.items ++ gap edge) }
{
    if edge {
        return Ok(());
    }
    bytes.push(b' ')?;
    Ok(())
}

// Adds an item with the space before it.
fn add_item(bytes: &mut Vec<u8>, text: &[u8], item: &Item, edge: bool) -> Result<(), NoMemory>
    ensures { OnOk result
        (bytes.new.items ≡ bytes.old.items ++ spelled text.now edge item.now) }
{
    match item.kind {
        ItemKind::Atom(_) => {
            add_gap(bytes, edge)?;
            match text_of(text, item) {
                Some(own) => bytes.extend_from_slice(own),
                None => Ok(()),
            }
        }
        ItemKind::Open { .. } => {
            add_gap(bytes, edge)?;
            bytes.push(b'(')?;
            Ok(())
        }
        ItemKind::Close => {
            bytes.push(b')')?;
            Ok(())
        }
    }
}

// Whether what comes behind an item stands at an edge.
fn is_edge(kind: ItemKind) -> bool
    ensures { result ≡ is_edge kind }
{
    match kind {
        ItemKind::Open { .. } => true,
        _ => false,
    }
}

// The number behind the expression that begins at an item.
fn end_of(items: &[Item], at: usize) -> usize
    requires { (to : ℕ) × (to ≤ length items.now) × (at < to) × EndsBefore items.now at to }
    ensures ends { EndsBefore items.now at result }
    ensures start { at < result }
    ensures within { result ≤ length items.now }
{
    behind(items, at)
}

/// The text of the expression at an item: its tokens as they are written, with one space between
/// neighbours and none inside the parentheses.
pub fn spaced(alloc: Global, expr: &Expr, at: u64) -> Result<Vec<u8>, NoMemory>
    requires expr { IsExpr expr.now }
    requires at { Begins expr.now at }
    ensures { IfOk result (λ bytes. (e : Tree) → IsPart expr.now at e → bytes.items ≡ spaced e) }
{
    let from = at as usize;
    let to = end_of(&expr.items, from);
    let mut bytes = Vec::new(alloc);
    let mut edge = true;
    'items: for item in &expr.items[from..to] {
        add_item(&mut bytes, &expr.text, item, edge)?;
        edge = is_edge(item.kind);
    }
    Ok(bytes)
}
