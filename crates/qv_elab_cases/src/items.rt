//! Commands by their items.

ghost use Rattle.std.specs.Prelude.{◌≡◌, ◌≢◌, false, IsTrue, IfSome};
ghost use Rattle.qv_sexpr.specs.Items.{IsExpr, Begins};

use qv_cases_rows::Answer;
use qv_io::MemSource;
use qv_sexpr::{Expr, Item, ItemKind, Next, Reader};
use qv_text::TokenKind;
use std::alloc::Global;

/// The next command, if there is one. The text is no case where something else ends it than its
/// end.
pub fn command_of(source: &mut MemSource, reader: &mut Reader, out: &mut Answer) -> Option<Expr>
    ensures { IfSome result (λ command. IsExpr command) }
{
    match reader.next_command(source) {
        Next::Command(command) => Some(command),
        Next::End => None,
        _ => {
            out.refuse();
            None
        }
    }
}

/// The items at which the expressions of a command begin.
pub fn parts_of(alloc: Global, expr: &Expr) -> Option<Vec<u64>> {
    let mut parts = Vec::new(alloc);
    let mut next = 1;
    for at in 1..expr.items.len() {
        if at == next && begins(expr, at as u64) {
            parts.push(at as u64).ok()?;
            next = behind(expr.items[at].kind, at);
        }
    }
    Some(parts)
}

// The item behind the expression that begins at an item of this kind.
fn behind(kind: ItemKind, at: usize) -> usize {
    match kind {
        ItemKind::Open { close } => (close as usize).saturating_add(1),
        _ => at.saturating_add(1),
    }
}

/// Whether an expression begins at this item.
pub fn begins(expr: &Expr, at: u64) -> bool
    ensures { IsTrue result → Begins expr.now at }
{
    match expr.items.get(at as usize) {
        Some(item) => !is_close(item.kind),
        None => false,
    }
}

fn is_close(kind: ItemKind) -> bool
    ensures { result ≡ false → kind ≢ ItemKind.Close }
{
    match kind {
        ItemKind::Close => true,
        ItemKind::Open { .. } | ItemKind::Atom(_) => false,
    }
}

/// The name that stands at an item, without bars.
pub fn name_at(expr: &Expr, at: u64) -> Option<&[u8]> {
    let item = expr.items.get(at as usize)?;
    if !is_symbol(item) {
        return None;
    }
    let bytes = expr.text.get(item.start as usize..item.end as usize)?;
    match bytes {
        [b'|', name @ .., b'|'] => Some(name),
        _ => Some(bytes),
    }
}

fn is_symbol(item: &Item) -> bool {
    match item.kind {
        ItemKind::Atom(kind) => kind == TokenKind::Symbol,
        _ => false,
    }
}
