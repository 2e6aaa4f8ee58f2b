//! Expressions as flat lists of items.

ghost use Rattle.std.specs.Prelude.{◌≡◌, ℕ, ◌+◌, ◌≤◌, ◌<◌, ◌∷◌, ◌++◌, [], IfOk, OnOk, length};
ghost use Rattle.qv_sexpr.specs.Script.{Tree};
ghost use Rattle.qv_sexpr.specs.Items.{Stands, IsExpr, IsExprOf, Begins};
ghost use Rattle.qv_sexpr.specs.Copying.{CanCopy, moved, own_text, EndsBefore};

use crate::NoMemory;
use qv_text::TokenKind;
use std::alloc::Global;

/// What an item is.
#[derive(Clone, Copy, Debug, PartialEq, Eq)]
pub enum ItemKind {
    Atom(TokenKind),
    /// An open parenthesis. `close` is the number of the item that closes it.
    Open { close: u64 },
    Close,
}

/// An atom or a parenthesis. Its first byte stands at `place` in the text that was read, and an
/// atom's bytes are those from `start` to `end` of its expression's `text`.
#[derive(Clone, Copy, Debug, PartialEq, Eq)]
pub struct Item {
    pub kind: ItemKind,
    pub place: u64,
    pub start: u64,
    pub end: u64,
}

/// An expression: its items in the order of the text, and the bytes of its atoms.
#[derive(Debug, PartialEq, Eq, Drop)]
pub struct Expr {
    pub items: Vec<Item>,
    pub text: Vec<u8>,
}

impl Expr {
    /// The expression that begins at the item `at`, with all items up to its close, as one of its
    /// own: with the same kinds, places and texts.
    pub fn copy(&self, alloc: Global, at: u64) -> Result<Expr, NoMemory>
        requires expr { IsExpr self.now }
        requires at { Begins self.now at }
        ensures { IfOk result (λ copy. (tree : Tree) (to : ℕ) →
            Stands self.now.items.items self.now.text.items at tree to → IsExprOf tree copy) }
    {
        let from = at as usize;
        let to = end_at(&self.items, from);
        let mut copy = Expr {
            items: Vec::new(alloc),
            text: Vec::new(alloc),
        };
        for item in &self.items[from..to] {
            copy.add_moved(item, &self.text, at)?;
        }
        Ok(copy)
    }

    /// Adds an item of an expression with this text, where the items are numbered from `first` on.
    fn add_moved(&mut self, item: &Item, text: &[u8], first: u64) -> Result<(), NoMemory>
        requires { CanCopy item.now text.now first }
        ensures text { OnOk result
            (self.new.text.items
            ≡ self.old.text.items ++ own_text item.now.kind item.now text.now) }
        ensures items { OnOk result
            (self.new.items.items
            ≡ self.old.items.items ++ (record {
              kind = moved first item.now.kind;
              place = item.now.place;
              start = length self.old.text.items;
              end = length self.new.text.items;
            }) ∷ []) }
    {
        let start = self.text.len() as u64;
        let kind = match item.kind {
            ItemKind::Atom(kind) => {
                let own = &text[item.start as usize..item.end as usize];
                self.text.extend_from_slice(own)?;
                ItemKind::Atom(kind)
            }
            ItemKind::Open { close } => ItemKind::Open {
                close: close - first,
            },
            ItemKind::Close => ItemKind::Close,
        };
        let end = self.text.len() as u64;
        self.items.push(Item {
            kind,
            place: item.place,
            start,
            end,
        })?;
        Ok(())
    }
}

/// The number behind the expression that begins at the item `from`.
fn end_at(items: &[Item], from: usize) -> usize
    requires { (to : ℕ) × (from < to) × (to ≤ length items.now) × EndsBefore items.now from to }
    ensures end { EndsBefore items.now from result }
    ensures start { from < result }
    ensures within { result ≤ length items.now }
{
    match items[from].kind {
        ItemKind::Open { close } => close as usize + 1,
        _ => from + 1,
    }
}
