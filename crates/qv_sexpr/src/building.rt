//! The items of a command, gathered token by token.

ghost use Rattle.std.specs.Prelude.{◌≡◌, ℕ, ◌<◌, List, [], ◌∷◌, ◌++◌, IfOk, OnOk, IfErr, length};
ghost use Rattle.std.specs.Prelude.{true, slice_set, slice_index_or};
ghost use Rattle.qv_text.specs.declared.kinds.TokenKind.TheVariants.{LeftParen, RightParen};
ghost use Rattle.qv_sexpr.specs.declared.items.Item.{Item};
ghost use Rattle.qv_sexpr.specs.Items.{IsToken};
ghost use Rattle.qv_sexpr.specs.Building.{Levels, Builds, Takes, StopsAtEnd, is_atom};

use crate::answers::{ParseFault, ParseKind, Stop};
use crate::items::{Expr, Item, ItemKind};
use qv_text::{Token, TokenKind};
use std::alloc::{AllocError, Global};

/// How many parentheses may be open at once.
pub const NESTING_LIMIT: usize = 1_000_000;

/// What was read of a command.
#[derive(Drop)]
pub(crate) struct Builder {
    items: Vec<Item>,
    text: Vec<u8>,
    /// The numbers of the open parentheses that aren't closed yet.
    unclosed: Vec<u64>,
}

impl Builder {
    pub(crate) fn new(alloc: Global) -> Builder
        ensures { Builds result [] }
    {
        Builder {
            items: Vec::new(alloc),
            text: Vec::new(alloc),
            unclosed: Vec::new(alloc),
        }
    }

    /// Takes the next token, and answers whether it completes the command.
    pub(crate) fn take(&mut self, token: Token, text: &[u8]) -> Result<bool, Stop>
        requires open { (levels : Levels) × Builds self.old levels }
        requires token { IsToken token.kind text.now }
        ensures { Takes self.old
            (record { kind = token.kind; place = token.place; text = text.now }) result self.new }
    {
        match token.kind {
            TokenKind::LeftParen => self.open_list(token.place),
            TokenKind::RightParen => self.close_list(token.place),
            kind => self.add_atom(kind, token.place, text),
        }
    }

    fn open_list(&mut self, place: u64) -> Result<bool, Stop>
        ensures { (text : List ℕ) →
            Takes self.old (record { kind = LeftParen; place = place; text = text }) result
            self.new }
    {
        let is_full = self.unclosed.len() == NESTING_LIMIT;
        if is_full {
            return Err(Stop::NestingLimit { place });
        }
        let number = self.items.len() as u64;
        self.unclosed.push(number)?;
        // Which item closes it isn't known yet.
        self.add_parenthesis(ItemKind::Open { close: number }, place)?;
        Ok(false)
    }

    fn close_list(&mut self, place: u64) -> Result<bool, Stop>
        requires { (levels : Levels) × Builds self.old levels }
        ensures { (text : List ℕ) →
            Takes self.old (record { kind = RightParen; place = place; text = text }) result
            self.new }
    {
        let Some(number) = self.unclosed.pop() else {
            return Err(Stop::Parse(ParseFault {
                place,
                kind: ParseKind::Close,
            }));
        };
        let close = self.items.len() as u64;
        set_kind(&mut self.items, number as usize, ItemKind::Open { close });
        self.add_parenthesis(ItemKind::Close, place)?;
        Ok(self.unclosed.is_empty())
    }

    fn add_atom(&mut self, kind: TokenKind, place: u64, text: &[u8]) -> Result<bool, Stop>
        requires atom { is_atom kind ≡ true }
        requires token { IsToken kind text.now }
        ensures { Takes self.old (record { kind = kind; place = place; text = text.now }) result
            self.new }
    {
        let is_outside = self.unclosed.is_empty();
        if is_outside {
            return Err(Stop::Parse(ParseFault {
                place,
                kind: ParseKind::Atom,
            }));
        }
        let start = self.text.len() as u64;
        self.text.extend_from_slice(text)?;
        let end = self.text.len() as u64;
        self.items.push(Item {
            kind: ItemKind::Atom(kind),
            place,
            start,
            end,
        })?;
        Ok(false)
    }

    /// Adds an item without text.
    fn add_parenthesis(&mut self, kind: ItemKind, place: u64) -> Result<(), AllocError>
        ensures ok { OnOk result
            (self.new.items.items
            ≡ self.old.items.items ++ (record {
              kind = kind;
              place = place;
              start = length self.old.text.items;
              end = length self.old.text.items;
            }) ∷ []) }
        ensures text { self.new.text.items ≡ self.old.text.items }
        ensures unclosed { self.new.unclosed.items ≡ self.old.unclosed.items }
    {
        let at = self.text.len() as u64;
        self.items.push(Item {
            kind,
            place,
            start: at,
            end: at,
        })?;
        Ok(())
    }

    /// Why reading stops where the text ends here.
    pub(crate) fn at_end(&self) -> Stop
        ensures { (levels : Levels) → Builds self.now levels → StopsAtEnd levels result }
    {
        match self.items.first() {
            None => Stop::End,
            Some(first) => Stop::Parse(ParseFault {
                place: first.place,
                kind: ParseKind::Unfinished,
            }),
        }
    }

    /// The command, where it is complete.
    pub(crate) fn into_expr(self) -> Expr
        ensures items { result.items.items ≡ self.items.items }
        ensures text { result.text.items ≡ self.text.items }
    {
        Expr {
            items: self.items,
            text: self.text,
        }
    }
}

fn set_kind(items: &mut [Item], number: usize, kind: ItemKind)
    requires { number < length items.old }
    ensures { (item : Item) →
        items.new ≡ slice_set items.old number
        (record (slice_index_or items.old number item) { kind = kind }) }
{
    items[number].kind = kind;
}
