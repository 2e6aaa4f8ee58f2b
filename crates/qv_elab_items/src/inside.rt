//! What stands in lists, one expression after another.

ghost use Rattle.std.specs.Prelude.{◌≡◌, ◌<◌, ◌≤◌, ℕ, Option, Some, None, length, is_some};
ghost use Rattle.std.specs.Prelude.{if◌then◌else◌};
ghost use Rattle.qv_sexpr.specs.Script.{Tree, Trees};
ghost use Rattle.qv_sexpr.specs.declared.items.ItemKind.TheVariants.{Close};
ghost use Rattle.qv_sexpr.specs.Items.{IsParenAt, Stands, StandAll};
ghost use Rattle.qv_sexpr.specs.Copying.{EndsBefore};
ghost use Rattle.qv_elab_items.specs.Flat.{keyword_in};
ghost use Rattle.qv_elab_defs.specs.Shapes.{some_pairs, pairs_of, are_attributes, naming};
ghost use Rattle.qv_elab_items.specs.Inside.{told, is_named, told_in_front, named_also, is_pair_of};
ghost use Rattle.qv_elab_items.specs.Inside.{is_pair, IsBinding};

use crate::tokens::{keyword_in, name_in};
use qv_sexpr::{Item, ItemKind};

/// The number behind the expression that begins at an item.
pub fn behind(items: &[Item], at: usize) -> usize
    requires { (to : ℕ) × (to ≤ length items.now) × (at < to) × EndsBefore items.now at to }
    ensures { EndsBefore items.now at result }
{
    match items[at].kind {
        ItemKind::Open { close } => close as usize + 1,
        _ => at + 1,
    }
}

/// Whether a symbol and an expression stand up to the end of a list.
fn is_pair_within(text: &[u8], items: &[Item], at: usize, close: usize) -> bool
    requires stand { (inside : Trees) × StandAll items.now text.now at inside close }
    requires within { (at ≤ close) × (close < length items.now) }
    requires closed { (place : ℕ) × IsParenAt items.now close Close place }
    ensures { (inside : Trees) → StandAll items.now text.now at inside close →
        result ≡ is_pair_of inside }
{
    let Some(_) = name_in(text, &items[at]) else {
        return false;
    };
    if close <= at + 1 {
        return false;
    }
    behind(items, at + 1) == close
}

/// The number behind a pair of a symbol and an expression, if one begins at this item.
fn behind_pair(text: &[u8], items: &[Item], at: usize) -> Option<usize>
    requires stands { (e : Tree) × (to : ℕ) × Stands items.now text.now at e to }
    requires within { at < length items.now }
    ensures { (e : Tree) (to : ℕ) → Stands items.now text.now at e to →
        result ≡ (if is_pair e then Some to else None) }
{
    let ItemKind::Open { close } = items[at].kind else {
        return None;
    };
    if is_pair_within(text, items, at + 1, close as usize) {
        Some(close as usize + 1)
    } else {
        None
    }
}

/// Whether the expressions up to an item are pairs, and at least one.
pub fn are_pairs(text: &[u8], items: &[Item], from: usize, to: usize) -> bool
    requires { (pairs : Trees) × StandAll items.now text.now from pairs to }
    ensures { (pairs : Trees) → StandAll items.now text.now from pairs to →
        result ≡ is_some (some_pairs (pairs_of pairs)) }
{
    let mut at = from;
    'pairs: while at < to {
        match behind_pair(text, items, at) {
            Some(next) => at = next,
            None => return false,
        }
    }
    from < to
}

/// The item that closes the list of pairs which begins at an item, where one expression stands
/// behind it up to another item, as `let` and the quantifiers have them.
pub fn binding(text: &[u8], items: &[Item], at: usize, close: usize) -> Option<usize>
    requires stand { (rest : Trees) × StandAll items.now text.now at rest close }
    requires within { (at ≤ close) × (close < length items.now) }
    requires closed { (place : ℕ) × IsParenAt items.now close Close place }
    ensures { (rest : Trees) → StandAll items.now text.now at rest close →
        IsBinding items.now text.now at rest close result }
{
    let ItemKind::Open { close: end } = items[at].kind else {
        return None;
    };
    let end = end as usize;
    if close <= end + 1 {
        return None;
    }
    if behind(items, end + 1) != close {
        return None;
    }
    if are_pairs(text, items, at + 1, end) {
        Some(end)
    } else {
        None
    }
}

/// How attributes name a term: not, by a symbol, or wrongly.
#[derive(Clone, Copy, Debug, PartialEq, Eq)]
pub enum Naming {
    Unnamed,
    Named,
    Misnamed,
}

/// Whether an item is a keyword.
fn is_keyword(text: &[u8], item: &Item) -> bool
    ensures { result ≡ is_some (keyword_in text.now item.now) }
{
    keyword_in(text, item).is_some()
}

/// Whether the expressions up to an item are attributes, and at least one.
pub fn are_attributes(text: &[u8], items: &[Item], from: usize, to: usize) -> bool
    requires stand { (es : Trees) × StandAll items.now text.now from es to }
    requires within { to ≤ length items.now }
    ensures { (es : Trees) → StandAll items.now text.now from es to → result ≡ are_attributes es }
{
    let mut at = from;
    let mut is_behind_key = false;
    'attributes: while at < to {
        let is_key = is_keyword(text, &items[at]);
        if !is_key && !is_behind_key {
            return false;
        }
        is_behind_key = is_key;
        at = behind(items, at);
    }
    from < to
}

/// Whether an item is `:named`.
pub fn is_named(text: &[u8], item: &Item) -> bool
    ensures { result ≡ is_named text.now item.now }
{
    match keyword_in(text, item) {
        Some(word) => word == b":named".as_slice(),
        None => false,
    }
}

/// How a `:named` names a term by what stands behind it.
fn naming_by(text: &[u8], items: &[Item], at: usize, to: usize) -> Naming
    requires stand { (es : Trees) × StandAll items.now text.now at es to }
    requires within { to ≤ length items.now }
    ensures { (es : Trees) → StandAll items.now text.now at es to → result ≡ told_in_front es }
{
    if to <= at {
        return Naming::Misnamed;
    }
    match name_in(text, &items[at]) {
        Some(_) => Naming::Named,
        None => Naming::Misnamed,
    }
}

/// How a term is named that is named so already, by an item and what stands behind it.
fn naming_with(
    text: &[u8],
    items: &[Item],
    item: &Item,
    next: usize,
    to: usize,
    naming: Naming,
) -> Naming
    requires stand { (es : Trees) × StandAll items.now text.now next es to }
    requires within { to ≤ length items.now }
    ensures { (es : Trees) → StandAll items.now text.now next es to →
        result ≡ (if is_named text.now item.now then named_also naming (told_in_front es)
        else naming) }
{
    if !is_named(text, item) {
        return naming;
    }
    match naming {
        Naming::Unnamed => naming_by(text, items, next, to),
        Naming::Named | Naming::Misnamed => Naming::Misnamed,
    }
}

/// How attributes name a term.
pub fn naming_of(text: &[u8], items: &[Item], from: usize, to: usize) -> Naming
    requires stand { (es : Trees) × StandAll items.now text.now from es to }
    requires within { to ≤ length items.now }
    ensures { (es : Trees) → StandAll items.now text.now from es to → told (naming es) ≡ result }
{
    let mut at = from;
    let mut naming = Naming::Unnamed;
    'attributes: while at < to {
        let next = behind(items, at);
        naming = naming_with(text, items, &items[at], next, to, naming);
        at = next;
    }
    naming
}
