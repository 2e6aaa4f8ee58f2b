//! Which term is asserted, and under which name.

ghost use Rattle.std.specs.Prelude.{◌≡◌, ◌≤◌, ◌<◌, ℕ, length};
ghost use Rattle.std.specs.Option.{option_map};
ghost use Rattle.qv_sexpr.specs.Script.{Tree, Trees, list};
ghost use Rattle.qv_sexpr.specs.Items.{StandAll, IsExpr, Begins};
ghost use Rattle.qv_elab_defs.specs.Shapes.{naming};
ghost use Rattle.qv_elab_items.specs.Inside.{is_named};
ghost use Rattle.qv_script_defs.specs.Parts.{asserted_of};
ghost use Rattle.qv_script_parts.specs.Parted.{is_annotation, named_in_front, name_given, IsAsserted};
ghost use Rattle.qv_script_parts.specs.Parted.{IsPart};

use qv_elab_items::{are_attributes, behind, is_named, name_in, text_of};
use qv_sexpr::{Expr, Item, ItemKind};
use qv_text::TokenKind;

// Whether an item is the word `!`.
fn is_annotation(text: &[u8], item: &Item) -> bool
    ensures { result ≡ is_annotation text.now item.now }
{
    let ItemKind::Atom(TokenKind::Reserved) = item.kind else {
        return false;
    };
    match text_of(text, item) {
        Some(word) => word == b"!".as_slice(),
        None => false,
    }
}

// The symbol in front of what stands up to an item.
fn symbol_in_front<'a>(text: &'a [u8], items: &[Item], at: usize, to: usize) -> Option<&'a [u8]>
    requires stand { (es : Trees) × StandAll items.now text.now at es to }
    requires within { to ≤ length items.now }
    ensures { (es : Trees) → StandAll items.now text.now at es to →
        option_map (λ name. name.now) result ≡ named_in_front es }
{
    if to <= at {
        return None;
    }
    name_in(text, &items[at])
}

// The name that attributes give a term.
fn name_given<'a>(text: &'a [u8], items: &[Item], from: usize, to: usize) -> Option<&'a [u8]>
    requires stand { (es : Trees) × StandAll items.now text.now from es to }
    requires within { to ≤ length items.now }
    ensures { (es : Trees) → StandAll items.now text.now from es to →
        option_map (λ name. name.now) result ≡ name_given (naming es) }
{
    let mut name = None;
    let mut at = from;
    'attributes: while at < to {
        let next = behind(items, at);
        if is_named(text, &items[at]) {
            if name.is_some() {
                return None;
            }
            name = Some(symbol_in_front(text, items, next, to)?);
        }
        at = next;
    }
    name
}

// The item of the term and its name, where `!`, a term and attributes with a name stand up to the
// end of a list.
fn named_in<'a>(
    text: &'a [u8],
    items: &[Item],
    at: usize,
    close: usize,
) -> Option<(usize, &'a [u8])>
    requires stand { (inside : Trees) × StandAll items.now text.now at inside close }
    requires within { (at ≤ close) × (close < length items.now) }
    ensures { (p : ℕ) (inside : Trees) (q : ℕ) → StandAll items.now text.now at inside close →
        IsAsserted items.now text.now (list p inside q) (asserted_of (list p inside q))
        (option_map (λ x. (x.0, x.1.now)) result) }
{
    if close <= at + 1 {
        return None;
    }
    if !is_annotation(text, &items[at]) {
        return None;
    }
    let attributes = behind(items, at + 1);
    if !are_attributes(text, items, attributes, close) {
        return None;
    }
    let name = name_given(text, items, attributes, close)?;
    Some((at + 1, name))
}

/// The item of the term and the name in `(! t .. :named x ..)`, or nothing where an expression
/// gives no name.
pub fn asserted_at(expr: &Expr, at: u64) -> Option<(u64, &[u8])>
    requires expr { IsExpr expr.now }
    requires at { Begins expr.now at }
    ensures { (e : Tree) → IsPart expr.now at e →
        IsAsserted expr.now.items.items expr.now.text.items e (asserted_of e)
        (option_map (λ x. (x.0, x.1.now)) result) }
{
    let ItemKind::Open { close } = expr.items[at as usize].kind else {
        return None;
    };
    let (term, name) = named_in(&expr.text, &expr.items, at as usize + 1, close as usize)?;
    Some((term as u64, name))
}
