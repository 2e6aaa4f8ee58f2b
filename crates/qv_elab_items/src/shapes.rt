//! The shapes of lists.

ghost use Rattle.std.specs.Prelude.{◌≡◌, is_some, find};
ghost use Rattle.std.specs.List.{list_all};
ghost use Rattle.std.specs.Option.{option_map, option_and_then};
ghost use Rattle.qv_elab_defs.specs.Shapes.{reserved_construct};
ghost use Rattle.qv_elab_items.specs.Flat.{numeral_in, is_large, construct_in};
ghost use Rattle.qv_elab_defs.specs.Tokens.{small_number_of};
ghost use Rattle.qv_elab_items.specs.Listed.{meant, IsIndexed};

use crate::tokens::{name_in, numeral_in, small_number, text_of};
use qv_sexpr::{Item, ItemKind};
use qv_text::TokenKind;

/// What a list is, by what it begins with.
#[derive(Clone, Copy, Debug, PartialEq, Eq)]
pub enum Shape {
    Let,
    Universal,
    Existential,
    Annotated,
    Indexed,
    Qualified,
    Unsupported,
    Application,
}

/// What a list is that begins with a reserved word.
#[tactic(auto, unfolding(qv_elab_defs::specs::Shapes::reserved_construct))]
fn reserved(word: &[u8]) -> Shape
    ensures { meant result ≡ reserved_construct word.now }
{
    if word == b"let".as_slice() {
        Shape::Let
    } else if word == b"forall".as_slice() {
        Shape::Universal
    } else if word == b"exists".as_slice() {
        Shape::Existential
    } else if word == b"!".as_slice() {
        Shape::Annotated
    } else if word == b"_".as_slice() {
        Shape::Indexed
    } else if word == b"as".as_slice() {
        Shape::Qualified
    } else {
        Shape::Unsupported
    }
}

/// What a list is that begins with an item.
pub fn shape_of(text: &[u8], first: &Item) -> Shape
    ensures { meant result ≡ construct_in text.now first.now }
{
    let ItemKind::Atom(TokenKind::Reserved) = first.kind else {
        return Shape::Application;
    };
    match text_of(text, first) {
        Some(word) => reserved(word),
        None => Shape::Application,
    }
}

/// A name with indices, as what follows `_`.
#[derive(Drop)]
pub struct IndexedName<'a> {
    pub place: u64,
    pub name: &'a [u8],
    pub numerals: &'a [Item],
}

/// Whether an item is a numeral.
fn is_numeral(text: &[u8], item: &Item) -> bool
    ensures { result ≡ is_some (numeral_in text.now item.now) }
{
    numeral_in(text, item).is_some()
}

/// Whether each item is a numeral.
fn are_numerals(text: &[u8], items: &[Item]) -> bool
    ensures { result ≡ list_all (λ item. is_some (numeral_in text.now item)) items.now }
{
    items.iter().all(|item| is_numeral(text, item))
}

/// The name with indices that items are: a symbol, and one numeral or more.
pub fn indexed_name<'a>(text: &'a [u8], items: &'a [Item]) -> Option<IndexedName<'a>>
    ensures { IsIndexed text.now items.now
        (option_map (λ i. (i.place, i.name.now, i.numerals.now)) result) }
{
    let (first, numerals) = items.split_first()?;
    let name = name_in(text, first)?;
    if numerals.is_empty() {
        return None;
    }
    if !are_numerals(text, numerals) {
        return None;
    }
    Some(IndexedName {
        place: first.place,
        name,
        numerals,
    })
}

/// Whether an item is a numeral of 2^128 or more.
fn is_large(text: &[u8], item: &Item) -> bool
    ensures { result ≡ is_large text.now item.now }
{
    match numeral_in(text, item) {
        Some(digits) => small_number(digits).is_none(),
        None => false,
    }
}

/// The place of the first numeral of 2^128 or more.
pub fn first_large(text: &[u8], numerals: &[Item]) -> Option<u64>
    ensures { result ≡ option_map (λ item. item.place)
        (find (λ item. is_large text.now item) numerals.now) }
{
    numerals
        .iter()
        .find(|item| is_large(text, item))
        .map(|item| item.place)
}

/// The number that an item is, if it is below 2^128.
pub fn number_in(text: &[u8], item: &Item) -> Option<u128>
    ensures { result ≡ option_and_then small_number_of (numeral_in text.now item.now) }
{
    small_number(numeral_in(text, item)?)
}
