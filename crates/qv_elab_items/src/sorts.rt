//! Sorts by their expressions.

ghost use Rattle.std.specs.Prelude.{◌≡◌, ◌≤◌, ℕ, List, Some, Err, length};
ghost use Rattle.std.specs.List.{slice_range};
ghost use Rattle.std.specs.Option.{option_map};
ghost use Rattle.qv_sexpr.specs.Script.{Tree};
ghost use Rattle.qv_sexpr.specs.Items.{Stands, IsExpr, Begins};
ghost use Rattle.qv_elab_defs.specs.Tokens.{Number};
ghost use Rattle.qv_elab_defs.specs.Sorts.{sort_named, indexed_sort, read_sort};
ghost use Rattle.qv_elab_items.specs.Flat.{numbers_in, indexed_in, bits_with, no_indices, sort_in};
ghost use Rattle.qv_elab_defs.specs.Answers.{answered};

use crate::shapes::{Shape, first_large, indexed_name, number_in, shape_of};
use crate::tokens::name_in;
use qv_elab_defs::{ElabFault, ElabKind};
use qv_sexpr::{Expr, Item, ItemKind};
use qv_words::Sort;

/// A sort by its name alone.
fn named_sort(place: u64, name: Option<&[u8]>) -> Result<Sort, ElabFault>
    ensures { result ≡ answered (sort_named place (option_map (λ n. n.now) name.entry)) }
{
    let Some(name) = name else {
        return Err(ElabFault::At {
            place,
            kind: ElabKind::Form,
        });
    };
    if name == b"Bool".as_slice() {
        return Ok(Sort::Bool);
    }
    let kind = if name == b"BitVec".as_slice() {
        ElabKind::Index
    } else {
        ElabKind::UnknownName
    };
    Err(ElabFault::At { place, kind })
}

/// The bit-vectors of these indices, of which there is to be one.
fn bits(place: u64, text: &[u8], numerals: &[Item]) -> Result<Sort, ElabFault>
    ensures { (ns : List Number) → numbers_in text.now numerals.now ≡ Some ns
        → result ≡ answered (bits_with place ns) }
{
    if let Some(place) = first_large(text, numerals) {
        return Err(ElabFault::At {
            place,
            kind: ElabKind::Literal,
        });
    }
    let [numeral] = numerals else {
        return Err(ElabFault::At {
            place,
            kind: ElabKind::Index,
        });
    };
    match number_in(text, numeral).and_then(Sort::bits) {
        Some(sort) => Ok(sort),
        None => Err(ElabFault::At {
            place,
            kind: ElabKind::Width,
        }),
    }
}

/// No sort has indices but those of bit-vectors.
fn no_indices(place: u64, text: &[u8], numerals: &[Item]) -> ElabFault
    ensures { (ns : List Number) → numbers_in text.now numerals.now ≡ Some ns
        → Err result ≡ answered (no_indices place ns) }
{
    match first_large(text, numerals) {
        Some(place) => ElabFault::At {
            place,
            kind: ElabKind::Literal,
        },
        None => ElabFault::At {
            place,
            kind: ElabKind::Index,
        },
    }
}

/// A sort by what follows `_`.
fn indexed_sort(place: u64, text: &[u8], items: &[Item]) -> Result<Sort, ElabFault>
    ensures { result ≡ answered (indexed_sort place (indexed_in text.now items.now)) }
{
    let Some(name) = indexed_name(text, items) else {
        return Err(ElabFault::At {
            place,
            kind: ElabKind::Form,
        });
    };
    if name.name == b"BitVec".as_slice() {
        return bits(place, text, name.numerals);
    }
    if name.name == b"Bool".as_slice() {
        return Err(no_indices(place, text, name.numerals));
    }
    Err(ElabFault::At {
        place: name.place,
        kind: ElabKind::UnknownName,
    })
}

/// A sort by the items of a list.
fn listed_sort(place: u64, text: &[u8], items: &[Item]) -> Result<Sort, ElabFault>
    ensures { result ≡ answered (sort_in place text.now items.now) }
{
    let Some((first, others)) = items.split_first() else {
        return Err(ElabFault::At {
            place,
            kind: ElabKind::Form,
        });
    };
    let kind = match shape_of(text, first) {
        Shape::Indexed => return indexed_sort(place, text, others),
        Shape::Qualified | Shape::Unsupported => ElabKind::NotSupported,
        Shape::Application if !others.is_empty() && name_in(text, first).is_some() =>
            ElabKind::NotSupported,
        Shape::Application
        | Shape::Let
        | Shape::Universal
        | Shape::Existential
        | Shape::Annotated => ElabKind::Form,
    };
    Err(ElabFault::At { place, kind })
}

/// The items from one number to before another.
pub fn part(items: &[Item], from: usize, to: usize) -> &[Item]
    requires order { from ≤ to }
    requires within { to ≤ length items.now }
    ensures { result.now ≡ slice_range items.now from to }
{
    &items[from..to]
}

/// The sort that the expression at this item is, or its first fault.
pub fn read_sort(expr: &Expr, at: u64) -> Result<Sort, ElabFault>
    requires expr { IsExpr expr.now }
    requires at { Begins expr.now at }
    ensures { (e : Tree) (to : ℕ) →
        Stands expr.now.items.items expr.now.text.items at e to → result ≡ answered (read_sort e) }
{
    let text = expr.text.as_slice();
    let item = &expr.items[at as usize];
    match item.kind {
        ItemKind::Open { close } => {
            let inside = part(&expr.items, at as usize + 1, close as usize);
            listed_sort(item.place, text, inside)
        }
        _ => named_sort(item.place, name_in(text, item)),
    }
}
