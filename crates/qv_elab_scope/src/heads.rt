//! The heads of applications, and those that are operators by their names and indices.

ghost use Rattle.std.specs.Prelude.{◌≡◌, ◌↔◌, ℕ, Option, List, [], Some, None, Err, map, find};
ghost use Rattle.qv_words.specs.declared.op.Op.{Op};
ghost use Rattle.qv_sorts.specs.Search.{operator_named, with_indices};
ghost use Rattle.qv_elab_defs.specs.Tokens.{Number};
ghost use Rattle.qv_elab_defs.specs.Scopes.{Scope as Defs};
ghost use Rattle.qv_elab_defs.specs.Heads.{HeadName, head_operator, bare};
ghost use Rattle.qv_elab_defs.specs.Heads.{Head as Meant};
ghost use Rattle.qv_elab_items.specs.Flat.{numbers_in, is_large};
ghost use Rattle.qv_elab_scope.specs.Headed.{IsHead, IsTold, op_of, named, no_head};

use qv_elab_defs::{ElabFault, ElabKind};
use qv_elab_items::{first_large, number_in};
use qv_sexpr::Item;
use qv_sorts::{NameFault, op_named};
use qv_words::Op;

/// What is applied: a definition, `distinct`, or an operator.
#[derive(Clone, Copy)]
pub enum Head {
    Macro,
    Distinct,
    Operator(Op),
}

/// The operator of a name with indices, of which none is too large.
fn op_with(name: &[u8], text: &[u8], numerals: &[Item]) -> Result<Op, NameFault>
    ensures unknown { (result ≡ Err NameFault.Unknown) ↔ (operator_named name.now ≡ None) }
    ensures found { (ns : List Number) (op : Op) →
        numbers_in text.now numerals.now ≡ Some ns →
        find (λ item. is_large text.now item) numerals.now ≡ None →
        operator_named name.now ≡ Some op →
        op_of result ≡ with_indices op (map (λ n. n.value) ns) }
{
    match numerals {
        [] => op_named(name, &[]),
        [a] => op_named(name, &[number_in(text, a).unwrap_or(0)]),
        [a, b] => {
            let first = number_in(text, a).unwrap_or(0);
            let second = number_in(text, b).unwrap_or(0);
            op_named(name, &[first, second])
        }
        [_, _, _, ..] => match op_named(name, &[]) {
            Ok(_) => Err(NameFault::Indices),
            Err(fault) => Err(fault),
        },
    }
}

/// Why a head has no indices.
fn no_indices(place: u64, text: &[u8], numerals: &[Item]) -> ElabFault
    ensures { (ns : List Number) (defs : Defs) (at : Option (List ℕ)) →
        numbers_in text.now numerals.now ≡ Some ns →
        IsTold defs at (no_head place ns) (Err result) }
{
    match first_large(text, numerals) {
        Some(place) => ElabFault::At {
            place,
            kind: ElabKind::Literal,
        },
        None => ElabFault::At {
            place,
            kind: ElabKind::Index,
        },
    }
}

// A head that takes no indices.
pub(crate) fn bare(
    head: Head,
    place: u64,
    text: &[u8],
    numerals: &[Item],
) -> Result<Head, ElabFault>
    ensures { (ns : List Number) (h : HeadName) (meant : Meant) (defs : Defs)
        (at : Option (List ℕ)) →
        numbers_in text.now numerals.now ≡ Some ns → h.head_place ≡ place →
        (ns ≡ [] → IsHead defs at head meant) → IsTold defs at (bare h meant ns) result }
{
    if numerals.is_empty() {
        Ok(head)
    } else {
        Err(no_indices(place, text, numerals))
    }
}

/// `distinct`, by its name and indices.
fn other_head(
    head_place: u64,
    place: u64,
    name: &[u8],
    text: &[u8],
    numerals: &[Item],
) -> Result<Head, ElabFault>
    ensures { (ns : List Number) (defs : Defs) (at : Option (List ℕ)) →
        numbers_in text.now numerals.now ≡ Some ns →
        IsTold defs at (head_operator (named head_place place name.now ns) None) result }
{
    if name == b"distinct".as_slice() {
        return bare(Head::Distinct, head_place, text, numerals);
    }
    Err(ElabFault::At {
        place,
        kind: ElabKind::UnknownName,
    })
}

/// An operator, if it has these indices.
fn known_head(op: Option<Op>, place: u64, text: &[u8], numerals: &[Item]) -> Result<Head, ElabFault>
    ensures { (h : HeadName) (meant : Op) (defs : Defs) (at : Option (List ℕ)) →
        numbers_in text.now numerals.now ≡ Some h.indices → h.head_place ≡ place →
        (find (λ item. is_large text.now item) numerals.now ≡ None →
        op ≡ with_indices meant (map (λ n. n.value) h.indices)) →
        IsTold defs at (head_operator h (Some meant)) result }
{
    if let Some(place) = first_large(text, numerals) {
        return Err(ElabFault::At {
            place,
            kind: ElabKind::Literal,
        });
    }
    match op {
        Some(op) => Ok(Head::Operator(op)),
        None => Err(ElabFault::At {
            place,
            kind: ElabKind::Index,
        }),
    }
}

// An operator or `distinct`, by its name and indices.
pub(crate) fn operator_head(
    head_place: u64,
    place: u64,
    name: &[u8],
    text: &[u8],
    numerals: &[Item],
) -> Result<Head, ElabFault>
    ensures { (ns : List Number) (defs : Defs) (at : Option (List ℕ)) →
        numbers_in text.now numerals.now ≡ Some ns →
        IsTold defs at
        (head_operator (named head_place place name.now ns) (operator_named name.now)) result }
{
    match op_with(name, text, numerals) {
        Ok(op) => known_head(Some(op), head_place, text, numerals),
        Err(NameFault::Indices) => known_head(None, head_place, text, numerals),
        Err(NameFault::Unknown) => other_head(head_place, place, name, text, numerals),
    }
}
