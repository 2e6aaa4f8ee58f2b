//! The heads of applications in a scope.

ghost use Rattle.std.specs.Prelude.{◌≡◌, ℕ, Option, List, [], Some};
ghost use Rattle.qv_sexpr.specs.Script.{Tree};
ghost use Rattle.qv_sexpr.specs.Items.{Stands, IsExpr, Begins};
ghost use Rattle.qv_words.specs.Tree.{Tree as Term};
ghost use Rattle.qv_elab_defs.specs.Tokens.{Number};
ghost use Rattle.qv_elab_defs.specs.Scopes.{Scope as Defs};
ghost use Rattle.qv_elab_defs.specs.Heads.{head_named, head_of};
ghost use Rattle.qv_elab_items.specs.Flat.{numbers_in};
ghost use Rattle.qv_elab_scope.specs.Force.{stands_for, is_definition};
ghost use Rattle.qv_elab_scope.specs.Kept.{IsScopeIn};
ghost use Rattle.qv_elab_scope.specs.Headed.{IsTold, name_at, head_in, named};

use crate::heads::{Head, bare, operator_head};
use crate::scope::{Kept, Scope};
use qv_elab_defs::{ElabFault, ElabKind};
use qv_elab_items::{Shape, indexed_name, name_in, part, shape_of};
use qv_sexpr::{Expr, Item, ItemKind};

/// Whether a name is a definition's.
fn is_defined(scope: &Scope, name: &[u8]) -> bool
    ensures { result ≡ is_definition (stands_for name.now scope.now) }
{
    match scope.find(name) {
        Some(Kept::Definition { .. }) => true,
        Some(Kept::Constant { .. }) | Some(Kept::Synonym { .. }) | None => false,
    }
}

/// A head by its name and indices.
fn named_head(
    scope: &Scope,
    head_place: u64,
    place: u64,
    name: &[u8],
    text: &[u8],
    numerals: &[Item],
) -> Result<Head, ElabFault>
    ensures { (trees : List Term) (defs : Defs) (ns : List Number) (at : Option (List ℕ)) →
        IsScopeIn trees scope.now defs → numbers_in text.now numerals.now ≡ Some ns →
        (ns ≡ [] → at ≡ Some name.now) →
        IsTold defs at (head_named defs (named head_place place name.now ns)) result }
{
    if is_defined(scope, name) {
        return bare(Head::Macro, head_place, text, numerals);
    }
    operator_head(head_place, place, name, text, numerals)
}

/// A list as the head of an application at a place.
fn listed_head(
    scope: &Scope,
    place: u64,
    head_place: u64,
    text: &[u8],
    items: &[Item],
) -> Result<Head, ElabFault>
    ensures { (trees : List Term) (defs : Defs) (at : Option (List ℕ)) →
        IsScopeIn trees scope.now defs →
        IsTold defs at (head_in defs place head_place text.now items.now) result }
{
    let form = ElabFault::At {
        place,
        kind: ElabKind::Form,
    };
    let Some((first, others)) = items.split_first() else {
        return Err(form);
    };
    match shape_of(text, first) {
        Shape::Indexed => match indexed_name(text, others) {
            Some(name) => named_head(
                scope,
                head_place,
                name.place,
                name.name,
                text,
                name.numerals,
            ),
            None => Err(ElabFault::At {
                place: head_place,
                kind: ElabKind::Form,
            }),
        },
        Shape::Qualified => Err(ElabFault::At {
            place: head_place,
            kind: ElabKind::NotSupported,
        }),
        Shape::Let
        | Shape::Universal
        | Shape::Existential
        | Shape::Annotated
        | Shape::Unsupported
        | Shape::Application => Err(form),
    }
}

/// What an application at a place has at its head.
pub fn head_of(scope: &Scope, place: u64, expr: &Expr, at: u64) -> Result<Head, ElabFault>
    requires expr { IsExpr expr.now }
    requires at { Begins expr.now at }
    ensures { (trees : List Term) (defs : Defs) (e : Tree) (to : ℕ) →
        IsScopeIn trees scope.now defs →
        Stands expr.now.items.items expr.now.text.items at e to →
        IsTold defs (name_at expr.now.text.items expr.now.items.items at) (head_of defs place e)
        result }
{
    let text = expr.text.as_slice();
    let item = &expr.items[at as usize];
    match item.kind {
        ItemKind::Open { close } => {
            let inside = part(&expr.items, at as usize + 1, close as usize);
            listed_head(scope, place, item.place, text, inside)
        }
        _ => match name_in(text, item) {
            Some(name) => named_head(scope, item.place, item.place, name, text, &[]),
            None => Err(ElabFault::At {
                place,
                kind: ElabKind::Form,
            }),
        },
    }
}
