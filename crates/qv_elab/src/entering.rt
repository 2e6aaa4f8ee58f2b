//! What an expression does at its beginning.

ghost use Rattle.std.specs.Prelude.{◌≡◌, ◌<◌, ℕ, IfOk, Result};
ghost use Rattle.qv_sexpr.specs.Items.{IsExpr};
ghost use Rattle.qv_store.specs.Stores.{Grows};
ghost use Rattle.qv_elab_frames.specs.declared.elaborator.Next.TheVariants.{Read};
ghost use Rattle.qv_elab_defs.specs.Faults.{Fault};
ghost use Rattle.qv_elab_defs.specs.Scopes.{Scope as Defs};
ghost use Rattle.qv_elab_defs.specs.Beginnings.{Begins, beginning, list_beginning};
ghost use Rattle.qv_elab_defs.specs.Shapes.{Indexed};
ghost use Rattle.qv_elab_items.specs.Listed.{meant};
ghost use Rattle.qv_elab_defs.specs.Looking.{Seen};
ghost use Rattle.qv_elab_scope.specs.Kept.{IsScopeIn};
ghost use Rattle.qv_elab_frames.specs.Loop.{state_of, source, IsPossible, IsReading, IsInList};
ghost use Rattle.qv_elab_frames.specs.Loop.{IsNext, IsListAt, steps_left};

use qv_elab_defs::{ElabFault, ElabKind};
use qv_elab_frames::{Elaborator, Next};
use qv_elab_items::{Shape, behind, indexed_literal, part, shape_of, text_of};
use qv_elab_scope::{Scope, leaf, put_written};
use qv_sexpr::{Expr, ItemKind};
use qv_store::Store;

/// An expression is entered.
pub(crate) fn enter(
    elaborator: &mut Elaborator,
    store: &mut Store,
    scope: &Scope,
    expr: &Expr,
    at: u64,
) -> Result<Next, ElabFault>
    requires expr { IsExpr expr.now }
    requires reading { IsPossible (λ defs end given.
        IsScopeIn store.old scope.now defs
        × IsReading (source expr.now end defs) store.old (state_of elaborator.old) at given) }
    ensures next { (defs : Defs) (end : ℕ) (given : Result Seen Fault) →
        IsScopeIn store.old scope.now defs →
        IsReading (source expr.now end defs) store.old (state_of elaborator.old) at given →
        IsNext (source expr.now end defs) store.new (state_of elaborator.new) given result }
    ensures begins { (defs : Defs) (end : ℕ) (given : Result Seen Fault) →
        IsScopeIn store.old scope.now defs →
        (h : IsReading (source expr.now end defs) store.old (state_of elaborator.old) at given) →
        Begins (beginning h.expr h.c) result }
    ensures fewer { IfOk result
        (λ next. steps_left expr.now next < steps_left expr.now (Read at)) }
    ensures grows { Grows store.old store.new }
{
    let item = &expr.items[at as usize];
    match item.kind {
        ItemKind::Open { close } => enter_list(elaborator, store, scope, expr, at, close),
        ItemKind::Atom(kind) => {
            let text = text_of(&expr.text, item).unwrap();
            let id = leaf(
                elaborator.alloc,
                store,
                scope,
                &elaborator.bound,
                elaborator.binders,
                item.place,
                kind,
                text,
            )?;
            Ok(Next::Made { id, at: at + 1 })
        }
        ItemKind::Close => unreachable!(),
    }
}

/// A list is entered, which is closed at an item.
fn enter_list(
    elaborator: &mut Elaborator,
    store: &mut Store,
    scope: &Scope,
    expr: &Expr,
    at: u64,
    close: u64,
) -> Result<Next, ElabFault>
    requires reading { IsPossible (λ defs end given.
        IsScopeIn store.old scope.now defs
        × IsReading (source expr.now end defs) store.old (state_of elaborator.old) at given) }
    requires expr { IsExpr expr.now }
    requires list { IsListAt expr.now at close }
    ensures next { (defs : Defs) (end : ℕ) (given : Result Seen Fault) →
        IsScopeIn store.old scope.now defs →
        IsReading (source expr.now end defs) store.old (state_of elaborator.old) at given →
        IsNext (source expr.now end defs) store.new (state_of elaborator.new) given result }
    ensures begins { (defs : Defs) (end : ℕ) (given : Result Seen Fault) →
        IsScopeIn store.old scope.now defs →
        (h : IsReading (source expr.now end defs) store.old (state_of elaborator.old) at given) →
        Begins (beginning h.expr h.c) result }
    ensures fewer { IfOk result
        (λ next. steps_left expr.now next < steps_left expr.now (Read at)) }
    ensures grows { Grows store.old store.new }
{
    let place = expr.items[at as usize].place;
    if at + 1 == close {
        return Err(ElabFault::At {
            place,
            kind: ElabKind::Form,
        });
    }
    let shape = shape_of(&expr.text, &expr.items[at as usize + 1]);
    enter_shape(elaborator, store, scope, expr, place, at, close, shape)
}

/// A list of a shape is entered.
fn enter_shape(
    elaborator: &mut Elaborator,
    store: &mut Store,
    scope: &Scope,
    expr: &Expr,
    place: u64,
    at: u64,
    close: u64,
    shape: Shape,
) -> Result<Next, ElabFault>
    requires expr { IsExpr expr.now }
    requires list { IsPossible (λ defs end given.
        IsScopeIn store.old scope.now defs
        × IsInList (source expr.now end defs) store.old (state_of elaborator.old) at close place
        (meant shape) given) }
    ensures next { (defs : Defs) (end : ℕ) (given : Result Seen Fault) →
        IsScopeIn store.old scope.now defs →
        IsInList (source expr.now end defs) store.old (state_of elaborator.old) at close place
        (meant shape) given →
        IsNext (source expr.now end defs) store.new (state_of elaborator.new) given result }
    ensures begins { (defs : Defs) (end : ℕ) (given : Result Seen Fault) →
        IsScopeIn store.old scope.now defs →
        (h : IsInList (source expr.now end defs) store.old (state_of elaborator.old) at close place
        (meant shape) given) →
        Begins (list_beginning (meant shape) place h.first h.rest defs) result }
    ensures fewer { IfOk result
        (λ next. steps_left expr.now next < steps_left expr.now (Read at)) }
    ensures grows { Grows store.old store.new }
{
    match shape {
        Shape::Let => elaborator.enter_let(store, scope, expr, place, at, close),
        Shape::Universal => elaborator.enter_quantifier(store, scope, expr, place, at, close, true),
        Shape::Existential => elaborator.enter_quantifier(
            store, scope, expr, place, at, close, false,
        ),
        Shape::Annotated => elaborator.enter_annotated(store, scope, expr, place, at, close),
        Shape::Indexed => enter_indexed(elaborator, store, scope, expr, place, at, close),
        Shape::Application => elaborator.enter_application(store, scope, expr, place, at, close),
        Shape::Qualified | Shape::Unsupported => Err(ElabFault::At {
            place,
            kind: ElabKind::NotSupported,
        }),
    }
}

/// A literal of a value and a width.
fn enter_indexed(
    elaborator: &mut Elaborator,
    store: &mut Store,
    scope: &Scope,
    expr: &Expr,
    place: u64,
    at: u64,
    close: u64,
) -> Result<Next, ElabFault>
    requires expr { IsExpr expr.now }
    requires list { IsPossible (λ defs end given.
        IsScopeIn store.old scope.now defs
        × IsInList (source expr.now end defs) store.old (state_of elaborator.old) at close place
        (Indexed) given) }
    ensures next { (defs : Defs) (end : ℕ) (given : Result Seen Fault) →
        IsScopeIn store.old scope.now defs →
        IsInList (source expr.now end defs) store.old (state_of elaborator.old) at close place
        (Indexed) given →
        IsNext (source expr.now end defs) store.new (state_of elaborator.new) given result }
    ensures begins { (defs : Defs) (end : ℕ) (given : Result Seen Fault) →
        IsScopeIn store.old scope.now defs →
        (h : IsInList (source expr.now end defs) store.old (state_of elaborator.old) at close place
        (Indexed) given) →
        Begins (list_beginning (Indexed) place h.first h.rest defs) result }
    ensures fewer { IfOk result
        (λ next. steps_left expr.now next < steps_left expr.now (Read at)) }
    ensures grows { Grows store.old store.new }
{
    let second = behind(&expr.items, at as usize + 1);
    let others = part(&expr.items, second, close as usize);
    let id = put_written(store, indexed_literal(place, &expr.text, others))?;
    Ok(Next::Made { id, at: close + 1 })
}
