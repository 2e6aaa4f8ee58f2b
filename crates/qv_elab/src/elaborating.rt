//! The terms of expressions: a loop over the items, with a stack of the expressions that are open.

ghost use Rattle.std.specs.Prelude.{◌≡◌, ℕ, [], Result};
ghost use Rattle.qv_sexpr.specs.Script.{Tree};
ghost use Rattle.qv_sexpr.specs.Items.{Stands, IsExpr, Begins};
ghost use Rattle.qv_store.specs.Stores.{Grows};
ghost use Rattle.qv_elab_defs.specs.Faults.{Fault};
ghost use Rattle.qv_elab_defs.specs.Scopes.{Scope as Defs, outermost};
ghost use Rattle.qv_elab_defs.specs.Beginnings.{Begins as Passes, beginning};
ghost use Rattle.qv_elab_defs.specs.Defining.{elaborate};
ghost use Rattle.qv_elab_defs.specs.Answers.{Answers};
ghost use Rattle.qv_elab_scope.specs.Kept.{IsScopeIn};
ghost use Rattle.qv_elab_defs.specs.Looking.{Seen};
ghost use Rattle.qv_elab_macros.specs.Checked.{Sees};
ghost use Rattle.qv_elab_frames.specs.Loop.{state_of, source, IsPossible, IsReading};

use crate::entering::enter;
use qv_elab_defs::ElabFault;
use qv_elab_frames::{Elaborator, Next};
use qv_elab_scope::Scope;
use qv_sexpr::Expr;
use qv_store::{Id, Store};
use std::alloc::Global;

/// The term of an expression, and of all that is open around it.
pub(crate) fn run(
    elaborator: &mut Elaborator,
    store: &mut Store,
    scope: &Scope,
    expr: &Expr,
    at: u64,
) -> Result<Id, ElabFault>
    requires expr { IsExpr expr.now }
    requires reading { IsPossible (λ defs end given.
        IsScopeIn store.old scope.now defs
        × IsReading (source expr.now end defs) store.old (state_of elaborator.old) at given) }
    ensures sees { (defs : Defs) (end : ℕ) (given : Result Seen Fault) →
        IsScopeIn store.old scope.now defs →
        IsReading (source expr.now end defs) store.old (state_of elaborator.old) at given →
        Sees store.new elaborator.new.watched.items given result }
    ensures begins { (defs : Defs) (end : ℕ) (given : Result Seen Fault) →
        IsScopeIn store.old scope.now defs →
        (h : IsReading (source expr.now end defs) store.old (state_of elaborator.old) at given) →
        Passes (beginning h.expr h.c) result }
    ensures grows { Grows store.old store.new }
{
    let mut next = enter(elaborator, store, scope, expr, at)?;
    'items: loop {
        next = match next {
            Next::Read { at } => enter(elaborator, store, scope, expr, at)?,
            Next::Made { id, at } => match elaborator.open.pop() {
                Some(open) => elaborator.leave(store, scope, expr, open, id, at)?,
                None => return Ok(id),
            },
        };
    }
}

/// The term that an expression of a scope stands for, or its first fault.
pub fn elaborate(
    alloc: Global,
    store: &mut Store,
    scope: &Scope,
    expr: &Expr,
    at: u64,
) -> Result<Id, ElabFault>
    requires expr { IsExpr expr.now }
    requires at { Begins expr.now at }
    requires scope { (defs : Defs) × IsScopeIn store.old scope.now defs }
    ensures answers { (defs : Defs) (e : Tree) (to : ℕ) → IsScopeIn store.old scope.now defs →
        Stands expr.now.items.items expr.now.text.items at e to →
        Answers store.new (elaborate defs e) result }
    ensures begins { (defs : Defs) (e : Tree) (to : ℕ) → IsScopeIn store.old scope.now defs →
        Stands expr.now.items.items expr.now.text.items at e to →
        Passes (beginning e (outermost defs)) result }
    ensures grows { Grows store.old store.new }
{
    let mut elaborator = Elaborator::new(alloc);
    run(&mut elaborator, store, scope, expr, at)
}
