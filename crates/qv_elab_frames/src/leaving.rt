//! What is open goes on behind its part.

ghost use Rattle.std.specs.Prelude.{◌≡◌, ◌<◌, ℕ, List, IfOk, Result};
ghost use Rattle.qv_words.specs.Tree.{Tree as Term};
ghost use Rattle.qv_store.specs.Stores.{Grows};
ghost use Rattle.qv_elab_frames.specs.declared.elaborator.Next.TheVariants.{Made};
ghost use Rattle.qv_elab_defs.specs.Faults.{Fault};
ghost use Rattle.qv_elab_defs.specs.Scopes.{Scope as Defs};
ghost use Rattle.qv_elab_defs.specs.Looking.{Seen};
ghost use Rattle.qv_elab_scope.specs.Kept.{IsScopeIn};
ghost use Rattle.qv_elab_frames.specs.Loop.{state_of, with_open, source, IsPossible, IsMade, IsNext};
ghost use Rattle.qv_elab_frames.specs.Loop.{steps_left};

use crate::elaborator::{Elaborator, Next, Open};
use qv_elab_defs::{ElabFault, ElabKind};
use qv_elab_items::{behind, name_in};
use qv_elab_macros::Watched;
use qv_elab_scope::{Head, Scope, apply_watched, close_over};
use qv_sexpr::{Expr, ItemKind};
use qv_store::{Id, Store};
use qv_words::Sort;

impl Elaborator {
    /// What is open goes on behind its part.
    pub fn leave(
        &mut self,
        store: &mut Store,
        scope: &Scope,
        expr: &Expr,
        frame: Open,
        id: Id,
        at: u64,
    ) -> Result<Next, ElabFault>
        requires { IsPossible (λ defs end given.
            IsScopeIn store.old scope.now defs
            × IsMade (source expr.now end defs) store.old (with_open frame (state_of self.old)) id
            at given) }
        ensures next { (defs : Defs) (end : ℕ) (given : Result Seen Fault) →
            IsScopeIn store.old scope.now defs →
            IsMade (source expr.now end defs) store.old (with_open frame (state_of self.old)) id at
            given → IsNext (source expr.now end defs) store.new (state_of self.new) given result }
        ensures fewer { IfOk result
            (λ next. steps_left expr.now next < steps_left expr.now (Made id at)) }
        ensures grows { Grows store.old store.new }
    {
        match frame {
            Open::Application {
                place,
                head,
                head_at,
                first,
            } => self.leave_application(store, scope, expr, place, head, head_at, first, id, at),
            Open::Let { at: name_at, start } => self.leave_pair(
                store, scope, expr, name_at, start, id, at,
            ),
            Open::Quantifier {
                place,
                inner,
                is_universal,
                bound,
            } => self.leave_quantifier(
                store,
                scope,
                expr,
                place,
                inner,
                is_universal,
                bound,
                id,
                at,
            ),
            Open::Passing { close, bound } => Ok(self.leave_passing(expr, close, bound, id, at)),
        }
    }

    /// What stands for the same as its part, ended.
    fn leave_passing(&mut self, expr: &Expr, close: u64, bound: usize, id: Id, at: u64) -> Next
        requires { (trees : List Term) × IsPossible (λ defs end given.
            IsMade (source expr.now end defs) trees (with_open (Open.Passing close bound)
            (state_of self.old)) id at given) }
        ensures next { (trees : List Term) (defs : Defs) (end : ℕ) (given : Result Seen Fault) →
            IsMade (source expr.now end defs) trees
            (with_open (Open.Passing close bound) (state_of self.old)) id at given →
            IsNext (source expr.now end defs) trees (state_of self.new) given (Ok result) }
        ensures fewer { steps_left expr.now result < steps_left expr.now (Made id at) }
    {
        let _items = &expr.items;
        self.bound.truncate(bound);
        Next::Made { id, at: close + 1 }
    }

    /// An argument of an application ended.
    fn leave_application(
        &mut self,
        store: &mut Store,
        scope: &Scope,
        expr: &Expr,
        place: u64,
        head: Head,
        head_at: u64,
        first: usize,
        id: Id,
        at: u64,
    ) -> Result<Next, ElabFault>
        requires { IsPossible (λ defs end given.
            IsScopeIn store.old scope.now defs
            × IsMade (source expr.now end defs) store.old
            (with_open (Open.Application place head head_at first) (state_of self.old)) id at
            given) }
        ensures next { (defs : Defs) (end : ℕ) (given : Result Seen Fault) →
            IsScopeIn store.old scope.now defs →
            IsMade (source expr.now end defs) store.old
            (with_open (Open.Application place head head_at first) (state_of self.old)) id at
            given → IsNext (source expr.now end defs) store.new (state_of self.new) given result }
        ensures fewer { IfOk result
            (λ next. steps_left expr.now next < steps_left expr.now (Made id at)) }
        ensures grows { Grows store.old store.new }
    {
        self.done.reserve(1)?;
        self.done.push_reserved(id);
        let ItemKind::Close = expr.items[at as usize].kind else {
            self.open.reserve(1)?;
            self.open.push_reserved(Open::Application {
                place,
                head,
                head_at,
                first,
            });
            return Ok(Next::Read { at });
        };
        let id = apply_watched(
            self.alloc,
            store,
            scope,
            expr,
            self.binders,
            place,
            head,
            head_at,
            &self.done[first..],
            &mut self.watched,
        )?;
        self.done.truncate(first);
        Ok(Next::Made { id, at: at + 1 })
    }

    /// The term of a name of a `let` ended.
    fn leave_pair(
        &mut self,
        store: &mut Store,
        scope: &Scope,
        expr: &Expr,
        name_at: u64,
        start: usize,
        id: Id,
        at: u64,
    ) -> Result<Next, ElabFault>
        requires { IsPossible (λ defs end given.
            IsScopeIn store.old scope.now defs
            × IsMade (source expr.now end defs) store.old
            (with_open (Open.Let name_at start) (state_of self.old)) id at given) }
        ensures next { (defs : Defs) (end : ℕ) (given : Result Seen Fault) →
            IsScopeIn store.old scope.now defs →
            IsMade (source expr.now end defs) store.old
            (with_open (Open.Let name_at start) (state_of self.old)) id at given →
            IsNext (source expr.now end defs) store.new (state_of self.new) given result }
        ensures fewer { IfOk result
            (λ next. steps_left expr.now next < steps_left expr.now (Made id at)) }
        ensures grows { Grows store.old store.new }
    {
        let name = name_in(&expr.text, &expr.items[name_at as usize]).unwrap();
        self.pending.push(self.alloc, name, id)?;
        let next = at + 1;
        let ItemKind::Close = expr.items[next as usize].kind else {
            return self.enter_pair(expr, next + 1, start);
        };
        let bound = self.bound.len();
        self.bound.push_from(self.alloc, &self.pending, start)?;
        self.pending.truncate(start);
        let close = behind(&expr.items, next as usize + 1) as u64;
        self.open.reserve(1)?;
        self.open.push_reserved(Open::Passing { close, bound });
        Ok(Next::Read { at: next + 1 })
    }

    /// The body of a quantifier ended.
    fn leave_quantifier(
        &mut self,
        store: &mut Store,
        scope: &Scope,
        expr: &Expr,
        place: u64,
        inner: u64,
        is_universal: bool,
        bound: usize,
        id: Id,
        at: u64,
    ) -> Result<Next, ElabFault>
        requires { IsPossible (λ defs end given.
            IsScopeIn store.old scope.now defs
            × IsMade (source expr.now end defs) store.old
            (with_open (Open.Quantifier place inner is_universal bound) (state_of self.old)) id
            at given) }
        ensures next { (defs : Defs) (end : ℕ) (given : Result Seen Fault) →
            IsScopeIn store.old scope.now defs →
            IsMade (source expr.now end defs) store.old
            (with_open (Open.Quantifier place inner is_universal bound) (state_of self.old)) id
            at given →
            IsNext (source expr.now end defs) store.new (state_of self.new) given result }
        ensures fewer { IfOk result
            (λ next. steps_left expr.now next < steps_left expr.now (Made id at)) }
        ensures grows { Grows store.old store.new }
    {
        let Sort::Bool = store.sort(id) else {
            return Err(ElabFault::At {
                place: inner,
                kind: ElabKind::Sorts,
            });
        };
        let variables = (self.bound.len() - bound) as u64;
        let id = close_over(
            store,
            place,
            is_universal,
            &self.bound,
            bound,
            self.binders,
            id,
        )?;
        self.watched.reserve(1)?;
        self.watched.push_reserved(Watched { id, depth: 0 });
        self.bound.truncate(bound);
        self.binders -= variables;
        Ok(Next::Made { id, at: at + 1 })
    }
}
