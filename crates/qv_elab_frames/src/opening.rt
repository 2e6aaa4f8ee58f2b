//! Lists are entered whose parts stand in what is open.

ghost use Rattle.std.specs.Prelude.{◌≡◌, ◌<◌, ℕ, List, IfOk, Result};
ghost use Rattle.qv_sexpr.specs.Items.{IsExpr};
ghost use Rattle.qv_words.specs.Tree.{Tree as Term};
ghost use Rattle.qv_store.specs.Stores.{Grows};
ghost use Rattle.qv_elab_frames.specs.declared.elaborator.Next.TheVariants.{Read};
ghost use Rattle.qv_elab_defs.specs.Faults.{Fault};
ghost use Rattle.qv_elab_defs.specs.Scopes.{Scope as Defs};
ghost use Rattle.qv_elab_defs.specs.Beginnings.{Begins, list_beginning};
ghost use Rattle.qv_elab_defs.specs.Shapes.{Let, Quantified, Annotated, Application};
ghost use Rattle.qv_elab_defs.specs.Looking.{Seen};
ghost use Rattle.qv_elab_scope.specs.Kept.{IsScopeIn};
ghost use Rattle.qv_elab_frames.specs.Loop.{state_of, source, IsPossible, IsInList, IsAtPair};
ghost use Rattle.qv_elab_scope.specs.Ids.{quantifier_of};
ghost use Rattle.qv_elab_frames.specs.Loop.{IsNext, steps_left};

use crate::elaborator::{Elaborator, Next, Open};
use qv_elab_defs::{ElabFault, ElabKind};
use qv_elab_items::{Naming, are_attributes, behind, binding, name_in, naming_of};
use qv_elab_scope::{Scope, bind_variables, head_of};
use qv_sexpr::{Expr, Item};
use qv_store::Store;

impl Elaborator {
    /// An application is entered.
    pub fn enter_application(
        &mut self,
        store: &mut Store,
        scope: &Scope,
        expr: &Expr,
        place: u64,
        at: u64,
        close: u64,
    ) -> Result<Next, ElabFault>
        requires expr { IsExpr expr.now }
        requires list { IsPossible (λ defs end given.
            IsScopeIn store.old scope.now defs
            × IsInList (source expr.now end defs) store.old (state_of self.old) at close place
            (Application) given) }
        ensures next { (defs : Defs) (end : ℕ) (given : Result Seen Fault) →
            IsScopeIn store.old scope.now defs →
            IsInList (source expr.now end defs) store.old (state_of self.old) at close place
            (Application) given →
            IsNext (source expr.now end defs) store.new (state_of self.new) given result }
        ensures begins { (defs : Defs) (end : ℕ) (given : Result Seen Fault) →
            IsScopeIn store.old scope.now defs →
            (h : IsInList (source expr.now end defs) store.old (state_of self.old) at close place
            (Application) given) →
            Begins (list_beginning (Application) place h.first h.rest defs) result }
        ensures fewer { IfOk result
            (λ next. steps_left expr.now next < steps_left expr.now (Read at)) }
        ensures grows { Grows store.old store.new }
    {
        let second = behind(&expr.items, at as usize + 1);
        if second == close as usize {
            return Err(ElabFault::At {
                place,
                kind: ElabKind::Form,
            });
        }
        let head_at = at + 1;
        let head = head_of(scope, place, expr, head_at)?;
        let first = self.done.len();
        self.open.reserve(1)?;
        self.open.push_reserved(Open::Application {
            place,
            head,
            head_at,
            first,
        });
        Ok(Next::Read { at: second as u64 })
    }

    /// A `let` is entered.
    pub fn enter_let(
        &mut self,
        store: &mut Store,
        scope: &Scope,
        expr: &Expr,
        place: u64,
        at: u64,
        close: u64,
    ) -> Result<Next, ElabFault>
        requires expr { IsExpr expr.now }
        requires list { IsPossible (λ defs end given.
            IsScopeIn store.old scope.now defs
            × IsInList (source expr.now end defs) store.old (state_of self.old) at close place
            (Let) given) }
        ensures next { (defs : Defs) (end : ℕ) (given : Result Seen Fault) →
            IsScopeIn store.old scope.now defs →
            IsInList (source expr.now end defs) store.old (state_of self.old) at close place
            (Let) given →
            IsNext (source expr.now end defs) store.new (state_of self.new) given result }
        ensures begins { (defs : Defs) (end : ℕ) (given : Result Seen Fault) →
            IsScopeIn store.old scope.now defs →
            (h : IsInList (source expr.now end defs) store.old (state_of self.old) at close place
            (Let) given) →
            Begins (list_beginning (Let) place h.first h.rest defs) result }
        ensures fewer { IfOk result
            (λ next. steps_left expr.now next < steps_left expr.now (Read at)) }
        ensures grows { Grows store.old store.new }
    {
        let second = behind(&expr.items, at as usize + 1);
        let Some(_) = binding(&expr.text, &expr.items, second, close as usize) else {
            return Err(ElabFault::At {
                place,
                kind: ElabKind::Form,
            });
        };
        let start = self.pending.len();
        self.enter_pair(expr, second as u64 + 2, start)
    }

    /// The next pair of a `let` is entered, whose name is an item. The names of the `let` so far
    /// are those from `start` on.
    pub(crate) fn enter_pair(
        &mut self,
        expr: &Expr,
        name_at: u64,
        start: usize,
    ) -> Result<Next, ElabFault>
        requires { (trees : List Term) × IsPossible (λ defs end given.
            IsAtPair (source expr.now end defs) trees (state_of self.old) name_at start given) }
        ensures next { (trees : List Term) (defs : Defs) (end : ℕ) (given : Result Seen Fault) →
            IsAtPair (source expr.now end defs) trees (state_of self.old) name_at start given →
            IsNext (source expr.now end defs) trees (state_of self.new) given result }
        ensures onward { IfOk result
            (λ next. steps_left expr.now next < steps_left expr.now (Read name_at)) }
    {
        let item = &expr.items[name_at as usize];
        let name = name_in(&expr.text, item).unwrap();
        if self.pending.has_from(name, start) {
            return Err(ElabFault::At {
                place: item.place,
                kind: ElabKind::RepeatedName,
            });
        }
        self.open.reserve(1)?;
        self.open.push_reserved(Open::Let { at: name_at, start });
        Ok(Next::Read { at: name_at + 1 })
    }

    /// A quantifier is entered.
    pub fn enter_quantifier(
        &mut self,
        store: &mut Store,
        scope: &Scope,
        expr: &Expr,
        place: u64,
        at: u64,
        close: u64,
        is_universal: bool,
    ) -> Result<Next, ElabFault>
        requires expr { IsExpr expr.now }
        requires list { IsPossible (λ defs end given.
            IsScopeIn store.old scope.now defs
            × IsInList (source expr.now end defs) store.old (state_of self.old) at close place
            (Quantified (quantifier_of is_universal)) given) }
        ensures next { (defs : Defs) (end : ℕ) (given : Result Seen Fault) →
            IsScopeIn store.old scope.now defs →
            IsInList (source expr.now end defs) store.old (state_of self.old) at close place
            (Quantified (quantifier_of is_universal)) given →
            IsNext (source expr.now end defs) store.new (state_of self.new) given result }
        ensures begins { (defs : Defs) (end : ℕ) (given : Result Seen Fault) →
            IsScopeIn store.old scope.now defs →
            (h : IsInList (source expr.now end defs) store.old (state_of self.old) at close place
            (Quantified (quantifier_of is_universal)) given) →
            Begins (list_beginning (Quantified (quantifier_of is_universal)) place h.first h.rest defs) result }
        ensures fewer { IfOk result
            (λ next. steps_left expr.now next < steps_left expr.now (Read at)) }
        ensures grows { Grows store.old store.new }
    {
        let second = behind(&expr.items, at as usize + 1);
        let Some(end) = binding(&expr.text, &expr.items, second, close as usize) else {
            return Err(ElabFault::At {
                place,
                kind: ElabKind::Form,
            });
        };
        let bound = self.bound.len();
        let binders = bind_variables(
            self.alloc,
            store,
            scope,
            expr,
            &mut self.bound,
            second + 1,
            end,
            self.binders,
        )?;
        let inner = expr.items[end + 1].place;
        self.open.reserve(1)?;
        self.open.push_reserved(Open::Quantifier {
            place,
            inner,
            is_universal,
            bound,
        });
        self.binders = binders;
        Ok(Next::Read { at: end as u64 + 1 })
    }

    /// An annotated term is entered.
    pub fn enter_annotated(
        &mut self,
        store: &mut Store,
        scope: &Scope,
        expr: &Expr,
        place: u64,
        at: u64,
        close: u64,
    ) -> Result<Next, ElabFault>
        requires expr { IsExpr expr.now }
        requires list { IsPossible (λ defs end given.
            IsScopeIn store.old scope.now defs
            × IsInList (source expr.now end defs) store.old (state_of self.old) at close place
            (Annotated) given) }
        ensures next { (defs : Defs) (end : ℕ) (given : Result Seen Fault) →
            IsScopeIn store.old scope.now defs →
            IsInList (source expr.now end defs) store.old (state_of self.old) at close place
            (Annotated) given →
            IsNext (source expr.now end defs) store.new (state_of self.new) given result }
        ensures begins { (defs : Defs) (end : ℕ) (given : Result Seen Fault) →
            IsScopeIn store.old scope.now defs →
            (h : IsInList (source expr.now end defs) store.old (state_of self.old) at close place
            (Annotated) given) →
            Begins (list_beginning (Annotated) place h.first h.rest defs) result }
        ensures fewer { IfOk result
            (λ next. steps_left expr.now next < steps_left expr.now (Read at)) }
        ensures grows { Grows store.old store.new }
    {
        let items: &[Item] = &expr.items;
        let text: &[u8] = &expr.text;
        let second = behind(items, at as usize + 1);
        if second == close as usize {
            return Err(ElabFault::At {
                place,
                kind: ElabKind::Form,
            });
        }
        let from = behind(items, second);
        if !are_attributes(text, items, from, close as usize) {
            return Err(ElabFault::At {
                place,
                kind: ElabKind::Form,
            });
        }
        match naming_of(text, items, from, close as usize) {
            Naming::Unnamed | Naming::Named => {
                let bound = self.bound.len();
                self.open.reserve(1)?;
                self.open.push_reserved(Open::Passing { close, bound });
                Ok(Next::Read { at: second as u64 })
            }
            Naming::Misnamed => Err(ElabFault::At {
                place,
                kind: ElabKind::Form,
            }),
        }
    }
}
