//! Terms within others that commands give names: a walk over the expressions, with a stack of what
//! is left of them.

ghost use Rattle.std.specs.Prelude.{◌≡◌, ◌<◌, ◌≤◌, ◌+◌, ◌*◌, ◌-◌, ◌∷◌, ℕ, [], List, IfOk, OnOk};
ghost use Rattle.std.specs.Prelude.{reverse, is_some, Result};
ghost use Rattle.std.specs.Option.{option_map};
ghost use Rattle.qv_sexpr.specs.declared.items.Expr.{Expr as Items};
ghost use Rattle.qv_sexpr.specs.Script.{Tree, Trees};
ghost use Rattle.qv_sexpr.specs.Items.{IsExpr, Begins, StandAll};
ghost use Rattle.qv_elab_defs.specs.Shapes.{Pair, Quantifier, Let, Quantified, Annotated, pairs_of};
ghost use Rattle.qv_script_defs.specs.Faults.{Fault};
ghost use Rattle.qv_script_defs.specs.Labels.{Label, nothing, labels_in, labels_all};
ghost use Rattle.qv_script_defs.specs.Commands.{labels_of_body, listed};
ghost use Rattle.qv_script_defs.specs.Parts.{parameters_of};
ghost use Rattle.qv_script_parts.specs.declared.labels.Task.TheVariants.{Each, Below};
ghost use Rattle.qv_script_parts.specs.Parted.{IsPart};
ghost use Rattle.qv_script_parts.specs.Walking.{IsOpen, LeadsTo, IsPossible, work, TellsLabels};
ghost use Rattle.qv_script_parts.specs.Walking.{IsAt, IsAtName, IsWithin, IsOpenAt, IsAround};
ghost use Rattle.qv_script_parts.specs.Walking.{ArePairsAt, is_name_outside, pushed_all};

use crate::annotated::asserted_at;
use qv_elab_items::{Names, Shape, are_pairs, behind, binding, name_in, shape_of};
use qv_script_defs::{ScriptFault, ScriptKind, fault_at};
use qv_sexpr::{Expr, ItemKind};
use qv_store::NoMemory;
use std::alloc::Global;

// Where expressions stand: how many names are bound there, and how many of these are bound outside
// of the innermost term with a name, which stands at a place.
#[derive(Clone, Copy)]
struct Around {
    bound: usize,
    outside: usize,
    place: u64,
}

// What is left.
#[derive(Clone, Copy)]
enum Task {
    // The expressions from an item up to another.
    Each {
        from: usize,
        to: usize,
        around: Around,
    },
    // The same, with the names bound that the list of pairs at an item has.
    Below {
        list: usize,
        from: usize,
        to: usize,
        around: Around,
    },
    // The term with a name that begins at an item ended.
    Named {
        at: usize,
    },
}

#[derive(Drop)]
struct Walk {
    alloc: Global,
    bound: Names,
    // What comes next is the last.
    todo: Vec<Task>,
    // The items at which terms with names begin.
    found: Vec<u64>,
}

// Something more is left, which comes first.
fn leave(todo: &mut Vec<Task>, task: Task) -> Result<(), NoMemory>
    ensures { OnOk result (reverse todo.new.items ≡ task ∷ reverse todo.old.items) }
{
    todo.push(task)?;
    Ok(())
}

impl Walk {
    // Does what comes next.
    fn next(&mut self, expr: &Expr, task: Task) -> Result<(), ScriptFault>
        requires expr { IsExpr expr.now }
        requires walk { IsPossible (IsOpen expr.now (task ∷ reverse self.old.todo.items)
            self.old.bound self.old.found.items) }
        ensures next { (given : Result (List Label) Fault) →
            IsOpen expr.now (task ∷ reverse self.old.todo.items) self.old.bound
            self.old.found.items given →
            LeadsTo expr.now (reverse self.new.todo.items) self.new.bound self.new.found.items
            given result }
        ensures fewer { IfOk result
            (λ _. work (reverse self.new.todo.items) < work (task ∷ reverse self.old.todo.items)) }
    {
        match task {
            Task::Each { from, to, around } => self.each(expr, from, to, around),
            Task::Below {
                list,
                from,
                to,
                around,
            } => self.below(expr, list, from, to, around),
            Task::Named { at } => {
                self.found.reserve(1)?;
                self.found.push_reserved(at as u64);
                Ok(())
            }
        }
    }

    // Enters the next expression of some, and leaves the others.
    fn each(
        &mut self,
        expr: &Expr,
        from: usize,
        to: usize,
        around: Around,
    ) -> Result<(), ScriptFault>
        requires expr { IsExpr expr.now }
        requires walk { IsPossible (IsOpen expr.now
            (Each from to around ∷ reverse self.old.todo.items) self.old.bound
            self.old.found.items) }
        ensures next { (given : Result (List Label) Fault) →
            IsOpen expr.now (Each from to around ∷ reverse self.old.todo.items) self.old.bound
            self.old.found.items given →
            LeadsTo expr.now (reverse self.new.todo.items) self.new.bound self.new.found.items
            given result }
        ensures fewer { IfOk result (λ _. work (reverse self.new.todo.items)
            < work (Each from to around ∷ reverse self.old.todo.items)) }
    {
        if to <= from {
            return Ok(());
        }
        let next = behind(&expr.items, from);
        leave(
            &mut self.todo,
            Task::Each {
                from: next,
                to,
                around,
            },
        )?;
        let item = &expr.items[from];
        match item.kind {
            ItemKind::Open { close } => self.enter(expr, from, close as usize, around),
            _ => self.test(name_in(&expr.text, item), around),
        }
    }

    // A variable that is bound outside of the innermost term with a name is refused.
    fn test(&mut self, name: Option<&[u8]>, around: Around) -> Result<(), ScriptFault>
        ensures next { (expr : Items) (given : Result (List Label) Fault) →
            IsAtName expr (option_map (λ n. n.now) name.entry) around (reverse self.old.todo.items)
            self.old.bound self.old.found.items given →
            LeadsTo expr (reverse self.new.todo.items) self.new.bound self.new.found.items given
            result }
        ensures todo { self.new.todo.items ≡ self.old.todo.items }
    {
        self.bound.truncate(around.bound);
        if is_outside(&self.bound, name, around.outside) {
            return Err(fault_at(around.place, ScriptKind::NotSupported));
        }
        Ok(())
    }

    // Enters a list that is closed at an item.
    fn enter(
        &mut self,
        expr: &Expr,
        at: usize,
        close: usize,
        around: Around,
    ) -> Result<(), ScriptFault>
        requires expr { IsExpr expr.now }
        requires list { IsOpenAt expr.now at close }
        requires walk { IsPossible (IsAt expr.now at around (reverse self.old.todo.items)
            self.old.bound self.old.found.items) }
        ensures next { (given : Result (List Label) Fault) →
            IsAt expr.now at around (reverse self.old.todo.items) self.old.bound
            self.old.found.items given →
            LeadsTo expr.now (reverse self.new.todo.items) self.new.bound self.new.found.items
            given result }
        ensures few { IfOk result (λ _. work (reverse self.new.todo.items)
            ≤ work (reverse self.old.todo.items) + 3 * (close - at)) }
    {
        if close <= at + 1 {
            return Ok(());
        }
        let second = behind(&expr.items, at + 1);
        match shape_of(&expr.text, &expr.items[at + 1]) {
            Shape::Let => self.pairs(expr, at, second, close, around),
            Shape::Universal | Shape::Existential => self.binders(expr, at, second, close, around),
            Shape::Annotated => self.annotated(expr, at, second, close, around),
            Shape::Application => {
                leave(
                    &mut self.todo,
                    Task::Each {
                        from: second,
                        to: close,
                        around,
                    },
                )?;
                Ok(())
            }
            _ => Ok(()),
        }
    }

    // Enters a `let`: the terms of its pairs come first, and then the body below their names.
    fn pairs(
        &mut self,
        expr: &Expr,
        at: usize,
        list: usize,
        close: usize,
        around: Around,
    ) -> Result<(), ScriptFault>
        requires walk { IsPossible (IsWithin expr.now at list close (Let) around
            (reverse self.old.todo.items) self.old.bound self.old.found.items) }
        ensures next { (given : Result (List Label) Fault) →
            IsWithin expr.now at list close (Let) around (reverse self.old.todo.items)
            self.old.bound self.old.found.items given →
            LeadsTo expr.now (reverse self.new.todo.items) self.new.bound self.new.found.items
            given result }
        ensures few { IfOk result (λ _. work (reverse self.new.todo.items)
            ≤ work (reverse self.old.todo.items) + 3 * (close - at)) }
    {
        let _items = &expr.items;
        let Some(end) = binding(&expr.text, &expr.items, list, close) else {
            return Ok(());
        };
        leave(
            &mut self.todo,
            Task::Below {
                list,
                from: end + 1,
                to: close,
                around,
            },
        )?;
        leave(
            &mut self.todo,
            Task::Each {
                from: list + 1,
                to: end,
                around,
            },
        )?;
        Ok(())
    }

    // Enters the body of a quantifier, below its names.
    fn binders(
        &mut self,
        expr: &Expr,
        at: usize,
        list: usize,
        close: usize,
        around: Around,
    ) -> Result<(), ScriptFault>
        requires walk { IsPossible (λ given. (q : Quantifier) × IsWithin expr.now at list close
            (Quantified q) around (reverse self.old.todo.items) self.old.bound
            self.old.found.items given) }
        ensures next { (given : Result (List Label) Fault) (q : Quantifier) →
            IsWithin expr.now at list close (Quantified q) around
            (reverse self.old.todo.items) self.old.bound self.old.found.items given →
            LeadsTo expr.now (reverse self.new.todo.items) self.new.bound self.new.found.items
            given result }
        ensures few { IfOk result (λ _. work (reverse self.new.todo.items)
            ≤ work (reverse self.old.todo.items) + 3 * (close - at)) }
    {
        let _items = &expr.items;
        let Some(end) = binding(&expr.text, &expr.items, list, close) else {
            return Ok(());
        };
        leave(
            &mut self.todo,
            Task::Below {
                list,
                from: end + 1,
                to: close,
                around,
            },
        )?;
        Ok(())
    }

    // Enters the term of an annotated one, which may have a name.
    fn annotated(
        &mut self,
        expr: &Expr,
        at: usize,
        second: usize,
        close: usize,
        around: Around,
    ) -> Result<(), ScriptFault>
        requires expr { IsExpr expr.now }
        requires walk { IsPossible (IsWithin expr.now at second close (Annotated) around
            (reverse self.old.todo.items) self.old.bound self.old.found.items) }
        ensures next { (given : Result (List Label) Fault) →
            IsWithin expr.now at second close (Annotated) around (reverse self.old.todo.items)
            self.old.bound self.old.found.items given →
            LeadsTo expr.now (reverse self.new.todo.items) self.new.bound self.new.found.items
            given result }
        ensures few { IfOk result (λ _. work (reverse self.new.todo.items)
            ≤ work (reverse self.old.todo.items) + 3 * (close - at)) }
    {
        if close <= second {
            return Ok(());
        }
        let to = behind(&expr.items, second);
        let Some(_) = asserted_at(expr, at as u64) else {
            leave(
                &mut self.todo,
                Task::Each {
                    from: second,
                    to,
                    around,
                },
            )?;
            return Ok(());
        };
        leave(&mut self.todo, Task::Named { at })?;
        leave(
            &mut self.todo,
            Task::Each {
                from: second,
                to,
                around: Around {
                    bound: around.bound,
                    outside: around.bound,
                    place: expr.items[at].place,
                },
            },
        )?;
        Ok(())
    }

    // Binds the names of a list of pairs, and goes on below them.
    fn below(
        &mut self,
        expr: &Expr,
        list: usize,
        from: usize,
        to: usize,
        around: Around,
    ) -> Result<(), ScriptFault>
        requires walk { IsPossible (IsOpen expr.now
            (Below list from to around ∷ reverse self.old.todo.items) self.old.bound
            self.old.found.items) }
        ensures next { (given : Result (List Label) Fault) →
            IsOpen expr.now (Below list from to around ∷ reverse self.old.todo.items)
            self.old.bound self.old.found.items given →
            LeadsTo expr.now (reverse self.new.todo.items) self.new.bound self.new.found.items
            given result }
        ensures fewer { IfOk result (λ _. work (reverse self.new.todo.items)
            < work (Below list from to around ∷ reverse self.old.todo.items)) }
    {
        self.bound.truncate(around.bound);
        bind_pairs(self.alloc, &mut self.bound, expr, list)?;
        leave(
            &mut self.todo,
            Task::Each {
                from,
                to,
                around: Around {
                    bound: self.bound.len(),
                    outside: around.outside,
                    place: around.place,
                },
            },
        )?;
        Ok(())
    }
}

// Whether a name is bound, and is one of so many of the oldest.
fn is_outside(bound: &Names, name: Option<&[u8]>, outside: usize) -> bool
    ensures { result ≡ is_name_outside outside (option_map (λ n. n.now) name.entry) bound.now }
{
    match name {
        Some(name) => match bound.find(name) {
            Some(place) => place < outside,
            None => false,
        },
        None => false,
    }
}

// Binds the names of the list of pairs that begins at an item.
fn bind_pairs(alloc: Global, bound: &mut Names, expr: &Expr, list: usize) -> Result<(), NoMemory>
    requires { (ps : List Pair) × ArePairsAt expr.now list ps }
    ensures { (ps : List Pair) → ArePairsAt expr.now list ps →
        OnOk result (bound.new ≡ pushed_all ps bound.old) }
{
    let ItemKind::Open { close } = expr.items[list].kind else {
        return Ok(());
    };
    let mut at = list + 1;
    'pairs: while at < close as usize {
        if let Some(name) = name_in(&expr.text, &expr.items[at + 1]) {
            bound.push(alloc, name)?;
        }
        at = behind(&expr.items, at);
    }
    Ok(())
}

// The terms with names where this is all that is left, from left to right, inner ones first.
fn labels_from(alloc: Global, expr: &Expr, task: Task) -> Result<Vec<u64>, ScriptFault>
    requires expr { IsExpr expr.now }
    requires walk { IsPossible (IsOpen expr.now (task ∷ []) [] []) }
    ensures { (given : Result (List Label) Fault) →
        IsOpen expr.now (task ∷ []) [] [] given → TellsLabels expr.now given result }
{
    let mut walk = Walk {
        alloc,
        bound: Names::new(alloc),
        todo: Vec::new(alloc),
        found: Vec::new(alloc),
    };
    leave(&mut walk.todo, task)?;
    'todo: while let Some(task) = walk.todo.pop() {
        walk.next(expr, task)?;
    }
    Ok(walk.found)
}

// Nothing is bound.
fn outermost() -> Around
    ensures { IsAround [] result nothing }
{
    Around {
        bound: 0,
        outside: 0,
        place: 0,
    }
}

// Whether what stands from an item up to another are parameters, of which there may be none.
fn are_parameters(expr: &Expr, from: usize, to: usize) -> bool
    requires { (inside : Trees) × StandAll expr.now.items.items expr.now.text.items from inside to }
    ensures { (inside : Trees) →
        StandAll expr.now.items.items expr.now.text.items from inside to →
        result ≡ is_some (pairs_of inside) }
{
    if to <= from {
        return true;
    }
    are_pairs(&expr.text, &expr.items, from, to)
}

/// The items at which the terms with names begin that an expression has.
pub fn labels_in(alloc: Global, expr: &Expr, at: u64) -> Result<Vec<u64>, ScriptFault>
    requires expr { IsExpr expr.now }
    requires at { Begins expr.now at }
    ensures { (e : Tree) → IsPart expr.now at e →
        TellsLabels expr.now (labels_in e nothing []) result }
{
    let from = at as usize;
    labels_from(
        alloc,
        expr,
        Task::Each {
            from,
            to: behind(&expr.items, from),
            around: outermost(),
        },
    )
}

/// The same of the expressions in a list.
pub fn labels_listed(alloc: Global, expr: &Expr, at: u64) -> Result<Vec<u64>, ScriptFault>
    requires expr { IsExpr expr.now }
    requires at { Begins expr.now at }
    ensures { (e : Tree) → IsPart expr.now at e →
        TellsLabels expr.now (labels_all (listed e) nothing []) result }
{
    let ItemKind::Open { close } = expr.items[at as usize].kind else {
        return Ok(Vec::new(alloc));
    };
    labels_from(
        alloc,
        expr,
        Task::Each {
            from: at as usize + 1,
            to: close as usize,
            around: outermost(),
        },
    )
}

/// The same of the body of a definition with these parameters.
pub fn labels_below(
    alloc: Global,
    expr: &Expr,
    parameters: u64,
    body: u64,
) -> Result<Vec<u64>, ScriptFault>
    requires expr { IsExpr expr.now }
    requires parameters { Begins expr.now parameters }
    requires body { Begins expr.now body }
    ensures { (e : Tree) (b : Tree) → IsPart expr.now parameters e → IsPart expr.now body b →
        TellsLabels expr.now (labels_of_body (parameters_of e) b) result }
{
    let list = parameters as usize;
    let ItemKind::Open { close } = expr.items[list].kind else {
        return Ok(Vec::new(alloc));
    };
    let close = close as usize;
    if !are_parameters(expr, list + 1, close) {
        let nothing = Vec::new(alloc);
        return Ok(nothing);
    }
    let from = body as usize;
    labels_from(
        alloc,
        expr,
        Task::Below {
            list,
            from,
            to: behind(&expr.items, from),
            around: outermost(),
        },
    )
}
