//! A scope with its store.

ghost use Rattle.qv_sexpr.specs.Items.{IsExpr};
ghost use Rattle.qv_elab_cases.specs.Sessions.{IsKept};

use crate::items::{begins, name_at, parts_of};
use crate::printing::{say_sort, say_term};
use crate::scopes::{close, declare, define, name_sort, open, term_of};
use qv_cases_rows::Answer;
use qv_elab::{ElabFault, Scope, ScopeFault, scoped_sort};
use qv_sexpr::Expr;
use qv_store::Store;
use std::alloc::Global;

#[derive(Drop)]
pub struct Session {
    alloc: Global,
    store: Store,
    scope: Scope,
}

impl Session {
    /// Nothing is in force.
    pub fn new(alloc: Global) -> Session
        ensures { IsKept result.store result.scope }
    {
        Session {
            alloc,
            store: Store::new(alloc),
            scope: Scope::new(alloc),
        }
    }

    /// Follows a command.
    pub fn answer(&mut self, expr: &Expr, out: &mut Answer)
        requires expr { IsExpr expr.now }
        requires kept { IsKept self.old.store self.old.scope }
        ensures kept { IsKept self.new.store self.new.scope }
    {
        match parts_of(self.alloc, expr) {
            Some(parts) => self.follow(expr, &parts, out),
            None => out.refuse(),
        }
    }

    fn follow(&mut self, expr: &Expr, parts: &[u64], out: &mut Answer)
        requires expr { IsExpr expr.now }
        requires kept { IsKept self.old.store self.old.scope }
        ensures kept { IsKept self.new.store self.new.scope }
    {
        let name = match parts.first() {
            Some(head) => name_at(expr, *head).unwrap_or(b"".as_slice()),
            None => b"".as_slice(),
        };
        match parts {
            [_] => self.level(name, out),
            [_, at] => self.read(name, expr, *at, out),
            [_, x, sort] if name == b"const".as_slice() => self.constant(expr, *x, *sort, out),
            [_, x, sort] if name == b"sort".as_slice() => self.sort(expr, *x, *sort, out),
            [_, x, ps, sort, body] if name == b"define".as_slice() => self.definition(
                expr, *x, *ps, *sort, *body, out,
            ),
            _ => out.refuse(),
        }
    }

    // `(open)`, `(close)`
    fn level(&mut self, name: &[u8], out: &mut Answer)
        requires kept { IsKept self.old.store self.old.scope }
        ensures kept { IsKept self.new.store self.new.scope }
    {
        if name == b"open".as_slice() {
            out.done(open(&self.store, &mut self.scope));
        } else if name == b"close".as_slice() {
            out.done(close(&self.store, &mut self.scope));
        } else {
            out.refuse();
        }
    }

    // `(sort S)`, `(term t)`
    fn read(&mut self, name: &[u8], expr: &Expr, at: u64, out: &mut Answer)
        requires expr { IsExpr expr.now }
        requires kept { IsKept self.old.store self.old.scope }
        ensures kept { IsKept self.new.store self.new.scope }
    {
        if !begins(expr, at) {
            out.refuse();
        } else if name == b"sort".as_slice() {
            match scoped_sort(&self.scope, expr, at) {
                Ok(sort) => say_sort(out, sort),
                Err(fault) => say_fault(out, fault),
            }
        } else if name == b"term".as_slice() {
            match term_of(self.alloc, &mut self.store, &self.scope, expr, at) {
                Ok(id) => say_term(self.alloc, out, &self.store, id),
                Err(fault) => say_fault(out, fault),
            }
        } else {
            out.refuse();
        }
    }

    // `(const x S)`
    fn constant(&mut self, expr: &Expr, x: u64, sort: u64, out: &mut Answer)
        requires expr { IsExpr expr.now }
        requires kept { IsKept self.old.store self.old.scope }
        ensures kept { IsKept self.new.store self.new.scope }
    {
        let Some(name) = name_at(expr, x) else {
            out.refuse();
            return;
        };
        if !begins(expr, sort) {
            out.refuse();
            return;
        }
        match scoped_sort(&self.scope, expr, sort) {
            Ok(sort) => say_declared(out, declare(&self.store, &mut self.scope, name, sort)),
            Err(fault) => say_fault(out, fault),
        }
    }

    // `(sort x S)`
    fn sort(&mut self, expr: &Expr, x: u64, sort: u64, out: &mut Answer)
        requires expr { IsExpr expr.now }
        requires kept { IsKept self.old.store self.old.scope }
        ensures kept { IsKept self.new.store self.new.scope }
    {
        let Some(name) = name_at(expr, x) else {
            out.refuse();
            return;
        };
        if !begins(expr, sort) {
            out.refuse();
            return;
        }
        match scoped_sort(&self.scope, expr, sort) {
            Ok(sort) => say_named(out, name_sort(&self.store, &mut self.scope, name, sort)),
            Err(fault) => say_fault(out, fault),
        }
    }

    // `(define f ((x S) ..) S t)`
    fn definition(&mut self, expr: &Expr, x: u64, ps: u64, sort: u64, at: u64, out: &mut Answer)
        requires expr { IsExpr expr.now }
        requires kept { IsKept self.old.store self.old.scope }
        ensures kept { IsKept self.new.store self.new.scope }
    {
        let Some(name) = name_at(expr, x) else {
            out.refuse();
            return;
        };
        if !begins(expr, ps) || !begins(expr, sort) || !begins(expr, at) {
            out.refuse();
            return;
        }
        let defined = define(
            self.alloc,
            &mut self.store,
            &mut self.scope,
            name,
            expr,
            ps,
            sort,
            at,
        );
        match defined {
            Some(Ok(kept)) => say_defined(out, kept),
            Some(Err(fault)) => say_fault(out, fault),
            None => out.refuse(),
        }
    }
}

fn say_declared(out: &mut Answer, declared: Option<Result<u64, ScopeFault>>) {
    match declared {
        Some(Ok(index)) => {
            out.put('c');
            out.show(index);
        }
        Some(Err(fault)) => say_in_use(out, fault),
        None => out.refuse(),
    }
}

fn say_named(out: &mut Answer, named: Option<Result<(), ScopeFault>>) {
    match named {
        Some(defined) => say_defined(out, defined),
        None => out.refuse(),
    }
}

fn say_defined(out: &mut Answer, defined: Result<(), ScopeFault>) {
    match defined {
        Ok(()) => out.say("ok"),
        Err(fault) => say_in_use(out, fault),
    }
}

fn say_in_use(out: &mut Answer, fault: ScopeFault) {
    match fault {
        ScopeFault::NameInUse => out.say("name in use"),
        ScopeFault::NoMemory => out.refuse(),
    }
}

fn say_fault(out: &mut Answer, fault: ElabFault) {
    match fault {
        ElabFault::At { place, kind } => {
            out.debug(kind);
            out.put('@');
            out.show(place);
        }
        ElabFault::NoMemory => out.refuse(),
    }
}
