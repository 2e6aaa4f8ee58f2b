//! What is done with a scope and its store.

ghost use Rattle.std.specs.Prelude.{◌≡◌, ◌<◌, ℕ, IfOk, IfSome, IsTrue, false, length, map};
ghost use Rattle.qv_elab_scope.specs.Force.{is_sort_taken};
ghost use Rattle.qv_sexpr.specs.Items.{IsExpr, Begins};
ghost use Rattle.qv_sexpr.specs.Script.{Tree};
ghost use Rattle.qv_sexpr.specs.Items.{Stands};
ghost use Rattle.qv_words.specs.Sort.{IsLawful};
ghost use Rattle.qv_elab_defs.specs.Shapes.{listed_pairs};
ghost use Rattle.qv_elab_defs.specs.TreeLaws.{AreParameters};
ghost use Rattle.qv_elab.specs.ReadBodies.{parameters_of};
ghost use Rattle.qv_elab_cases.specs.Sessions.{IsKept};

use qv_elab::{
    ElabFault, Parameter, Scope, ScopeFault, are_parameters, elaborate, elaborate_body,
    read_parameters, scoped_sort,
};
use qv_sexpr::Expr;
use qv_store::{Id, NoMemory, Store};
use qv_words::Sort;
use std::alloc::Global;

/// The term that an expression stands for.
pub fn term_of(
    alloc: Global,
    store: &mut Store,
    scope: &Scope,
    expr: &Expr,
    at: u64,
) -> Result<Id, ElabFault>
    requires expr { IsExpr expr.now }
    requires at { Begins expr.now at }
    requires kept { IsKept store.old scope.now }
    ensures kept { IsKept store.new scope.now }
{
    elaborate(alloc, store, scope, expr, at)
}

// A sort again, if it is one.
fn lawful(sort: Sort) -> Option<Sort>
    ensures { IfSome result IsLawful }
{
    match sort {
        Sort::Bool => Some(Sort::Bool),
        Sort::Bits(width) => Sort::bits(u128::from(width)),
    }
}

fn declare_lawful(
    store: &Store,
    scope: &mut Scope,
    name: &[u8],
    sort: Sort,
) -> Result<u64, ScopeFault>
    requires lawful { IsLawful sort }
    requires kept { IsKept store.now scope.old }
    ensures kept { IsKept store.now scope.new }
{
    scope.declare(name, sort)
}

/// Declares a constant, unless its sort is none.
pub fn declare(
    store: &Store,
    scope: &mut Scope,
    name: &[u8],
    sort: Sort,
) -> Option<Result<u64, ScopeFault>>
    requires kept { IsKept store.now scope.old }
    ensures kept { IsKept store.now scope.new }
{
    let sort = lawful(sort)?;
    Some(declare_lawful(store, scope, name, sort))
}

fn name_free(store: &Store, scope: &mut Scope, name: &[u8], sort: Sort) -> Result<(), NoMemory>
    requires free { is_sort_taken name.now scope.old ≡ false }
    requires lawful { IsLawful sort }
    requires kept { IsKept store.now scope.old }
    ensures kept { IsKept store.now scope.new }
{
    scope.define_sort(name, sort)
}

fn name_lawful(store: &Store, scope: &mut Scope, name: &[u8], sort: Sort) -> Result<(), ScopeFault>
    requires lawful { IsLawful sort }
    requires kept { IsKept store.now scope.old }
    ensures kept { IsKept store.now scope.new }
{
    if scope.is_sort_taken(name) {
        return Err(ScopeFault::NameInUse);
    }
    match name_free(store, scope, name, sort) {
        Ok(()) => Ok(()),
        Err(_) => Err(ScopeFault::NoMemory),
    }
}

/// Defines a name as a sort, unless that is none.
pub fn name_sort(
    store: &Store,
    scope: &mut Scope,
    name: &[u8],
    sort: Sort,
) -> Option<Result<(), ScopeFault>>
    requires kept { IsKept store.now scope.old }
    ensures kept { IsKept store.now scope.new }
{
    let sort = lawful(sort)?;
    Some(name_lawful(store, scope, name, sort))
}

/// Opens a level.
pub fn open(store: &Store, scope: &mut Scope) -> bool
    requires kept { IsKept store.now scope.old }
    ensures kept { IsKept store.now scope.new }
{
    scope.push(1).is_ok()
}

/// Closes a level, if one is open.
pub fn close(store: &Store, scope: &mut Scope) -> bool
    requires kept { IsKept store.now scope.old }
    ensures kept { IsKept store.now scope.new }
{
    if scope.levels() == 0 {
        return false;
    }
    scope.pop(1);
    true
}

// The parameters of a list, if one begins at an item.
fn parameters_at(
    alloc: Global,
    store: &Store,
    scope: &Scope,
    expr: &Expr,
    at: u64,
) -> Option<Result<Vec<Parameter>, ElabFault>>
    requires kept { IsKept store.now scope.now }
    requires expr { IsExpr expr.now }
    requires at { Begins expr.now at }
    ensures { IfSome result (λ read. IfOk read
        (λ parameters. AreParameters (parameters_of parameters.items))) }
{
    if are_parameters(expr, at) {
        Some(read_parameters(alloc, scope, expr, at))
    } else {
        None
    }
}

// The sorts of parameters.
fn sorts_of(alloc: Global, parameters: &[Parameter]) -> Result<Vec<Sort>, NoMemory>
    ensures { IfOk result (λ sorts. sorts.items ≡ map (λ p. p.sort) parameters.now) }
{
    let mut sorts = Vec::new(alloc);
    'parameters: for (place, parameter) in parameters.iter().enumerate() {
        sorts.push(parameter.sort)?;
    }
    Ok(sorts)
}

// Reads a definition with these parameters and keeps it, unless its name can't be declared.
fn keep(
    alloc: Global,
    store: &mut Store,
    scope: &mut Scope,
    name: &[u8],
    parameters: &[Parameter],
    sort: Sort,
    expr: &Expr,
    at: u64,
) -> Result<Result<(), ScopeFault>, ElabFault>
    requires expr { IsExpr expr.now }
    requires at { Begins expr.now at }
    requires parameters { AreParameters (parameters_of parameters.now) }
    requires kept { IsKept store.old scope.old }
    ensures kept { IsKept store.new scope.new }
{
    let sorts = sorts_of(alloc, parameters)?;
    let body = elaborate_body(alloc, store, scope, parameters, sort, expr, at)?;
    Ok(scope.define(name, sorts, body))
}

/// Defines a name by parameters, a sort and a body, each of which begins at an item.
pub fn define(
    alloc: Global,
    store: &mut Store,
    scope: &mut Scope,
    name: &[u8],
    expr: &Expr,
    ps: u64,
    sort: u64,
    body: u64,
) -> Option<Result<Result<(), ScopeFault>, ElabFault>>
    requires expr { IsExpr expr.now }
    requires ps { Begins expr.now ps }
    requires sort { Begins expr.now sort }
    requires body { Begins expr.now body }
    requires kept { IsKept store.old scope.old }
    ensures kept { IsKept store.new scope.new }
{
    let parameters = match parameters_at(alloc, store, scope, expr, ps)? {
        Ok(parameters) => parameters,
        Err(fault) => return Some(Err(fault)),
    };
    match scoped_sort(scope, expr, sort) {
        Ok(sort) => Some(keep(alloc, store, scope, name, &parameters, sort, expr, body)),
        Err(fault) => Some(Err(fault)),
    }
}
