//! The own readings of definitions.

ghost use Rattle.std.specs.Prelude.{◌≡◌, ℕ, [], IfOk, IsOk, length};
ghost use Rattle.qv_sexpr.specs.Script.{Tree};
ghost use Rattle.qv_sexpr.specs.Items.{Stands, IsExpr, Begins};
ghost use Rattle.qv_words.specs.declared.sort.Sort.{Sort};
ghost use Rattle.qv_words.specs.Rank.{sort_eq};
ghost use Rattle.qv_store.specs.Stores.{Grows};
ghost use Rattle.qv_elab_defs.specs.Beginnings.{Begins as Passes, beginning};
ghost use Rattle.qv_elab_defs.specs.Scopes.{Scope as Defs, Named, below_binders, outermost};
ghost use Rattle.qv_elab_defs.specs.TreeLaws.{AreParameters};
ghost use Rattle.qv_elab.specs.ReadBodies.{parameters_of, Reads};
ghost use Rattle.qv_elab_scope.specs.Kept.{IsScopeIn};
ghost use Rattle.qv_elab_defs.specs.OpenTrees.{AreLawful};
ghost use Rattle.qv_elab_scope.specs.Ids.{AreVariables};
ghost use Rattle.qv_elab_frames.specs.Loop.{state_of};
ghost use Rattle.qv_elab.specs.Begun.{IsBegun};

use crate::elaborating::run;
use qv_elab_defs::{ElabFault, ElabKind};
use qv_elab_frames::Elaborator;
use qv_elab_items::NamedIds;
use qv_elab_macros::{Body, reading_of};
use qv_elab_scope::Scope;
use qv_sexpr::Expr;
use qv_store::{NoMemory, Node, Store};
use qv_words::Sort;
use std::alloc::Global;

/// A parameter of a definition.
#[derive(Drop)]
pub struct Parameter {
    pub name: Vec<u8>,
    pub sort: Sort,
}

// The names of parameters, as variables of which the first is of level 0.
fn parameter_names(
    alloc: Global,
    store: &mut Store,
    parameters: &[Parameter],
) -> Result<NamedIds, NoMemory>
    requires { AreLawful (parameters_of parameters.now) }
    ensures names { IfOk result (λ names.
        AreVariables store.new 0 (parameters_of parameters.now) names) }
    ensures none { parameters.now ≡ [] → IsOk result }
    ensures grows { Grows store.old store.new }
{
    let mut names = NamedIds::new(alloc);
    'parameters: for (level, parameter) in parameters.iter().enumerate() {
        let id = store.put(Node::Var {
            level: level as u64,
            sort: parameter.sort,
        })?;
        names.push(alloc, &parameter.name, id)?;
    }
    Ok(names)
}

// Whether sorts are the same.
fn is_same(a: Sort, b: Sort) -> bool
    ensures { result ≡ sort_eq a b }
{
    a == b
}

// The own reading of a definition with so many parameters, which are bound.
fn read_body(
    alloc: Global,
    store: &mut Store,
    scope: &Scope,
    elaborator: &mut Elaborator,
    parameters: usize,
    sort: Sort,
    expr: &Expr,
    at: u64,
) -> Result<Body, ElabFault>
    requires expr { IsExpr expr.now }
    requires at { Begins expr.now at }
    requires scope { (defs : Defs) × IsScopeIn store.old scope.now defs }
    requires begun { (names : Named Sort)
        × IsBegun store.old names (state_of elaborator.old) × (length names ≡ parameters) }
    ensures reads { (defs : Defs) (names : Named Sort) (e : Tree) (to : ℕ) →
        IsScopeIn store.old scope.now defs →
        IsBegun store.old names (state_of elaborator.old) → length names ≡ parameters →
        Stands expr.now.items.items expr.now.text.items at e to →
        Reads store.new defs names sort e result }
    ensures begins { (defs : Defs) (names : Named Sort) (e : Tree) (to : ℕ) →
        IsScopeIn store.old scope.now defs →
        IsBegun store.old names (state_of elaborator.old) →
        Stands expr.now.items.items expr.now.text.items at e to →
        Passes (beginning e (below_binders names (outermost defs))) result }
    ensures grows { Grows store.old store.new }
{
    let place = expr.items[at as usize].place;
    let id = run(elaborator, store, scope, expr, at)?;
    if !is_same(sort, store.sort(id)) {
        return Err(ElabFault::At {
            place,
            kind: ElabKind::Sorts,
        });
    }
    let body = reading_of(alloc, store, id, parameters, &elaborator.watched)?;
    Ok(body)
}

/// What a definition's own reading gives, in a scope and with these parameters, where its body is
/// to have this sort; or its first fault. It is what each use needs (`Scope::define` keeps it).
pub fn elaborate_body(
    alloc: Global,
    store: &mut Store,
    scope: &Scope,
    parameters: &[Parameter],
    sort: Sort,
    expr: &Expr,
    at: u64,
) -> Result<Body, ElabFault>
    requires expr { IsExpr expr.now }
    requires at { Begins expr.now at }
    requires scope { (defs : Defs) × IsScopeIn store.old scope.now defs }
    requires parameters { AreParameters (parameters_of parameters.now) }
    ensures reads { (defs : Defs) (e : Tree) (to : ℕ) → IsScopeIn store.old scope.now defs →
        Stands expr.now.items.items expr.now.text.items at e to →
        Reads store.new defs (parameters_of parameters.now) sort e result }
    ensures begins { (defs : Defs) (e : Tree) (to : ℕ) → IsScopeIn store.old scope.now defs →
        Stands expr.now.items.items expr.now.text.items at e to →
        parameters.now ≡ [] → Passes (beginning e (outermost defs)) result }
    ensures grows { Grows store.old store.new }
{
    let names = parameter_names(alloc, store, parameters)?;
    let count = parameters.len();
    let mut elaborator = Elaborator::below(alloc, names, count as u64);
    read_body(alloc, store, scope, &mut elaborator, count, sort, expr, at)
}
