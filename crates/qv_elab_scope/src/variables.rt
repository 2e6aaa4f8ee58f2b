//! The variables of quantifiers, as names.

ghost use Rattle.std.specs.Prelude.{◌≡◌, ◌≤◌, ℕ, List, Some, length};
ghost use Rattle.qv_sexpr.specs.Script.{Trees};
ghost use Rattle.qv_sexpr.specs.Items.{IsExpr, StandAll};
ghost use Rattle.qv_store.specs.Stores.{Grows};
ghost use Rattle.qv_elab_defs.specs.Shapes.{Pair, pairs_of};
ghost use Rattle.qv_elab_defs.specs.Scopes.{Scope as Defs};
ghost use Rattle.qv_elab_scope.specs.Kept.{IsScopeIn};
ghost use Rattle.qv_elab_scope.specs.Quantifying.{IsPairAt, BindsOne, Binds};

use crate::scope::Scope;
use crate::sorts::scoped_sort;
use qv_elab_defs::ElabFault;
use qv_elab_items::{NamedIds, behind, name_in};
use qv_sexpr::Expr;
use qv_store::{Node, Store};
use std::alloc::Global;

/// The variable of a pair of a name and a sort, which begins at an item, is bound at this level.
/// The next level is answered.
fn bind_variable(
    alloc: Global,
    store: &mut Store,
    scope: &Scope,
    expr: &Expr,
    bound: &mut NamedIds,
    at: usize,
    level: u64,
) -> Result<u64, ElabFault>
    requires expr { IsExpr expr.now }
    requires scope { (defs : Defs) × IsScopeIn store.old scope.now defs }
    requires pair { (p : Pair) × IsPairAt expr.now at p }
    ensures binds { (defs : Defs) (p : Pair) → IsScopeIn store.old scope.now defs →
        IsPairAt expr.now at p → BindsOne store.new defs level p bound.old bound.new result }
    ensures grows { Grows store.old store.new }
{
    let sort = scoped_sort(scope, expr, at as u64 + 2)?;
    let name = name_in(&expr.text, &expr.items[at + 1]).unwrap();
    let Some(below) = level.checked_add(1) else {
        return Err(ElabFault::NoMemory);
    };
    let id = store.put(Node::Var { level, sort })?;
    bound.push(alloc, name, id)?;
    Ok(below)
}

/// The variables of pairs are bound, which stand from one item to before another, the first at this
/// level. The level behind them is answered.
pub fn bind_variables(
    alloc: Global,
    store: &mut Store,
    scope: &Scope,
    expr: &Expr,
    bound: &mut NamedIds,
    from: usize,
    to: usize,
    level: u64,
) -> Result<u64, ElabFault>
    requires expr { IsExpr expr.now }
    requires scope { (defs : Defs) × IsScopeIn store.old scope.now defs }
    requires within { to ≤ length expr.now.items.items }
    requires pairs { (pairs : Trees) × (ps : List Pair) × (pairs_of pairs ≡ Some ps)
        × StandAll expr.now.items.items expr.now.text.items from pairs to }
    ensures binds { (defs : Defs) (pairs : Trees) (ps : List Pair) →
        IsScopeIn store.old scope.now defs → pairs_of pairs ≡ Some ps →
        StandAll expr.now.items.items expr.now.text.items from pairs to →
        Binds store.new defs level ps bound.old bound.new result }
    ensures grows { Grows store.old store.new }
{
    let mut at = from;
    let mut below = level;
    'variables: while at < to {
        below = bind_variable(alloc, store, scope, expr, bound, at, below)?;
        at = behind(&expr.items, at);
    }
    Ok(below)
}
