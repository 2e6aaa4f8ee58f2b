//! Parameter lists.

ghost use Rattle.std.specs.Prelude.{◌≡◌, ℕ, [], Some, List, is_some};
ghost use Rattle.qv_sexpr.specs.Script.{Tree};
ghost use Rattle.qv_sexpr.specs.Items.{Stands, IsExpr, Begins};
ghost use Rattle.qv_words.specs.Tree.{Tree as Term};
ghost use Rattle.qv_elab_defs.specs.Scopes.{Scope as Defs};
ghost use Rattle.qv_elab_scope.specs.Kept.{IsScopeIn};
ghost use Rattle.qv_elab_defs.specs.Shapes.{Pair, listed_pairs};
ghost use Rattle.qv_elab.specs.ReadBodies.{ReadsParameters};
ghost use Rattle.qv_elab.specs.ParameterLists.{IsPairIn, Adds};

use crate::bodies::Parameter;
use qv_elab_defs::{ElabFault, ElabKind};
use qv_elab_items::{Names, are_pairs, behind, name_in};
use qv_elab_scope::{Scope, scoped_sort};
use qv_sexpr::{Expr, ItemKind};
use std::alloc::Global;

/// Whether a list of pairs of a symbol and an expression begins at an item; it may be empty.
pub fn are_parameters(expr: &Expr, at: u64) -> bool
    requires expr { IsExpr expr.now }
    requires at { Begins expr.now at }
    ensures { (e : Tree) (to : ℕ) → Stands expr.now.items.items expr.now.text.items at e to →
        result ≡ is_some (listed_pairs e) }
{
    let ItemKind::Open { close } = expr.items[at as usize].kind else {
        return false;
    };
    let from = at as usize + 1;
    from == close as usize || are_pairs(&expr.text, &expr.items, from, close as usize)
}

// The parameter of the pair that begins at an item is added behind others, which have these names.
fn add_parameter(
    alloc: Global,
    scope: &Scope,
    expr: &Expr,
    at: usize,
    names: &mut Names,
    parameters: &mut Vec<Parameter>,
) -> Result<(), ElabFault>
    requires expr { IsExpr expr.now }
    requires pair { (p : Pair) × IsPairIn expr.now at p }
    ensures { (trees : List Term) (defs : Defs) (p : Pair) → IsScopeIn trees scope.now defs →
        IsPairIn expr.now at p →
        Adds defs p names.old names.new parameters.old.items parameters.new.items result }
{
    let item = &expr.items[at + 1];
    let Some(name) = name_in(&expr.text, item) else {
        return Err(ElabFault::NoMemory);
    };
    if names.find(name).is_some() {
        return Err(ElabFault::At {
            place: item.place,
            kind: ElabKind::RepeatedName,
        });
    }
    let sort = scoped_sort(scope, expr, at as u64 + 2)?;
    let own = Vec::from_slice(alloc, name)?;
    parameters.reserve(1)?;
    names.push(alloc, name)?;
    parameters.push_reserved(Parameter { name: own, sort });
    Ok(())
}

/// The parameters of the list that begins at an item, or its first fault.
pub fn read_parameters(
    alloc: Global,
    scope: &Scope,
    expr: &Expr,
    at: u64,
) -> Result<Vec<Parameter>, ElabFault>
    requires scope { (trees : List Term) × (defs : Defs) × IsScopeIn trees scope.now defs }
    requires expr { IsExpr expr.now }
    requires at { Begins expr.now at }
    requires pairs { (e : Tree) × (to : ℕ) × (pairs : List Pair)
        × Stands expr.now.items.items expr.now.text.items at e to
        × (listed_pairs e ≡ Some pairs) }
    ensures read { (trees : List Term) (defs : Defs) (e : Tree) (to : ℕ) (pairs : List Pair) →
        IsScopeIn trees scope.now defs →
        Stands expr.now.items.items expr.now.text.items at e to →
        listed_pairs e ≡ Some pairs → ReadsParameters defs pairs result }
{
    let ItemKind::Open { close } = expr.items[at as usize].kind else {
        return Err(ElabFault::NoMemory);
    };
    let mut names = Names::new(alloc);
    let mut parameters = Vec::new(alloc);
    let mut next = at as usize + 1;
    'pairs: while next < close as usize {
        add_parameter(alloc, scope, expr, next, &mut names, &mut parameters)?;
        next = behind(&expr.items, next);
    }
    Ok(parameters)
}
