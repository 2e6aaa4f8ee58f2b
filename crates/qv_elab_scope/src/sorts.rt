//! Sorts by their expressions in a scope.

ghost use Rattle.std.specs.Prelude.{◌≡◌, ℕ, List, option_and_then};
ghost use Rattle.std.specs.Option.{option_map};
ghost use Rattle.qv_sexpr.specs.Script.{Tree};
ghost use Rattle.qv_sexpr.specs.Items.{Stands, IsExpr, Begins};
ghost use Rattle.qv_words.specs.Tree.{Tree as Term};
ghost use Rattle.qv_elab_defs.specs.Scopes.{Scope as Defs};
ghost use Rattle.qv_elab_defs.specs.Synonyms.{scoped_sort};
ghost use Rattle.qv_elab_defs.specs.Answers.{ReadsSort};
ghost use Rattle.qv_elab_scope.specs.Force.{sort_for};
ghost use Rattle.qv_elab_scope.specs.Headed.{name_at};
ghost use Rattle.qv_elab_scope.specs.Kept.{IsScopeIn};

use crate::scope::Scope;
use qv_elab_defs::ElabFault;
use qv_elab_items::{name_in, read_sort};
use qv_sexpr::Expr;
use qv_words::Sort;

// The name at an item, if it is a symbol.
fn name_at(expr: &Expr, at: u64) -> Option<&[u8]>
    ensures { option_map (λ name. name.now) result
        ≡ name_at expr.now.text.items expr.now.items.items at }
{
    let item = expr.items.get(at as usize)?;
    name_in(&expr.text, item)
}

// The sort that the name at an item stands for, if it is one that was defined.
fn named_sort(scope: &Scope, expr: &Expr, at: u64) -> Option<Sort>
    ensures { result ≡ option_and_then (λ name. sort_for name scope.now)
        (name_at expr.now.text.items expr.now.items.items at) }
{
    match name_at(expr, at) {
        Some(name) => scope.find_sort(name),
        None => None,
    }
}

/// The sort that the expression at this item is in a scope, or its first fault.
pub fn scoped_sort(scope: &Scope, expr: &Expr, at: u64) -> Result<Sort, ElabFault>
    requires expr { IsExpr expr.now }
    requires at { Begins expr.now at }
    ensures { (trees : List Term) (defs : Defs) (e : Tree) (to : ℕ) →
        IsScopeIn trees scope.now defs →
        Stands expr.now.items.items expr.now.text.items at e to →
        ReadsSort (scoped_sort defs e) result }
{
    match named_sort(scope, expr, at) {
        Some(sort) => Ok(sort),
        None => read_sort(expr, at),
    }
}
