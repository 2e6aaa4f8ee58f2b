//! Heads applied to terms.

ghost use Rattle.std.specs.Prelude.{◌≡◌, ◌<◌, ◌≤◌, ◌++◌, ℕ, All, List, Result, OnOk, length};
ghost use Rattle.std.specs.Prelude.{option_and_then};
ghost use Rattle.std.specs.Option.{option_map};
ghost use Rattle.qv_words.specs.declared.sort.Sort.{Sort};
ghost use Rattle.qv_words.specs.Tree.{Tree as Term};
ghost use Rattle.qv_words.specs.Sorted.{free_levels};
ghost use Rattle.qv_store.specs.Stores.{Grows};
ghost use Rattle.qv_store.specs.Walks.{named};
ghost use Rattle.qv_elab_defs.specs.Faults.{Fault};
ghost use Rattle.qv_elab_defs.specs.Scopes.{Definition, Entry, Scope as Defs};
ghost use Rattle.qv_elab_defs.specs.Heads.{Head as Meant, Macro as Used};
ghost use Rattle.qv_elab_scope.specs.declared.heads.Head.TheVariants.{Macro};
ghost use Rattle.qv_elab_defs.specs.Applying.{apply, depth_of, depth_limit};
ghost use Rattle.qv_elab_defs.specs.Answers.{Answers};
ghost use Rattle.qv_elab_defs.specs.Beginnings.{Begins};
ghost use Rattle.qv_elab_defs.specs.TreeLaws.{IsScope};
ghost use Rattle.qv_elab_scope.specs.Kept.{IsKeptFor};
ghost use Rattle.qv_elab_scope.specs.Force.{stands_for};
ghost use Rattle.qv_elab_scope.specs.Headed.{name_at};
ghost use Rattle.qv_elab_defs.specs.Looking.{Look};
ghost use Rattle.qv_elab_scope.specs.WatchedArgs.{watched_at};
ghost use Rattle.qv_elab_macros.specs.Checked.{IsCheckedBy, Sees};
ghost use Rattle.qv_elab_defs.specs.Looking.{applied_looks};
ghost use Rattle.qv_elab_scope.specs.Ids.{IsApplied, applied_at};

use crate::heads::Head;
use crate::scope::{Kept, Scope};
use crate::watching::watch_args;
use qv_elab_apply::{apply_distinct, apply_operator};
use qv_elab_defs::ElabFault;
use qv_elab_items::name_in;
use qv_elab_macros::{Watched, use_definition};
use qv_sexpr::Expr;
use qv_store::{Id, NoMemory, Store};
use std::alloc::Global;

/// A use of a definition that is kept, with these arguments.
pub(crate) fn use_kept(
    alloc: Global,
    store: &mut Store,
    place: u64,
    binders: u64,
    kept: &Kept,
    args: &[Id],
) -> Result<Id, ElabFault>
    requires args { All (λ id. id < length store.old) args.now }
    requires levels { All (λ t. All (λ leaf. leaf.0 < binders) (free_levels t))
        (named store.old args.now) }
    requires shallow { All (λ t. depth_of t ≤ depth_limit) (named store.old args.now) }
    requires kept { (scope : Defs) × (entry : Entry) × IsScope scope
        × IsKeptFor store.old scope kept.now entry }
    ensures answers { (scope : Defs) (sorts : List Sort)
        (read : ℕ → List Term → Result Term Fault) → IsScope scope →
        IsKeptFor store.old scope kept.now (Definition sorts read) →
        Answers store.new (apply place binders (Used sorts read) (named store.old args.now))
        result }
    ensures begins { (scope : Defs) (sorts : List Sort)
        (read : ℕ → List Term → Result Term Fault) → IsScope scope →
        IsKeptFor store.old scope kept.now (Definition sorts read) →
        Begins (apply place binders (Used sorts read) (named store.old args.now)) result }
    ensures grows { Grows store.old store.new }
{
    match kept {
        Kept::Definition { sorts, body } => {
            use_definition(alloc, store, place, binders, sorts, body, args)
        }
        Kept::Constant { .. } | Kept::Synonym { .. } => Err(ElabFault::NoMemory),
    }
}

/// A use of the definition whose name stands at an item.
fn use_named(
    alloc: Global,
    store: &mut Store,
    scope: &Scope,
    expr: &Expr,
    binders: u64,
    place: u64,
    head_at: u64,
    args: &[Id],
) -> Result<Id, ElabFault>
    requires ids { All (λ id. id < length store.old) args.now }
    requires applied { (defs : Defs) × (meant : Meant) × (ts : List Term)
        × IsApplied store.old scope.now expr.now binders (Macro) head_at args.now defs meant ts }
    ensures answers { (defs : Defs) (meant : Meant) (ts : List Term) →
        IsApplied store.old scope.now expr.now binders (Macro) head_at args.now defs meant ts →
        Answers store.new (applied_at place binders meant ts) result }
    ensures grows { Grows store.old store.new }
{
    let Some(item) = expr.items.get(head_at as usize) else {
        return Err(ElabFault::NoMemory);
    };
    let Some(name) = name_in(&expr.text, item) else {
        return Err(ElabFault::NoMemory);
    };
    let Some(kept) = scope.find(name) else {
        return Err(ElabFault::NoMemory);
    };
    use_kept(alloc, store, place, binders, kept, args)
}

/// A head, which stands at an item, applied to terms below so many binders.
fn apply_head(
    alloc: Global,
    store: &mut Store,
    scope: &Scope,
    expr: &Expr,
    binders: u64,
    place: u64,
    head: Head,
    head_at: u64,
    args: &[Id],
) -> Result<Id, ElabFault>
    requires ids { All (λ id. id < length store.old) args.now }
    requires applied { (defs : Defs) × (meant : Meant) × (ts : List Term)
        × IsApplied store.old scope.now expr.now binders head head_at args.now defs meant ts }
    ensures answers { (defs : Defs) (meant : Meant) (ts : List Term) →
        IsApplied store.old scope.now expr.now binders head head_at args.now defs meant ts →
        Answers store.new (applied_at place binders meant ts) result }
    ensures grows { Grows store.old store.new }
{
    match head {
        Head::Operator(op) => apply_operator(alloc, store, place, op, args),
        Head::Distinct => apply_distinct(alloc, store, place, args),
        Head::Macro => use_named(alloc, store, scope, expr, binders, place, head_at, args),
    }
}

// What stands for the name at an item.
fn kept_at<'a>(scope: &'a Scope, expr: &Expr, head_at: u64) -> Option<&'a Kept>
    ensures { option_map (λ kept. kept.now) result ≡ option_and_then
        (λ name. stands_for name scope.now)
        (name_at expr.now.text.items expr.now.items.items head_at) }
{
    let item = expr.items.get(head_at as usize)?;
    let name = name_in(&expr.text, item)?;
    scope.find(name)
}

// If a head, which stands at an item, is a definition, the arguments of its use are watched.
fn watch_use(
    scope: &Scope,
    expr: &Expr,
    head: Head,
    head_at: u64,
    args: &[Id],
    watched: &mut Vec<Watched>,
) -> Result<(), NoMemory>
    ensures { OnOk result (watched.new.items
        ≡ watched.old.items ++ watched_at scope.now expr.now head head_at args.now) }
{
    let Head::Macro = head else {
        return Ok(());
    };
    let Some(kept) = kept_at(scope, expr, head_at) else {
        return Ok(());
    };
    match kept {
        Kept::Definition { body, .. } => watch_args(&body.depths, args, watched),
        Kept::Constant { .. } | Kept::Synonym { .. } => Ok(()),
    }
}

/// A head, which stands at an item, applied to terms below so many binders. The term is watched,
/// and before it the arguments of a use.
pub fn apply_watched(
    alloc: Global,
    store: &mut Store,
    scope: &Scope,
    expr: &Expr,
    binders: u64,
    place: u64,
    head: Head,
    head_at: u64,
    args: &[Id],
    watched: &mut Vec<Watched>,
) -> Result<Id, ElabFault>
    requires ids { All (λ id. id < length store.old) args.now }
    requires applied { (defs : Defs) × (meant : Meant) × (ts : List Term)
        × IsApplied store.old scope.now expr.now binders head head_at args.now defs meant ts }
    ensures sees { (defs : Defs) (meant : Meant) (ts : List Term) (looks : List Look) →
        IsApplied store.old scope.now expr.now binders head head_at args.now defs meant ts →
        IsCheckedBy store.old watched.old.items looks →
        Sees store.new watched.new.items (applied_looks place binders meant ts looks) result }
    ensures grows { Grows store.old store.new }
{
    watch_use(scope, expr, head, head_at, args, watched)?;
    let id = apply_head(
        alloc, store, scope, expr, binders, place, head, head_at, args,
    )?;
    watched.reserve(1)?;
    watched.push_reserved(Watched { id, depth: 0 });
    Ok(id)
}
