//! Passes: each application of terms rewritten once where one rule fits.

ghost use Rattle.std.specs.Prelude.{◌≡◌, ◌<◌, All, IfOk, length, map};
ghost use Rattle.qv_words.specs.Tree.{IsQuantifierFree};
ghost use Rattle.qv_words.specs.Passes.{pass};
ghost use Rattle.qv_store.specs.Nodes.{tree_at};
ghost use Rattle.qv_store.specs.Stores.{AreShared, Grows};

use crate::rewriting::Rewriting;
use crate::sweeping::sweep;
use qv_store::{Id, NoMemory, Store};
use qv_words::Rule;
use std::alloc::Global;

/// The terms that the rule's pass makes of these, which have no quantifiers. Where memory runs out
/// the store may hold further terms.
pub fn pass(alloc: Global, store: &mut Store, rule: Rule, list: &[Id]) -> Result<Vec<Id>, NoMemory>
    requires ids { All (λ id. id < length store.old) list.now }
    requires free { All (λ id. IsQuantifierFree (tree_at store.old id)) list.now }
    ensures passed { IfOk result (λ ids. map (tree_at store.new) ids.items
        ≡ pass rule (map (tree_at store.old) list.now)) }
    ensures below { IfOk result (λ ids. All (λ id. id < length store.new) ids.items) }
    ensures grows { Grows store.old store.new }
    ensures shared { AreShared store.new }
{
    let ids = sweep(alloc, store, Rewriting::Pass(rule), list)?;
    Ok(ids)
}
