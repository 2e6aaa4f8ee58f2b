//! Simplification.

ghost use Rattle.std.specs.Prelude.{◌≡◌, ◌<◌, ◌≤◌, [], ◌∷◌, IfOk, length, true};
ghost use Rattle.qv_words.specs.Tree.{Tree, Apply, Cons, Nil, IsQuantifierFree};
ghost use Rattle.qv_words.specs.declared.op.Op.TheVariants.{Equal};
ghost use Rattle.qv_words.specs.Clauses.{nodes};
ghost use Rattle.qv_words.specs.Passes.{truth_literal, IsSimple};
ghost use Rattle.qv_words.specs.PassLaws.{StandsFor};
ghost use Rattle.qv_store.specs.Nodes.{tree_at};
ghost use Rattle.qv_store.specs.Stores.{StandsAt, AreShared, Grows};
ghost use Rattle.qv_rewrite.specs.declared.rewriting.Rewriting.TheVariants.{Simplify};
ghost use Rattle.qv_rewrite.specs.Sweep.{swept};

use crate::rewriting::Rewriting;
use crate::sweeping::sweep_one;
use qv_store::{Id, NoMemory, Store};
use std::alloc::Global;
use std::collections::HashMap;

/// A term of the same value under all values of its constants and variables, which it has among its
/// own: one that no rule fits any more, with no more distinct nodes, and `true` where the term is
/// an equation of a term with itself. The term has no quantifiers. Where memory runs out the
/// store may hold further terms.
pub fn simplify(alloc: Global, store: &mut Store, id: Id) -> Result<Id, NoMemory>
    requires id { id < length store.old }
    requires free { IsQuantifierFree (tree_at store.old id) }
    ensures below { IfOk result (λ new. new < length store.new) }
    ensures stands_for { IfOk result (λ new.
        StandsFor (tree_at store.new new) (tree_at store.old id)) }
    ensures simple { IfOk result (λ new. IsSimple (tree_at store.new new)) }
    ensures no_more { IfOk result (λ new. length (nodes (tree_at store.new new ∷ []))
        ≤ length (nodes (tree_at store.old id ∷ []))) }
    ensures itself { IfOk result (λ new.
        (t : Tree) → tree_at store.old id ≡ Apply Equal (Cons t (Cons t Nil)) →
        tree_at store.new new ≡ truth_literal true) }
    ensures grows { Grows store.old store.new }
    ensures shared { AreShared store.new }
{
    let new = simplified(alloc, store, id)?;
    Ok(new)
}

// What a sweep by all rules makes of a term.
fn simplified(alloc: Global, store: &mut Store, id: Id) -> Result<Id, NoMemory>
    requires id { id < length store.old }
    requires free { IsQuantifierFree (tree_at store.old id) }
    ensures swept { IfOk result (λ new. StandsAt store.new new
        (swept Simplify (tree_at store.old id))) }
    ensures was { AreShared store.old }
    ensures grows { Grows store.old store.new }
    ensures shared { AreShared store.new }
{
    let _few = store.len();
    let mut made = HashMap::new(alloc);
    sweep_one(alloc, store, Rewriting::Simplify, &mut made, id)
}
