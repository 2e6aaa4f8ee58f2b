//! Formulas of fewer terms and of the same value.

ghost use Rattle.std.specs.Prelude.{◌≡◌, ◌<◌, ◌≤◌, [], ◌∷◌, IfOk, IsTrue, OnOk, length};
ghost use Rattle.qv_words.specs.Tree.{IsQuantifierFree};
ghost use Rattle.qv_words.specs.Clauses.{nodes};
ghost use Rattle.qv_words.specs.Passes.{IsSimple};
ghost use Rattle.qv_words.specs.PassLaws.{IsPlain, StandsFor};
ghost use Rattle.qv_store.specs.Nodes.{tree_at};
ghost use Rattle.qv_store.specs.Stores.{AreShared, Grows};

use qv_rewrite::simplify;
use qv_rewrite_simps::simp;
use qv_rewrite_sums::sum;
use qv_store::{Id, NoMemory, Store, Walk};
use std::alloc::Global;

// A simplified formula of the same value, over leaves of the old one and with no more terms: behind
// the passes of small rules and of sums too, where that leaves fewer. Where memory runs out the store
// may hold further terms.
pub(crate) fn reduce(alloc: Global, store: &mut Store, formula: Id) -> Result<Id, NoMemory>
    requires id { formula < length store.old }
    requires free { IsQuantifierFree (tree_at store.old formula) }
    ensures below { IfOk result (λ new. new < length store.new) }
    ensures stands_for { IfOk result (λ new.
        StandsFor (tree_at store.new new) (tree_at store.old formula)) }
    ensures simple { IfOk result (λ new. IsSimple (tree_at store.new new)) }
    ensures no_more { IfOk result (λ new. length (nodes (tree_at store.new new ∷ []))
        ≤ length (nodes (tree_at store.old formula ∷ []))) }
    ensures grows { Grows store.old store.new }
    ensures shared { OnOk result (AreShared store.new) }
{
    let simple = simplify(alloc, store, formula)?;
    let summed = simplify_sums(alloc, store, simple)?;
    if has_fewer(alloc, store, summed, simple)? {
        return Ok(summed);
    }
    Ok(simple)
}

// A formula behind the passes of small rules and of sums, simplified.
fn simplify_sums(alloc: Global, store: &mut Store, formula: Id) -> Result<Id, NoMemory>
    requires id { formula < length store.old }
    requires plain { IsPlain (tree_at store.old formula) }
    ensures below { IfOk result (λ new. new < length store.new) }
    ensures stands_for { IfOk result (λ new.
        StandsFor (tree_at store.new new) (tree_at store.old formula)) }
    ensures simple { IfOk result (λ new. IsSimple (tree_at store.new new)) }
    ensures grows { Grows store.old store.new }
    ensures shared { OnOk result (AreShared store.new) }
{
    let small = simp(alloc, store, formula)?;
    let summed = sum(alloc, store, small)?;
    let new = simplify(alloc, store, summed)?;
    Ok(new)
}

// Whether a formula has fewer distinct terms than another.
fn has_fewer(alloc: Global, store: &Store, a: Id, b: Id) -> Result<bool, NoMemory>
    requires first { a < length store.now }
    requires second { b < length store.now }
    requires first_free { IsQuantifierFree (tree_at store.now a) }
    requires second_free { IsQuantifierFree (tree_at store.now b) }
    ensures { IfOk result (λ fewer. IsTrue fewer → length (nodes (tree_at store.now a ∷ []))
        ≤ length (nodes (tree_at store.now b ∷ []))) }
{
    let few = count_terms(alloc, store, a)?;
    let many = count_terms(alloc, store, b)?;
    Ok(few < many)
}

// How many distinct terms a formula has.
fn count_terms(alloc: Global, store: &Store, formula: Id) -> Result<usize, NoMemory>
    requires id { formula < length store.now }
    requires free { IsQuantifierFree (tree_at store.now formula) }
    ensures { IfOk result (λ count. count ≡ length (nodes (tree_at store.now formula ∷ []))) }
{
    let mut walk = Walk::new(alloc);
    walk.visit(store, formula)?;
    Ok(walk.len())
}
