//! One pass over a list of formulas.

ghost use Rattle.std.specs.Prelude.{◌≡◌, ◌<◌, All, IfOk, length};
ghost use Rattle.qv_words.specs.Tree.{IsQuantifierFree};
ghost use Rattle.qv_words.specs.Sums.{sum_pass};
ghost use Rattle.qv_store.specs.Nodes.{tree_at};
ghost use Rattle.qv_store.specs.Stores.{Grows};
ghost use Rattle.qv_store.specs.Walks.{named};
ghost use Rattle.qv_rewrite_passes.specs.Passes.{behind};
ghost use Rattle.qv_rewrite_passes.specs.Xors.{xor_pass};
ghost use Rattle.qv_rewrite_passes.specs.Simps.{simp_pass};

use qv_rewrite_passes::Pass;
use qv_rewrite_simps::simp;
use qv_rewrite_sums::sum;
use qv_rewrite_xors::xor;
use qv_store::{Id, NoMemory, Store};
use std::alloc::Global;

/// The formulas that a pass makes of these, which have no quantifiers. Where memory runs out the
/// store may hold further terms.
pub fn take(alloc: Global, store: &mut Store, pass: Pass, list: &[Id]) -> Result<Vec<Id>, NoMemory>
    requires below { All (λ id. id < length store.old) list.now }
    requires free { All (λ id. IsQuantifierFree (tree_at store.old id)) list.now }
    ensures list { IfOk result (λ ids. named store.new ids.items
        ≡ behind pass (named store.old list.now)) }
    ensures below { IfOk result (λ ids. All (λ id. id < length store.new) ids.items) }
    ensures free { IfOk result (λ ids. All (λ id. IsQuantifierFree (tree_at store.new id))
        ids.items) }
    ensures grows { Grows store.old store.new }
{
    let _terms = store.len();
    match pass {
        Pass::By(rule) => qv_rewrite::pass(alloc, store, rule, list),
        Pass::Sum => sum_all(alloc, store, list),
        Pass::Xor => xor_all(alloc, store, list),
        Pass::Simp => simp_all(alloc, store, list),
    }
}

// The terms of the formulas' sums.
fn sum_all(alloc: Global, store: &mut Store, list: &[Id]) -> Result<Vec<Id>, NoMemory>
    requires { All (λ id. id < length store.old) list.now }
    ensures list { IfOk result (λ ids. named store.new ids.items
        ≡ sum_pass (named store.old list.now)) }
    ensures below { IfOk result (λ ids. All (λ id. id < length store.new) ids.items) }
    ensures grows { Grows store.old store.new }
{
    let mut sums = Vec::new(alloc);
    'formulas: for id in list {
        let made = sum(alloc, store, *id)?;
        sums.push(made)?;
    }
    Ok(sums)
}

// The terms of the formulas' chains of exclusive or.
fn xor_all(alloc: Global, store: &mut Store, list: &[Id]) -> Result<Vec<Id>, NoMemory>
    requires { All (λ id. id < length store.old) list.now }
    ensures list { IfOk result (λ ids. named store.new ids.items
        ≡ xor_pass (named store.old list.now)) }
    ensures below { IfOk result (λ ids. All (λ id. id < length store.new) ids.items) }
    ensures grows { Grows store.old store.new }
{
    let mut chains = Vec::new(alloc);
    'formulas: for id in list {
        let made = xor(alloc, store, *id)?;
        chains.push(made)?;
    }
    Ok(chains)
}

// The formulas behind small rules.
fn simp_all(alloc: Global, store: &mut Store, list: &[Id]) -> Result<Vec<Id>, NoMemory>
    requires below { All (λ id. id < length store.old) list.now }
    requires free { All (λ id. IsQuantifierFree (tree_at store.old id)) list.now }
    ensures list { IfOk result (λ ids. named store.new ids.items
        ≡ simp_pass (named store.old list.now)) }
    ensures below { IfOk result (λ ids. All (λ id. id < length store.new) ids.items) }
    ensures grows { Grows store.old store.new }
{
    let mut simped = Vec::new(alloc);
    'formulas: for id in list {
        let made = simp(alloc, store, *id)?;
        simped.push(made)?;
    }
    Ok(simped)
}
