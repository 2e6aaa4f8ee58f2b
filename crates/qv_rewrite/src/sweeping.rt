//! Sweeps: each term below others rebuilt once, its arguments first.

ghost use Rattle.std.specs.Prelude.{◌≡◌, ◌<◌, All, None, IfOk, OnOk, length, map, nat_eq};
ghost use Rattle.std.specs.HashMap.{get};
ghost use Rattle.qv_words.specs.Tree.{IsQuantifierFree};
ghost use Rattle.qv_store.specs.Nodes.{tree_at};
ghost use Rattle.qv_store.specs.Stores.{StandsAt, AreShared, Grows};
ghost use Rattle.qv_rewrite.specs.Sweep.{swept};
ghost use Rattle.qv_rewrite.specs.Steps.{AreSwept};

use crate::rebuilding::step;
use crate::rewriting::Rewriting;
use crate::steps::Step;
use qv_store::{Id, NoMemory, Store};
use std::alloc::Global;
use std::collections::HashMap;

// What a sweep by the rules makes of each of these terms.
pub(crate) fn sweep(
    alloc: Global,
    store: &mut Store,
    rewriting: Rewriting,
    list: &[Id],
) -> Result<Vec<Id>, NoMemory>
    requires ids { All (λ id. id < length store.old) list.now }
    requires free { All (λ id. IsQuantifierFree (tree_at store.old id)) list.now }
    ensures swept { IfOk result (λ ids. map (tree_at store.new) ids.items
        ≡ map (swept rewriting) (map (tree_at store.old) list.now)) }
    ensures below { IfOk result (λ ids. All (λ id. id < length store.new) ids.items) }
    ensures grows { Grows store.old store.new }
    ensures shared { AreShared store.new }
{
    let _few = store.len();
    let mut made = HashMap::new(alloc);
    let mut ids = Vec::with_capacity(alloc, list.len())?;
    for id in list {
        ids.push(sweep_below(alloc, store, rewriting, &mut made, *id)?)?;
    }
    Ok(ids)
}

// What a sweep makes of a term, where nothing was made of it yet.
fn sweep_below(
    alloc: Global,
    store: &mut Store,
    rewriting: Rewriting,
    made: &mut HashMap<Id, Id>,
    id: Id,
) -> Result<Id, NoMemory>
    requires id { id < length store.old }
    requires free { IsQuantifierFree (tree_at store.old id) }
    requires shared { AreShared store.old }
    requires made { AreSwept rewriting store.old made.old }
    ensures id { IfOk result (λ new. StandsAt store.new new
        (swept rewriting (tree_at store.old id))) }
    ensures made { OnOk result (AreSwept rewriting store.new made.new) }
    ensures grows { Grows store.old store.new }
    ensures shared { AreShared store.new }
{
    match made.get(&id) {
        Some(new) => Ok(*new),
        None => sweep_one(alloc, store, rewriting, made, id),
    }
}

// The same for a term of which nothing was made. The terms on the way down to the one at hand wait
// for it.
pub(crate) fn sweep_one(
    alloc: Global,
    store: &mut Store,
    rewriting: Rewriting,
    made: &mut HashMap<Id, Id>,
    root: Id,
) -> Result<Id, NoMemory>
    requires id { root < length store.old }
    requires free { IsQuantifierFree (tree_at store.old root) }
    requires missing { get nat_eq made.old root ≡ None }
    requires shared { AreShared store.old }
    requires made { AreSwept rewriting store.old made.old }
    ensures id { IfOk result (λ new. StandsAt store.new new
        (swept rewriting (tree_at store.old root))) }
    ensures made { OnOk result (AreSwept rewriting store.new made.new) }
    ensures grows { Grows store.old store.new }
    ensures shared { AreShared store.new }
{
    let mut waiting = Vec::new(alloc);
    let mut id = root;
    'down: loop {
        match step(alloc, store, rewriting, made, id)? {
            Step::First(kid) => {
                waiting.push(id)?;
                id = kid;
            }
            Step::Made(new) => {
                made.insert(id, new)?;
                match waiting.pop() {
                    Some(parent) => id = parent,
                    None => return Ok(new),
                }
            }
        }
    }
}
