//! Quantifiers over the variables of a list.

ghost use Rattle.std.specs.Prelude.{◌≡◌, ◌<◌, ◌≤◌, ◌+◌, ◌-◌, ◌^◌, IfOk, length, take};
ghost use Rattle.qv_words.specs.declared.sort.Sort.{Sort};
ghost use Rattle.qv_words.specs.Sorted.{IsSorted};
ghost use Rattle.qv_store.specs.Nodes.{tree_at};
ghost use Rattle.qv_store.specs.Stores.{StandsAt, Grows};
ghost use Rattle.qv_elab_defs.specs.Scopes.{Named};
ghost use Rattle.qv_elab_defs.specs.Applying.{shallow};
ghost use Rattle.qv_elab_defs.specs.Elaborating.{quantified, closed};
ghost use Rattle.qv_elab_defs.specs.Answers.{Answers};
ghost use Rattle.qv_elab_scope.specs.Variables.{quantifier_of};
ghost use Rattle.qv_elab_scope.specs.Quantifying.{IsClosing};

use qv_elab_defs::{DEPTH_LIMIT, ElabFault, ElabKind};
use qv_elab_items::NamedIds;
use qv_store::{Id, NoMemory, Node, Store};
use qv_words::Sort;

/// A quantifier of one variable over a formula.
fn put_quantifier(
    store: &mut Store,
    is_universal: bool,
    level: u64,
    sort: Sort,
    body: Id,
) -> Result<Id, NoMemory>
    requires body { body < length store.old }
    requires sorted { IsSorted
        (quantified (quantifier_of is_universal) level sort (tree_at store.old body)) }
    ensures id { IfOk result (λ id. StandsAt store.new id
        (quantified (quantifier_of is_universal) level sort (tree_at store.old body))) }
    ensures grows { Grows store.old store.new }
{
    if is_universal {
        store.put(Node::All { level, sort, body })
    } else {
        store.put(Node::Ex { level, sort, body })
    }
}

/// A quantifier for each variable that is bound from a place on, over a formula below so many
/// binders, of which theirs are the innermost.
pub fn close_over(
    store: &mut Store,
    place: u64,
    is_universal: bool,
    bound: &NamedIds,
    from: usize,
    binders: u64,
    body: Id,
) -> Result<Id, ElabFault>
    requires body { body < length store.old }
    requires from { from ≤ length bound.now }
    requires binders { length bound.now - from ≤ binders }
    requires closing { (xs : Named Sort) × IsClosing store.old
        (binders - (length bound.now - from)) body
        (take (length bound.now - from) bound.now) xs }
    ensures answers { (xs : Named Sort) →
        IsClosing store.old (binders - (length bound.now - from)) body
        (take (length bound.now - from) bound.now) xs →
        Answers store.new (shallow place (closed (quantifier_of is_universal)
        (binders - (length bound.now - from)) xs (tree_at store.old body))) result }
    ensures grows { Grows store.old store.new }
{
    let count = (bound.len() - from) as u64;
    if store.depth(body).saturating_add(count) > DEPTH_LIMIT {
        return Err(ElabFault::At {
            place,
            kind: ElabKind::DepthLimit,
        });
    }
    let mut id = body;
    let mut at = bound.len();
    'variables: while at > from {
        at -= 1;
        let (_, variable) = bound.at(at);
        let sort = store.sort(variable);
        let level = binders - (bound.len() - at) as u64;
        id = put_quantifier(store, is_universal, level, sort, id)?;
    }
    Ok(id)
}
