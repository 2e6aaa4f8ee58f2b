//! What the owner of a block takes.

ghost use Rattle.std.specs.Prelude.{◌≡◌, ◌<◌, ◌≤◌, [], All, IfOk, drop, length};
ghost use Rattle.std.specs.List.{AllZip};
ghost use Rattle.qv_words.specs.declared.sort.Sort.TheVariants.{Bool as BoolSort};
ghost use Rattle.qv_words.specs.Word.{sorts_of, values_of};
ghost use Rattle.qv_words.specs.Sorted.{free_levels};
ghost use Rattle.qv_words.specs.Values.{HasWords};
ghost use Rattle.qv_words.specs.Skolem.{IsTermOf};
ghost use Rattle.qv_words.specs.Choice.{AreChosen, IsTrueAt};
ghost use Rattle.qv_words.specs.Linked.{with_terms};
ghost use Rattle.qv_game_entry_laws.specs.BuildingLaws.{IsSimplified};
ghost use Rattle.qv_store.specs.Nodes.{tree_at};
ghost use Rattle.qv_store.specs.Stores.{AreShared, Grows};
ghost use Rattle.qv_store.specs.Walks.{named};
ghost use Rattle.qv_game_regions.specs.Slots.{slots_from};

use crate::reducing::reduce;
use qv_choose::choose;
use qv_store::{Id, NoMemory, Store};
use qv_words::Word;
use std::alloc::Global;

/// Terms for the places of a block, and the region in which they lead to a later one.
#[derive(Debug, Drop)]
pub struct Taken {
    pub terms: Vec<Id>,
    pub region: Id,
}

/// What the owner of the block with the places from `first` on takes, where the later region is
/// true at the point: the chosen terms, and the later region with them put in, simplified, and behind
/// the passes of small rules and of sums where that leaves fewer terms. Also where memory runs out the
/// store keeps what was put.
pub fn take(
    alloc: Global,
    store: &mut Store,
    later: Id,
    first: u64,
    point: &[Word],
) -> Result<Taken, NoMemory>
    requires later { later < length store.old }
    requires formula { IsTermOf (tree_at store.old later) BoolSort }
    requires block { first ≤ length point.now }
    requires places { HasWords [] point.now (tree_at store.old later) }
    requires holds { IsTrueAt (values_of point.now) (tree_at store.old later) }
    ensures chosen { IfOk result (λ taken. AreChosen first (length point.now)
        (values_of point.now) (tree_at store.old later) first (drop first (sorts_of point.now))
        (named store.new taken.terms.items)) }
    ensures region { IfOk result (λ taken. IsSimplified (tree_at store.new taken.region)
        (with_terms first (named store.new taken.terms.items) (tree_at store.old later))) }
    ensures terms { IfOk result (λ taken. All (λ id. id < length store.new) taken.terms.items) }
    ensures below { IfOk result (λ taken. taken.region < length store.new) }
    ensures grows { Grows store.old store.new }
    ensures shared { IfOk result (λ taken. AreShared store.new) }
{
    let _few = store.len();
    let end = point.len() as u64;
    let terms = choose(alloc, store, later, first, end, point)?;
    let slots = slots(alloc, first, &terms)?;
    let led = store.put_in(later, &slots)?;
    let region = reduce(alloc, store, led)?;
    Ok(Taken { terms, region })
}

// The terms by their places, of which the first is this one.
fn slots(alloc: Global, first: u64, terms: &[Id]) -> Result<Vec<Option<Id>>, NoMemory>
    ensures { IfOk result (λ slots. slots.items ≡ slots_from first terms.now) }
{
    let mut slots = vec![in alloc; None; first as usize]?;
    'terms: for term in terms {
        slots.push(Some(*term))?;
    }
    Ok(slots)
}
