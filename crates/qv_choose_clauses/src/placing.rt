//! A term that is put in for a place.

ghost use Rattle.std.specs.Prelude.{◌≡◌, ◌<◌, IfOk, length};
ghost use Rattle.qv_words.specs.Tree.{IsQuantifierFree};
ghost use Rattle.qv_words.specs.Sorted.{no_levels, with_level};
ghost use Rattle.qv_words.specs.Replacement.{HasTheirSorts};
ghost use Rattle.qv_words.specs.Choice.{with_term};
ghost use Rattle.qv_store.specs.Nodes.{tree_at};
ghost use Rattle.qv_store.specs.Stores.{Grows, StandsAt};
ghost use Rattle.qv_choose_clauses.specs.Placing.{NothingPut};

use qv_store::{Id, NoMemory, Store};

/// The formula with the term put in for the place, by a list that has no term for any place, and
/// has none again at the end. Also where memory runs out the store keeps what was put.
pub fn put_one(
    store: &mut Store,
    region: Id,
    put: &mut [Option<Id>],
    level: u64,
    term: Id,
) -> Result<Id, NoMemory>
    requires region { region < length store.old }
    requires free { IsQuantifierFree (tree_at store.old region) }
    requires none { NothingPut put.old }
    requires level { level < length put.old }
    requires term { term < length store.old }
    requires sorts { HasTheirSorts (with_level no_levels level (tree_at store.old term))
        (tree_at store.old region) }
    ensures same { put.new ≡ put.old }
    ensures id { IfOk result (λ id. StandsAt store.new id
        (with_term level (tree_at store.old term) (tree_at store.old region))) }
    ensures grows { Grows store.old store.new }
{
    let level = level as usize;
    put[level] = Some(term);
    let made = store.put_in(region, put);
    put[level] = None;
    made
}
