//! Terms that are put into the conjuncts in which a place stands.

ghost use Rattle.std.specs.Prelude.{◌≡◌, ◌<◌, All, IfOk, OnOk, length, map};
ghost use Rattle.qv_words.specs.Tree.{IsQuantifierFree};
ghost use Rattle.qv_words.specs.Sorted.{no_levels, with_level};
ghost use Rattle.qv_words.specs.Replacement.{HasTheirSorts};
ghost use Rattle.qv_words.specs.Choice.{with_term};
ghost use Rattle.qv_store.specs.Nodes.{tree_at};
ghost use Rattle.qv_store.specs.Stores.{Grows, StandsAt};
ghost use Rattle.qv_store.specs.Walks.{named};
ghost use Rattle.qv_choose_clauses.specs.Placing.{NothingPut};
ghost use Rattle.qv_choose.specs.Conjuncts.{ArePicked};
ghost use Rattle.qv_choose.specs.Parts.{AreAt, Takes};

use qv_choose_clauses::put_one;
use qv_store::{Id, NoMemory, Store};
use std::alloc::Global;

// The members of these numbers.
pub(crate) fn pick(alloc: Global, ids: &[Id], numbers: &[usize]) -> Result<Vec<Id>, NoMemory>
    requires numbers { All (λ n. n < length ids.now) numbers.now }
    ensures picked { IfOk result (λ picked. AreAt ids.now numbers.now picked.items) }
{
    let mut picked = Vec::new(alloc);
    'numbers: for number in numbers {
        picked.push(ids[*number])?;
    }
    Ok(picked)
}

// Puts a term in for a place in each of the parts in which it stands.
pub(crate) fn put_each(
    store: &mut Store,
    parts: &mut [Id],
    numbers: &[usize],
    put: &mut [Option<Id>],
    level: u64,
    term: Id,
) -> Result<(), NoMemory>
    requires below { All (λ id. id < length store.old) parts.old }
    requires numbers { All (λ n. n < length parts.old) numbers.now }
    requires fit { All (λ id. Takes level (tree_at store.old term) (tree_at store.old id))
        parts.old }
    requires picked { ArePicked level 0 (named store.old parts.old) numbers.now }
    requires none { NothingPut put.old }
    requires level { level < length put.old }
    requires term { term < length store.old }
    ensures same { put.new ≡ put.old }
    ensures below { OnOk result (All (λ id. id < length store.new) parts.new) }
    ensures parts { OnOk result (named store.new parts.new
        ≡ map (with_term level (tree_at store.old term)) (named store.old parts.old)) }
    ensures grows { Grows store.old store.new }
{
    'numbers: for number in numbers {
        parts[*number] = put_one(store, parts[*number], put, level, term)?;
    }
    Ok(())
}
