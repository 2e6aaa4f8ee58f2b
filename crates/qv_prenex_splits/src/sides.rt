//! Terms that are split at their first `ite` between bit-vectors whose condition is quantified.

ghost use Rattle.std.specs.Prelude.{◌≡◌, ◌<◌, Some, None, IfOk, MatchOption, OnOk, length};
ghost use Rattle.qv_words.specs.Prenex.{first_choice};
ghost use Rattle.qv_store.specs.Nodes.{tree_at};
ghost use Rattle.qv_store.specs.Stores.{AreShared, Grows};
ghost use Rattle.qv_prenex_splits.specs.Splitting.{ite_in, IsIteIn};
ghost use Rattle.qv_prenex_splits.specs.Sides.{IsSplitInto, AreMadeFor};

use crate::split_store::{SideMemos, Sides, SplitStore};
use crate::splitting::{BitIte, first_ite, put_for};
use qv_store::{Id, NoMemory};
use std::alloc::Global;

/// The sides of a term, if an `ite` in it is split. A term is split once.
pub fn sides_of(alloc: Global, store: &mut SplitStore, term: Id) -> Result<Option<Sides>, NoMemory>
    requires { term < length store.old }
    ensures sides { IfOk result (λ found. MatchOption found
        (first_choice (tree_at store.old term) ≡ None)
        (λ sides. IsSplitInto store.new term sides)) }
    ensures grows { Grows store.old store.new }
    ensures shared { AreShared store.new }
{
    let _few = store.len();
    if let Some(sides) = store.sides(term) {
        return Ok(Some(sides));
    }
    match first_ite(alloc, store, term)? {
        Some(ite) => Ok(Some(split_at(alloc, store, term, &ite)?)),
        None => Ok(None),
    }
}

// The sides of a term that is split at its first `ite`, which are kept.
fn split_at(
    alloc: Global,
    store: &mut SplitStore,
    term: Id,
    ite: &BitIte,
) -> Result<Sides, NoMemory>
    requires term { term < length store.old }
    requires ite { IsIteIn store.old ite.now }
    requires first { first_choice (tree_at store.old term)
        ≡ Some (ite_in store.old ite.now) }
    requires shared { AreShared store.old }
    ensures sides { IfOk result (IsSplitInto store.new term) }
    ensures grows { Grows store.old store.new }
    ensures shared { AreShared store.new }
{
    let mut memos = store.take_memos(alloc, ite.whole);
    let sides = split_with(alloc, store, term, ite, &mut memos)?;
    store.keep_memos(ite.whole, memos)?;
    store.keep(term, &sides)?;
    Ok(sides)
}

// The same, where this was made of terms with either side in place of the `ite`.
fn split_with(
    alloc: Global,
    store: &mut SplitStore,
    term: Id,
    ite: &BitIte,
    memos: &mut SideMemos,
) -> Result<Sides, NoMemory>
    requires term { term < length store.old }
    requires ite { IsIteIn store.old ite.now }
    requires first { first_choice (tree_at store.old term)
        ≡ Some (ite_in store.old ite.now) }
    requires shared { AreShared store.old }
    requires memos { AreMadeFor store.old ite.now.whole memos.old }
    ensures sides { IfOk result (IsSplitInto store.new term) }
    ensures memos { OnOk result (AreMadeFor store.new ite.now.whole memos.new) }
    ensures grows { Grows store.old store.new }
    ensures shared { AreShared store.new }
{
    let yes = put_for(alloc, store, term, ite, ite.yes, &mut memos.yes)?;
    let no = put_for(alloc, store, term, ite, ite.no, &mut memos.no)?;
    Ok(Sides {
        condition: ite.condition,
        yes,
        no,
    })
}
