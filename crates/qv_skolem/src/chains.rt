//! The chains of a block's places.

ghost use Rattle.std.specs.Prelude.{◌≡◌, ◌<◌, All, IfOk, OnOk, length, map};
ghost use Rattle.qv_words.specs.Problem.{Existential};
ghost use Rattle.qv_words.specs.Linked.{entries_of};
ghost use Rattle.qv_store.specs.Problems.{place_of};
ghost use Rattle.qv_store.specs.Stores.{Grows};
ghost use Rattle.qv_store.specs.Replacing.{AreTermsOf, put_by_level};
ghost use Rattle.qv_entries.specs.Rows.{entries_in, entry_in, is_row_of, row_of, IsRowIn};
ghost use Rattle.qv_skolem.specs.Blocks.{sorts_of};
ghost use Rattle.qv_skolem.specs.Chains.{AreChains, AreLed, IsPuttable, MayLead};

use crate::putting::put_headed;
use qv_entries::{Entries, Entry};
use qv_store::{Id, NoMemory, Node, Place, Quant, Store};
use qv_words::Word;
use std::alloc::Global;

// For each place of a level's block its chain through the existential player's entries there, with
// the terms of earlier places put in.
pub(crate) fn chains(
    alloc: Global,
    store: &mut Store,
    entries: &Entries,
    level: u64,
    block: &[Place],
    slots: &[Option<Id>],
) -> Result<Vec<Id>, NoMemory>
    requires rows { All (IsRowIn store.old) entries.now }
    requires slots { AreTermsOf store.old slots.now }
    requires each { All (IsPuttable (put_by_level store.old slots.now)
        (sorts_of (map place_of block.now)))
        (entries_of level Existential (entries_in store.old entries.now)) }
    ensures chains { IfOk result (λ chains. AreChains store.new
        (put_by_level store.old slots.now)
        (entries_of level Existential (entries_in store.old entries.now))
        (length block.now) chains.items) }
    ensures grows { Grows store.old store.new }
{
    let none = store.put(Node::Lit {
        word: Word::truth(false),
    })?;
    let mut chains = vec![in alloc; none; block.len()]?;
    let mut behind = false;
    'entries: for number in (0..entries.len()).rev() {
        let entry = entries.entry(number);
        if is_own(entry, level) {
            lead(alloc, store, entry, behind, slots, &mut chains)?;
            behind = true;
        }
    }
    Ok(chains)
}

// Whether it is an entry of the existential player at this level.
fn is_own(entry: &Entry, level: u64) -> bool
    ensures { result ≡ is_row_of level Existential (row_of entry.now) }
{
    entry.level == level && entry.winner == Quant::Exists
}

// The chains with one entry more in front, chosen by its region where others are behind it.
fn lead(
    alloc: Global,
    store: &mut Store,
    entry: &Entry,
    behind: bool,
    slots: &[Option<Id>],
    chains: &mut [Id],
) -> Result<(), NoMemory>
    requires row { IsRowIn store.old (row_of entry.now) }
    requires slots { AreTermsOf store.old slots.now }
    requires may { MayLead store.old (put_by_level store.old slots.now) behind
        (entry_in store.old (row_of entry.now)) chains.old }
    ensures led { OnOk result (AreLed store.old store.new
        (put_by_level store.old slots.now) behind
        (entry_in store.old (row_of entry.now)) chains.old chains.new) }
    ensures grows { Grows store.old store.new }
{
    let region = if behind {
        Some(store.put_in(entry.region, slots)?)
    } else {
        None
    };
    'places: for place in 0..chains.len() {
        let term = store.put_in(entry.terms[place], slots)?;
        chains[place] = put_headed(alloc, store, region, term, chains[place])?;
    }
    Ok(())
}
