//! A game that words for its only block win.

ghost use Rattle.std.specs.Prelude.{◌≡◌, ◌≢◌, [], IfOk, IsTrue, OnOk};
ghost use Rattle.std.specs.List.{AllZip};
ghost use Rattle.qv_store.specs.Problems.{problem_in, IsPosedIn};
ghost use Rattle.qv_store.specs.Stores.{Grows};
ghost use Rattle.qv_entries.specs.Rows.{entries_in, entry_in, row_of};
ghost use Rattle.qv_meter.specs.Charging.{MayChargeInstance};
ghost use Rattle.qv_meter.specs.Records.{after_instance};
ghost use Rattle.qv_meter.specs.Units.{EntryUnit};
ghost use Rattle.qv_game_state.specs.Counts.{SameButCounts};
ghost use Rattle.qv_game_state.specs.Faults.{IsSpentWhere};
ghost use Rattle.qv_game_state.specs.Starting.{IsUncharged};
ghost use Rattle.qv_game.specs.Offered.{IsPlaceFor, IsWonAt, WinsAt};

use crate::fault::PlayFault;
use qv_entries::{Entries, Entry};
use qv_game_regions::take;
use qv_meter::{InstanceUnit, Meter, SpentKind};
use qv_store::{NoMemory, Place, Problem, Quant, Store};
use qv_words::Word;
use std::alloc::Global;

// Whether the places are the existential player's, and the words have their sorts and make the
// matrix true.
pub(crate) fn wins_at(store: &Store, problem: &Problem, offered: &[Word]) -> Result<bool, NoMemory>
    requires posed { IsPosedIn store.now problem.now }
    ensures { IfOk result (λ wins.
        IsTrue wins → WinsAt (problem_in store.now problem.now) offered.now) }
{
    if !are_places_for(&problem.prefix, offered) {
        return Ok(false);
    }
    let word = store.eval_at(problem.matrix, &[], offered)?;
    Ok(word.value() == 1)
}

// Whether each place is the existential player's, and has a word of its sort.
fn are_places_for(places: &[Place], words: &[Word]) -> bool
    ensures { IsTrue result → AllZip IsPlaceFor places.now words.now }
{
    if places.len() != words.len() {
        return false;
    }
    'places: for number in 0..places.len() {
        if !is_place_for(places[number], words[number]) {
            return false;
        }
    }
    true
}

// Whether a place is the existential player's, and a word has its sort.
fn is_place_for(place: Place, word: Word) -> bool
    ensures { IsTrue result → IsPlaceFor place word }
{
    place.quant == Quant::Exists && place.sort == word.sort()
}

// The one entry by which the existential player wins.
pub(crate) fn win_at(
    alloc: Global,
    store: &mut Store,
    problem: &Problem,
    offered: &[Word],
    meter: &mut Meter,
) -> Result<Entries, PlayFault>
    requires posed { IsPosedIn store.old problem.now }
    requires some { problem.now.prefix.items ≢ [] }
    requires record { IsUncharged (problem_in store.old problem.now) meter.old }
    requires wins { WinsAt (problem_in store.old problem.now) offered.now }
    ensures won { IfOk result (λ entries.
        IsWonAt store.new (problem_in store.old problem.now) entries meter.new) }
    ensures counts { SameButCounts meter.old meter.new }
    ensures spent { IsSpentWhere result meter.new }
    ensures grows { Grows store.old store.new }
{
    // What every meter keeps.
    let _record = meter.newest();
    let taken = take(alloc, store, problem.matrix, 0, offered)?;
    let entry = Entry {
        level: 1,
        winner: Quant::Exists,
        region: taken.region,
        point: Vec::new(alloc),
        terms: taken.terms,
        links: Vec::new(alloc),
    };
    let mut entries = Entries::new(alloc);
    charge(meter, store, &entries, &entry)?;
    entries.add(store, problem, entry)?;
    Ok(entries)
}

// An entry is charged for.
fn charge(
    meter: &mut Meter,
    store: &Store,
    entries: &Entries,
    entry: &Entry,
) -> Result<(), PlayFault>
    requires { MayChargeInstance meter.old (EntryUnit (entries_in store.now entries.now)
        (entry_in store.now (row_of entry.now))) }
    ensures ok { OnOk result (meter.new ≡ after_instance meter.old) }
    ensures counts { SameButCounts meter.old meter.new }
    ensures spent { IsSpentWhere result meter.new }
{
    let unit = InstanceUnit::Entry { entries, entry };
    match meter.instance(store, &unit) {
        Ok(()) => Ok(()),
        Err(_) => Err(PlayFault::Spent(SpentKind::Instances)),
    }
}
