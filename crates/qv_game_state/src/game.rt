//! A game: its blocks and places, what was entered, and what its lanes have.

ghost use Rattle.std.specs.Prelude.{◌≡◌, ◌+◌, ◌-◌, ◌≤◌, ◌<◌, ◌∷◌, ◌++◌, [], IfOk, IfSome, List};
ghost use Rattle.std.specs.Prelude.{OnOk, Some};
ghost use Rattle.std.specs.Prelude.{length, map, ℕ};
ghost use Rattle.qv_words.specs.Problem.{Problem as PlainProblem};
ghost use Rattle.qv_words.specs.Word.{sorts_of};
ghost use Rattle.qv_words.specs.Linked.{Entry as PlainEntry};
ghost use Rattle.qv_store.specs.Nodes.{tree_at};
ghost use Rattle.qv_store.specs.Problems.{quantifier_of};
ghost use Rattle.qv_store.specs.Stores.{AreShared, Grows};
ghost use Rattle.qv_entries.specs.Rows.{entries_in, entry_in, row_of};
ghost use Rattle.qv_game_play_laws.specs.PlayLaws.{sorts_below};
ghost use Rattle.qv_meter.specs.Charging.{MayChargeInstance};
ghost use Rattle.qv_meter.specs.Queries.{block_count};
ghost use Rattle.qv_meter.specs.Records.{after_instance};
ghost use Rattle.qv_meter.specs.Units.{EntryUnit};
ghost use Rattle.qv_game_state.specs.Counts.{SameButCounts};
ghost use Rattle.qv_game_state.specs.Faults.{IsSpentWhere};
ghost use Rattle.qv_game_state.specs.Entering.{IsToldOf, MayTell};
ghost use Rattle.qv_game_state.specs.Playing.{tally_of, AreQueries};

use crate::players::is_same;
use crate::query::Query;
use crate::regions::put_negation;
use crate::spans::Span;
use qv_entries::{Entries, Entry};
use qv_game_lanes::Answer;
use qv_meter::{InstanceUnit, Meter, PlayFault, SpentKind};
use qv_store::{Id, Problem, Quant, Store};
use qv_words::Word;
use std::alloc::Global;

/// The blocks and the variables of the places of a problem, the entries so far, and for each level
/// from 2 on the query about the player who doesn't own the block before.
#[derive(Drop)]
pub struct Game {
    pub spans: Vec<Span>,
    pub places: Vec<Id>,
    pub entries: Entries,
    pub queries: Vec<Query>,
}

impl Game {
    ghost use Rattle.qv_game_state.specs.Asking.{IsAnswered};
    ghost use Rattle.qv_game_state.specs.Entering.{IsEntered, MayEnter};
    ghost use Rattle.qv_game_state.specs.Playing.{IsPlaying};

    /// The owner of a level's block is asked for values that lie in none of the other's regions.
    pub fn ask(
        &mut self,
        alloc: Global,
        store: &Store,
        level: u64,
        point: &[Word],
        meter: &mut Meter,
    ) -> Result<Answer, PlayFault>
        requires { (p : PlainProblem) × (limit : ℕ)
            × IsPlaying store.now p limit self.old level point.now meter.old }
        ensures playing { (p : PlainProblem) (limit : ℕ) →
            IsPlaying store.now p limit self.old level point.now meter.old →
            IsPlaying store.now p limit self.new level point.now meter.new }
        ensures entries { self.new.entries ≡ self.old.entries }
        ensures answer { IfOk result (λ answer. (p : PlainProblem) (limit : ℕ) →
            IsPlaying store.now p limit self.old level point.now meter.old →
            IsAnswered store.now p self.new level point.now answer) }
        ensures counts { SameButCounts meter.old meter.new }
        ensures spent { IsSpentWhere result meter.new }
    {
        let index = level as usize - 1;
        let end = self.spans[index].end as usize;
        let places = &self.places[..end];
        self.queries[index].ask(alloc, store, places, point, level + 1, meter)
    }

    /// Values of all places that lie in none of the regions of the player who doesn't own the last
    /// block, if there are any. No value is fixed before.
    pub fn seek(
        &mut self,
        alloc: Global,
        store: &Store,
        meter: &mut Meter,
    ) -> Result<Option<Vec<Word>>, PlayFault>
        requires { (p : PlainProblem) × (limit : ℕ)
            × IsPlaying store.now p limit self.old 1 [] meter.old }
        ensures playing { (p : PlainProblem) (limit : ℕ) →
            IsPlaying store.now p limit self.old 1 [] meter.old →
            IsPlaying store.now p limit self.new 1 [] meter.new }
        ensures entries { self.new.entries ≡ self.old.entries }
        ensures spans { self.new.spans ≡ self.old.spans }
        ensures values { IfOk result (λ found. IfSome found (λ values. (p : PlainProblem)
            (limit : ℕ) → IsPlaying store.now p limit self.old 1 [] meter.old →
            sorts_of values.items ≡ sorts_below p (block_count p + 1))) }
        ensures counts { SameButCounts meter.old meter.new }
        ensures spent { IsSpentWhere result meter.new }
    {
        let level = self.spans.len();
        let index = level - 1;
        let end = self.spans[index].end as usize;
        let places = &self.places[..end];
        let above = level as u64 + 1;
        match self.queries[index].ask(alloc, store, places, &[], above, meter)? {
            Answer::Values(values) => Ok(Some(values)),
            Answer::Core(_) => Ok(None),
        }
    }

    /// One entry more, which may come: it is charged, and told to the lane that asks about it. Gives
    /// its number. After a fault the game isn't to be played on.
    pub fn enter(
        &mut self,
        alloc: Global,
        store: &mut Store,
        problem: &Problem,
        meter: &mut Meter,
        entry: Entry,
    ) -> Result<u64, PlayFault>
        requires { (p : PlainProblem) × (limit : ℕ)
            × MayEnter store.old problem.now p limit self.old (row_of entry) meter.old }
        ensures grows { Grows store.old store.new }
        ensures entered { OnOk result ((p : PlainProblem) (limit : ℕ) →
            MayEnter store.old problem.now p limit self.old (row_of entry) meter.old →
            IsEntered store.new p limit self.old self.new entry.level (quantifier_of entry.winner)
            meter.new) }
        ensures number { IfOk result (λ number. number ≡ length self.old.entries) }
        ensures row { OnOk result (self.new.entries ≡ self.old.entries ++ row_of entry ∷ []) }
        ensures counts { SameButCounts meter.old meter.new }
        ensures spent { IsSpentWhere result meter.new }
    {
        charge(meter, store, &self.entries, &entry)?;
        let level = entry.level;
        let winner = entry.winner;
        let region = entry.region;
        let number = self.entries.add(store, problem, entry)?;
        if level >= 2 {
            tell(
                alloc,
                store,
                &mut self.queries,
                meter,
                level,
                winner,
                region,
            )?;
        }
        Ok(number)
    }
}

// An entry is charged for.
fn charge(
    meter: &mut Meter,
    store: &Store,
    entries: &Entries,
    entry: &Entry,
) -> Result<(), PlayFault>
    requires { MayChargeInstance meter.old (EntryUnit (entries_in store.now entries.now)
        (entry_in store.now (row_of entry.now))) }
    ensures ok { OnOk result (meter.new ≡ after_instance meter.old) }
    ensures counts { SameButCounts meter.old meter.new }
    ensures spent { IsSpentWhere result meter.new }
{
    let unit = InstanceUnit::Entry { entries, entry };
    match meter.instance(store, &unit) {
        Ok(()) => Ok(()),
        Err(_) => Err(PlayFault::Spent(SpentKind::Instances)),
    }
}

// The lane of an entry's level is told the entry's region where it asks about its winner.
fn tell(
    alloc: Global,
    store: &mut Store,
    queries: &mut Vec<Query>,
    meter: &mut Meter,
    level: u64,
    winner: Quant,
    region: Id,
) -> Result<(), PlayFault>
    requires { (p : PlainProblem) × (entries : List PlainEntry) × (e : PlainEntry)
        × (limit : ℕ)
        × MayTell store.old p entries e limit queries.old.items meter.old
        × IsToldOf store.old e level winner region }
    ensures grows { Grows store.old store.new }
    ensures told { OnOk result ((p : PlainProblem) (entries : List PlainEntry) (e : PlainEntry)
        (limit : ℕ) → MayTell store.old p entries e limit queries.old.items meter.old →
        IsToldOf store.old e level winner region →
        AreQueries store.new p (entries ++ e ∷ []) limit queries.new.items
        × (map tally_of queries.new.items ≡ map tally_of queries.old.items)) }
    ensures meter { OnOk result (meter.new ≡ meter.old) }
    ensures counts { SameButCounts meter.old meter.new }
    ensures spent { IsSpentWhere result meter.new }
{
    let index = level as usize - 2;
    if !is_same(winner, queries[index].winner) {
        return Ok(());
    }
    let negation = put_negation(alloc, store, region)?;
    queries[index].deny(store, negation, meter)
}
