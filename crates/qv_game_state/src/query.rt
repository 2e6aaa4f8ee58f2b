//! What one lane of the game asks.

ghost use Rattle.std.specs.Prelude.{◌≡◌, ◌+◌, ◌-◌, ◌<◌, ◌≤◌, ◌∷◌, ◌++◌, [], ℕ, IfOk, List, OnOk};
ghost use Rattle.std.specs.Prelude.{Some, length, slice_get, slice_set};
ghost use Rattle.qv_words.specs.declared.sort.Sort.TheVariants.{Bool as BoolSort};
ghost use Rattle.qv_words.specs.Tree.{Tree};
ghost use Rattle.qv_words.specs.Linked.{Entry};
ghost use Rattle.qv_words.specs.Problem.{Problem as PlainProblem};
ghost use Rattle.qv_words.specs.Skolem.{IsTermOf};
ghost use Rattle.qv_store.specs.Nodes.{tree_at};
ghost use Rattle.qv_meter.specs.Views.{lane_of};
ghost use Rattle.qv_game_lanes.specs.Lanes.{IsLane};
ghost use Rattle.qv_game_state.specs.Asking.{IsAnswerAt, IsAsked, IsDenied, MayDeny};
ghost use Rattle.qv_game_state.specs.Counts.{SameButCounts};
ghost use Rattle.qv_game_state.specs.Faults.{IsSpentWhere};
ghost use Rattle.qv_game_state.specs.Charges.{IsCharged, Tally};
ghost use Rattle.qv_game_state.specs.Playing.{tally_of, IsQueryAt};

use qv_blast::BlastFault;
use qv_game_lanes::{Answer, Lane};
use qv_meter::{Lane as Charged, Meter, PlayFault, SpentKind};
use qv_sat::SatFault;
use qv_store::{Id, Quant, Store};
use qv_words::Word;
use std::alloc::Global;

/// The regions of a player at a level: formulas that are all true exactly outside all of them, by
/// number, and the lane that has them.
#[derive(Drop)]
pub struct Query {
    pub winner: Quant,
    pub list: Vec<Id>,
    pub lane: Lane,
}

impl Query {
    // Whether some values of the places behind the point lie outside all regions, which are of this
    // level.
    pub(crate) fn ask(
        &mut self,
        alloc: Global,
        store: &Store,
        places: &[Id],
        point: &[Word],
        level: u64,
        meter: &mut Meter,
    ) -> Result<Answer, PlayFault>
        requires { (p : PlainProblem) × (entries : List Entry) × (limit : ℕ)
            × (tallies : List Tally)
            × IsAsked store.now p entries limit tallies self.old places.now point.now level
            meter.old }
        ensures same { (self.new.winner ≡ self.old.winner) × (self.new.list.items ≡ self.old.list.items) }
        ensures asked { (p : PlainProblem) (entries : List Entry) (limit : ℕ)
            (tallies : List Tally) →
            IsAsked store.now p entries limit tallies self.old places.now point.now level
            meter.old → IsQueryAt store.now p entries limit (level - 2) self.new
            × IsCharged p (length entries) limit (slice_set tallies (level - 2) (tally_of self.new))
            meter.new }
        ensures answer { IfOk result (λ answer. (p : PlainProblem) (entries : List Entry)
            (limit : ℕ) (tallies : List Tally) →
            IsAsked store.now p entries limit tallies self.old places.now point.now level
            meter.old → IsAnswerAt store.now p self.old level point.now answer) }
        ensures counts { SameButCounts meter.old meter.new }
        ensures spent { IsSpentWhere result meter.new }
    {
        meter.lane(Charged::Query {
            winner: self.winner,
            level,
        });
        // What every meter keeps.
        let _record = meter.newest();
        match self.lane.ask(alloc, store, places, point, meter) {
            Ok(answer) => Ok(answer),
            Err(SatFault::Spent) => Err(PlayFault::Spent(SpentKind::Conflicts)),
            Err(SatFault::NoMemory) => Err(PlayFault::NoMemory),
        }
    }

    // One formula more, which comes behind the others.
    pub(crate) fn deny(
        &mut self,
        store: &Store,
        formula: Id,
        meter: &mut Meter,
    ) -> Result<(), PlayFault>
        requires id { formula < length store.now }
        requires formula { IsTermOf (tree_at store.now formula) BoolSort }
        requires may { (p : PlainProblem) × (n : ℕ) × (limit : ℕ) × (level : ℕ)
            × (formulas : List Tree) × (tallies : List Tally)
            × MayDeny store.now p n limit level formulas self.old formula tallies meter.old }
        ensures denied { OnOk result ((formulas : List Tree) →
            IsLane store.now formulas self.old.lane →
            IsDenied store.now formulas self.old self.new formula) }
        ensures meter { OnOk result (meter.new ≡ meter.old) }
        ensures counts { SameButCounts meter.old meter.new }
        ensures spent { IsSpentWhere result meter.new }
    {
        // What every meter keeps.
        let _record = meter.newest();
        self.list.push(formula)?;
        match self.lane.add(store, formula) {
            Ok(()) => Ok(()),
            Err(BlastFault::TooManyVariables) => {
                let _spent = meter.variables(store, &self.list);
                Err(PlayFault::Spent(SpentKind::Variables))
            }
            Err(BlastFault::NoMemory) => Err(PlayFault::NoMemory),
        }
    }
}
