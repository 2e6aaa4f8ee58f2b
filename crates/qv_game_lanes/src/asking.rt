//! What a lane is asked.

ghost use Rattle.std.specs.Prelude.{◌≡◌, ◌+◌, ◌-◌, ◌<◌, ◌≤◌, ◌^◌, Err, IfOk, List};
ghost use Rattle.std.specs.Prelude.{length};
ghost use Rattle.qv_words.specs.declared.sort.Sort.{Sort};
ghost use Rattle.qv_words.specs.Tree.{Tree};
ghost use Rattle.qv_circuits.specs.Adding.{lits_of};
ghost use Rattle.qv_store.specs.Nodes.{tree_at};
ghost use Rattle.qv_meter.specs.Charging.{conflict_count, conflict_limit, MayCharge};
ghost use Rattle.qv_meter.specs.Charging.{SameButConflicts};
ghost use Rattle.qv_game_entry_laws.specs.Fixings.{bits_found};
ghost use Rattle.qv_game_entry_laws.specs.QueryLaws.{AreOver};
ghost use Rattle.qv_sat.specs.Answering.{IsFailed, IsFound, OnFound, OnUnsat};
ghost use Rattle.qv_game_lanes.specs.Lanes.{base_of, known_of, steps_of, variables_of, IsLane};
ghost use Rattle.qv_game_lanes.specs.Asking.{ArePlaces, IsAnswer};

use crate::lane::Lane;
use crate::places::{assume, bits_of, values_in};
use qv_cnf::Lit;
use qv_cnf::laws::rup_is_true;
use qv_meter::Meter;
use qv_sat::{Outcome, SatFault};
use qv_store::{Id, Store};
use qv_words::Word;
use std::alloc::{AllocError, Global};

/// Values of the places behind a point, or literals that fix bits of the point and leave none.
#[derive(Debug, Drop)]
pub enum Answer {
    Values(Vec<Word>),
    Core(Vec<Lit>),
}

// The conflicts of the newest record.
fn conflicts(meter: &Meter) -> u64
    ensures { result ≡ conflict_count meter.now }
{
    match meter.newest() {
        Some(record) => record.conflicts,
        None => 0,
    }
}

impl Lane {
    /// Whether some values of the places behind the point make all formulas true there. Where none
    /// do, it gives bits of the point that leave none. What is learnt is charged to the meter.
    pub fn ask(
        &mut self,
        alloc: Global,
        store: &Store,
        places: &[Id],
        point: &[Word],
        meter: &mut Meter,
    ) -> Result<Answer, SatFault>
        requires asked { (formulas : List Tree) × (sorts : List Sort)
            × IsLane store.now formulas self.old × AreOver sorts formulas
            × ArePlaces store.now places.now sorts point.now }
        requires may { MayCharge meter.old (base_of self.old) (steps_of self.old) }
        requires few { self.old.learnt + (conflict_limit meter.old - conflict_count meter.old)
            ≤ 2 ^ 60 }
        ensures answer { IfOk result (λ answer. (formulas : List Tree) (sorts : List Sort) →
            IsLane store.now formulas self.old → AreOver sorts formulas →
            ArePlaces store.now places.now sorts point.now →
            IsAnswer formulas sorts point.now answer) }

        // The lane stays, and learns as much as is charged.
        ensures lane { (formulas : List Tree) → IsLane store.now formulas self.old →
            IsLane store.now formulas self.new }
        ensures limit { variables_of self.new ≡ variables_of self.old }
        ensures count { conflict_count meter.new + self.old.learnt
            ≡ conflict_count meter.old + self.new.learnt }
        ensures same { SameButConflicts meter.old meter.new }
        ensures may { MayCharge meter.new (base_of self.new) (steps_of self.new) }
        ensures spent { result ≡ Err SatFault.Spent →
            conflict_count meter.new ≡ conflict_limit meter.new }
    {
        rup_is_true();
        let assumptions = assume(alloc, &self.blaster, store, places, point)?;
        match self.solve(&assumptions, meter)? {
            Outcome::Found(model) => {
                let behind = &places[point.len()..];
                Ok(Answer::Values(values_in(alloc, &self.blaster, store, behind, &model)?))
            }
            Outcome::Unsat { core } => Ok(Answer::Core(core)),
        }
    }

    // Asks the core, and again under what failed alone, since its second answer may name fewer.
    fn solve(&mut self, assumptions: &[Lit], meter: &mut Meter) -> Result<Outcome, SatFault>
        requires lane { (trees formulas : List Tree) × IsLane trees formulas self.old }
        requires may { MayCharge meter.old (base_of self.old) (steps_of self.old) }
        requires few { self.old.learnt + (conflict_limit meter.old - conflict_count meter.old)
            ≤ 2 ^ 60 }
        ensures lane { (trees formulas : List Tree) → IsLane trees formulas self.old →
            IsLane trees formulas self.new }
        ensures blaster { self.new.blaster ≡ self.old.blaster }
        ensures count { conflict_count meter.new + self.old.learnt
            ≡ conflict_count meter.old + self.new.learnt }
        ensures same { SameButConflicts meter.old meter.new }
        ensures may { MayCharge meter.new (base_of self.new) (steps_of self.new) }
        ensures found { IfOk result (λ outcome.
            OnFound outcome (IsFound (base_of self.old) assumptions.now)) }
        ensures unsat { IfOk result (λ outcome.
            OnUnsat outcome (IsFailed (base_of self.old) assumptions.now)) }
        ensures spent { result ≡ Err SatFault.Spent →
            conflict_count meter.new ≡ conflict_limit meter.new }
    {
        match self.search(assumptions, meter)? {
            Outcome::Found(model) => Ok(Outcome::Found(model)),
            Outcome::Unsat { core } => {
                let core = self.narrow(core, meter)?;
                Ok(Outcome::Unsat { core })
            }
        }
    }

    // Those of some literals, with which the clauses have no model, that the core names where they
    // alone are assumed. Where that spends the budget, all of them.
    fn narrow(&mut self, failed: Vec<Lit>, meter: &mut Meter) -> Result<Vec<Lit>, AllocError>
        requires lane { (trees formulas : List Tree) × IsLane trees formulas self.old }
        requires may { MayCharge meter.old (base_of self.old) (steps_of self.old) }
        requires few { self.old.learnt + (conflict_limit meter.old - conflict_count meter.old)
            ≤ 2 ^ 60 }
        requires failed { IsFailed (base_of self.old) failed.items failed.items }
        ensures lane { (trees formulas : List Tree) → IsLane trees formulas self.old →
            IsLane trees formulas self.new }
        ensures blaster { self.new.blaster ≡ self.old.blaster }
        ensures count { conflict_count meter.new + self.old.learnt
            ≡ conflict_count meter.old + self.new.learnt }
        ensures same { SameButConflicts meter.old meter.new }
        ensures may { MayCharge meter.new (base_of self.new) (steps_of self.new) }
        ensures fewer { IfOk result (λ fewer.
            IsFailed (base_of self.old) failed.items fewer.items) }
    {
        match self.search(&failed, meter) {
            Ok(Outcome::Unsat { core }) => Ok(core),
            Ok(Outcome::Found(_)) => Ok(failed),
            Err(SatFault::Spent) => Ok(failed),
            Err(SatFault::NoMemory) => Err(AllocError),
        }
    }

    // Asks the core, and counts what it learns.
    fn search(&mut self, assumptions: &[Lit], meter: &mut Meter) -> Result<Outcome, SatFault>
        requires lane { (trees formulas : List Tree) × IsLane trees formulas self.old }
        requires may { MayCharge meter.old (base_of self.old) (steps_of self.old) }
        requires few { self.old.learnt + (conflict_limit meter.old - conflict_count meter.old)
            ≤ 2 ^ 60 }
        ensures lane { (trees formulas : List Tree) → IsLane trees formulas self.old →
            IsLane trees formulas self.new }
        ensures blaster { self.new.blaster ≡ self.old.blaster }
        ensures base { base_of self.new ≡ base_of self.old }
        ensures count { conflict_count meter.new + self.old.learnt
            ≡ conflict_count meter.old + self.new.learnt }
        ensures same { SameButConflicts meter.old meter.new }
        ensures may { MayCharge meter.new (base_of self.new) (steps_of self.new) }
        ensures found { IfOk result (λ outcome.
            OnFound outcome (IsFound (base_of self.old) assumptions.now)) }
        ensures unsat { IfOk result (λ outcome.
            OnUnsat outcome (IsFailed (base_of self.old) assumptions.now)) }
        ensures spent { result ≡ Err SatFault.Spent →
            conflict_count meter.new ≡ conflict_limit meter.new }
    {
        if self.closed {
            return Ok(Outcome::Unsat {
                core: Vec::new(self.alloc),
            });
        }
        let before = conflicts(meter);
        let answer = self.core.solve(assumptions, meter);
        self.learnt += conflicts(meter) - before;
        answer
    }

    /// The bits of a term, low bit first; none where it stands in no formula.
    pub fn bits(&self, store: &Store, id: Id) -> &[Lit]
        requires id { id < length store.now }
        requires lane { (formulas : List Tree) × IsLane store.now formulas self.now }
        ensures bits { lits_of result.now
            ≡ bits_found (known_of store.now self.now) (tree_at store.now id) }
        ensures few { length result.now ≤ 128 }
    {
        // What a sort of the store is.
        let _sort = store.sort(id);
        bits_of(&self.blaster, store, id)
    }
}
