//! Lanes: the clauses of formulas, and a core that has them.

ghost use Rattle.std.specs.Prelude.{◌≡◌, ◌≢◌, ◌+◌, ◌-◌, ◌<◌, ◌≤◌, ◌^◌, ◌∷◌, ◌++◌, [], All, Err};
ghost use Rattle.std.specs.Prelude.{IfOk, List, OnErr, OnOk, drop, length};
ghost use Rattle.qv_words.specs.declared.sort.Sort.TheVariants.{Bool as BoolSort};
ghost use Rattle.qv_words.specs.Tree.{Tree};
ghost use Rattle.qv_words.specs.Skolem.{IsTermOf};
ghost use Rattle.qv_words.specs.Clauses.{cnf_variables};
ghost use Rattle.qv_cnf.specs.Listing.{clauses_of};
ghost use Rattle.qv_cnf.specs.Literal.{Literal};
ghost use Rattle.qv_cnf.specs.LratLine.{lines_of};
ghost use Rattle.qv_meter.specs.Bases.{HaveClauses};
ghost use Rattle.qv_blast.specs.Blasters.{from_one};
ghost use Rattle.qv_store.specs.Nodes.{tree_at};
ghost use Rattle.qv_store.specs.Stores.{AreShared};

use qv_blast::{Added, BlastFault, Blaster};
use qv_closed::{close, laid_core, push_copies};
use qv_cnf::laws::refuted_has_no_model;
use qv_cnf::{ClauseList, Step};
use qv_sat::Core;
use qv_store::{Id, Store};
use std::alloc::{AllocError, Global};

// Memory holds fewer clauses.
const MOST_IDS: u64 = 1 << 61;

// Where fewer clauses come they aren't closed.
const FEWEST: u64 = 500;

/// The clauses of formulas in one store, and a core that is asked about them.
#[derive(Drop)]
pub struct Lane {
    pub(crate) alloc: Global,
    pub(crate) blaster: Blaster,
    pub(crate) core: Core,
    // The greatest id that the core was given, and how many clauses it learnt.
    pub(crate) fed: u64,
    pub(crate) learnt: u64,
    // The steps of closure on gates, and whether they refute the clauses.
    pub(crate) laid: Vec<Step>,
    pub(crate) closed: bool,
}

impl Lane {
    ghost use Rattle.qv_game_lanes.specs.Lanes.{base_of, laid_of, steps_of, variables_of, IsLane};

    /// No formulas, and the greatest variable that may be taken.
    pub fn new(alloc: Global, limit: u32) -> Result<Lane, AllocError>
        requires some { 1 ≤ limit }
        requires most { limit ≤ 2 ^ 30 }
        ensures lane { IfOk result (λ lane. (trees : List Tree) → AreShared trees →
            IsLane trees [] lane) }
        ensures steps { IfOk result (λ lane. steps_of lane ≡ []) }
        ensures limit { IfOk result (λ lane. variables_of lane ≡ limit) }
    {
        let blaster = Blaster::new(alloc, limit)?;
        let mut core = Core::new(alloc);
        feed(&mut core, blaster.clauses(), Added { first: 1, end: 2 }, 0)?;
        Ok(Lane {
            alloc,
            blaster,
            core,
            fed: 1,
            learnt: 0,
            laid: Vec::new(alloc),
            closed: false,
        })
    }

    /// One more formula: the clauses that it adds come behind the others, and what was learnt
    /// stays. After want of memory the lane is given up.
    pub fn add(&mut self, store: &Store, formula: Id) -> Result<(), BlastFault>
        requires id { formula < length store.now }
        requires formula { IsTermOf (tree_at store.now formula) BoolSort }
        requires lane { (formulas : List Tree) × IsLane store.now formulas self.old }
        requires few { self.old.learnt ≤ 2 ^ 60 }
        ensures more { OnOk result ((formulas : List Tree) → IsLane store.now formulas self.old →
            IsLane store.now (formulas ++ tree_at store.now formula ∷ []) self.new) }
        ensures steps { OnOk result (steps_of self.new ≡ steps_of self.old) }

        // Only a list that has more variables than the limit is refused, and then the lane stays.
        ensures over { result ≡ Err BlastFault.TooManyVariables → (formulas : List Tree) →
            IsLane store.now formulas self.old → variables_of self.old
            < cnf_variables (formulas ++ tree_at store.now formula ∷ []) }
        ensures stays { result ≡ Err BlastFault.TooManyVariables → (formulas : List Tree) →
            IsLane store.now formulas self.old → IsLane store.now formulas self.new }
        ensures limit { variables_of self.new ≡ variables_of self.old }
    {
        let added = self.blaster.assert(store, formula)?;
        let top = self.fed + self.learnt;
        let clauses = self.blaster.clauses();
        // Memory holds fewer than 2^61 clauses.
        let _few = clauses.may_add(added.end);
        let count = added.end - added.first;
        if MOST_IDS - self.fed <= count {
            return Err(BlastFault::NoMemory);
        }
        feed(&mut self.core, clauses, added, top)?;
        self.fed += count;
        self.close(count)?;
        Ok(())
    }

    // Closes the clauses under their gates where many came and nothing was learnt yet: either the
    // steps refute, or a new core has what they add.
    fn close(&mut self, count: u64) -> Result<(), AllocError>
        requires lane { (trees formulas : List Tree) × IsLane trees formulas self.old }
        ensures lane { OnOk result ((trees formulas : List Tree) →
            IsLane trees formulas self.old → IsLane trees formulas self.new) }
        ensures steps { OnOk result (steps_of self.new ≡ steps_of self.old) }
        ensures limit { variables_of self.new ≡ variables_of self.old }
    {
        refuted_has_no_model();
        if count < FEWEST || self.closed || !self.laid.is_empty() {
            return Ok(());
        }
        if !self.core.steps().is_empty() {
            return Ok(());
        }
        let clauses = self.blaster.clauses();
        // Their ids rise.
        let _rising = clauses.may_add(0);
        let closed = close(self.alloc, clauses)?;
        if closed.refuted {
            self.laid = closed.steps;
            self.closed = true;
            return Ok(());
        }
        let laid = laid_core(self.alloc, clauses, closed.steps, closed.advice)?;
        self.core = laid.core;
        self.fed = laid.next - 1;
        self.laid = laid.steps;
        Ok(())
    }

    /// The steps of closure, and behind them those that were learnt so far.
    pub fn copied_steps(&self) -> Result<Vec<Step>, AllocError>
        ensures { IfOk result (λ steps. lines_of steps.items
            ≡ laid_of self.now ++ steps_of self.now) }
    {
        let mut steps = Vec::new(self.alloc);
        push_copies(self.alloc, &mut steps, &self.laid)?;
        push_copies(self.alloc, &mut steps, self.core.steps())?;
        Ok(steps)
    }
}

// The clauses that came go to a core whose greatest id is this one.
fn feed(core: &mut Core, clauses: &ClauseList, added: Added, top: u64) -> Result<(), AllocError>
    requires numbered { clauses.now ≡ from_one (clauses_of clauses.now.live) }
    requires some { 1 ≤ added.first }
    requires order { added.first ≤ added.end }
    requires all { added.end ≡ length clauses.now.live + 1 }
    requires each { All (λ c. c ≢ []) (clauses_of clauses.now.live) }
    requires top { core.old.top ≡ top }
    requires few { top + (added.end - added.first) < 2 ^ 62 }
    ensures base { OnOk result ((cs : List (List Literal)) → HaveClauses [] core.old.base cs →
        HaveClauses [] core.new.base
        (cs ++ drop (added.first - 1) (clauses_of clauses.now.live))) }
    ensures steps { OnOk result (core.new.steps ≡ core.old.steps) }
    ensures top { OnOk result (core.new.top ≡ top + (added.end - added.first)) }
{
    let mut last = top;
    'clauses: for id in added.first..added.end {
        last += 1;
        match clauses.get(id) {
            Some(lits) => core.add(last, lits)?,
            None => unreachable!(),
        }
    }
    Ok(())
}
