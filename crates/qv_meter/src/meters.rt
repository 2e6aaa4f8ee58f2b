//! A meter: records, the newest of which is charged.

ghost use Rattle.std.specs.Prelude.{◌≡◌, ◌<◌, ◌+◌, ◌^◌, ◌↔◌, ℕ, Some, [], ◌∷◌, IsErr, OnOk, OnErr};
ghost use Rattle.std.specs.Prelude.{IfOk, IsSomeAnd, List, false, length, map, option_map};
ghost use Rattle.std.specs.Prelude.{option_copied};
ghost use Rattle.qv_words.specs.Linked.{Entry};
ghost use Rattle.qv_store.specs.Nodes.{tree_at};
ghost use Rattle.qv_store.specs.Problems.{problem_in};
ghost use Rattle.qv_store.specs.Walks.{named};
ghost use Rattle.qv_trees.specs.Subtrees.{subtrees_of};
ghost use Rattle.qv_meter.specs.Views.{lane_of, limits_of, metering_of, record_of, kept_of};
ghost use Rattle.qv_meter.specs.Views.{unit_in};
ghost use Rattle.qv_meter.specs.Records.{IsMetering, IsLaneOf, AreLimits, first_kept};
ghost use Rattle.qv_meter.specs.Records.{no_records, started, in_lane, after_instance};
ghost use Rattle.qv_meter.specs.Records.{after_variables, settled, IsSpentIn, Instances};
ghost use Rattle.qv_meter.specs.Charging.{OfNewest, MayChargeInstance, ExceedsVariables};

use super::charging::{charge_conflict, charge_instance};
use super::lanes::Lane;
use super::records::{Kept, Limits, Record};
use super::units::InstanceUnit;
use qv_cnf::{Budget, ClauseList, Lit, Spent, Step};
use qv_store::{Id, NoMemory, Problem, Store};
use qv_trees::{Copied, copy_terms};
use std::alloc::Global;
use std::marker::Model;

/// Records of what was charged, problem by problem, and the lane that is charged now.
#[derive(Drop)]
pub struct Meter {
    older: Vec<Record>,
    newest: Option<Record>,
    lane: Lane,
    alloc: Global,
}

impl Model for Meter {
    ghost use Rattle.qv_meter.specs.Records.{Metering, IsMetering};
    ghost use Rattle.qv_meter.specs.Views.{metering_of};

    ghost Value = { Metering };

    ghost use Rattle.std.specs.Coded.{codes};
    ghost use Rattle.qv_words.specs.TreeCode.{coded_tree};

    ghost coded = { Prim.hlevel (codes, coded_tree) };

    ghost view = { λ a. metering_of a.older.items a.newest a.lane };

    ghost invariant = { λ a. IsMetering (metering_of a.older.items a.newest a.lane) };
}

impl Meter {
    /// No record yet.
    pub fn new(alloc: Global) -> Self
        ensures { result ≡ no_records }
    {
        Meter {
            older: Vec::new(alloc),
            newest: None,
            lane: Lane::Final,
            alloc,
        }
    }

    /// A new record for this problem, which is kept in a store of its own, with the terms of its
    /// matrix and no others. Conflicts are charged to its final list until a lane is named.
    pub fn start(
        &mut self,
        store: &Store,
        problem: &Problem,
        limits: Limits,
    ) -> Result<(), NoMemory>
        requires below { problem.now.matrix < length store.now }
        requires limits { AreLimits (limits_of limits) }
        ensures ok { OnOk result
            (self.new
            ≡ started (problem_in store.now problem.now) (limits_of limits) self.old) }
        ensures err { OnErr result (self.new ≡ self.old) }
    {
        let kept = keep(self.alloc, store, problem)?;
        self.older.reserve(1)?;
        if let Some(old) = self.newest.take() {
            self.older.push_reserved(old);
        }
        self.newest = Some(first_record(kept, limits));
        self.lane = Lane::Final;
        Ok(())
    }

    /// The records before the one that is charged.
    pub fn older(&self) -> &[Record]
        ensures { map record_of result.now ≡ self.now.older }
    {
        &self.older
    }

    /// The record that is charged.
    pub fn newest(&self) -> Option<&Record>
        ensures value { self.now.newest ≡ option_map record_of (option_copied result) }
        ensures metering { IsMetering self.now }
    {
        self.newest.as_ref()
    }

    /// Names the lane that is charged from now on.
    pub fn lane(&mut self, lane: Lane)
        requires { OfNewest self.old (λ r k. IsLaneOf k.problem (lane_of lane)) }
        ensures { self.new ≡ in_lane (lane_of lane) self.old }
    {
        self.lane = lane;
    }

    /// Charges an instance: an entry, or a line of a tree.
    pub fn instance(&mut self, _store: &Store, _unit: &InstanceUnit) -> Result<(), Spent>
        requires { MayChargeInstance self.old (unit_in _store.now _unit.now) }
        ensures spent { IsErr result ↔ IsSomeAnd self.old.newest (IsSpentIn Instances) }
        ensures err { OnErr result (self.new ≡ self.old) }
        ensures ok { OnOk result (self.new ≡ after_instance self.old) }
    {
        match &mut self.newest {
            Some(newest) => charge_instance(newest),
            None => Err(Spent),
        }
    }

    /// A list of what was played has too many variables.
    pub fn variables(&mut self, _store: &Store, _list: &[Id]) -> Spent
        requires { (entries : List Entry)
            × ExceedsVariables self.old entries (named _store.now _list.now) }
        ensures { self.new ≡ after_variables self.old }
    {
        if let Some(record) = &mut self.newest {
            record.over = true;
        }
        Spent
    }

    /// Gives the newest record's problem up.
    pub fn settle(&mut self)
        ensures { self.new ≡ settled self.old }
    {
        if let Some(record) = &mut self.newest {
            record.problem = None;
        }
    }
}

// A problem in a store of its own, which has its matrix's subtrees and no other terms, and tallies
// of 0.
fn keep(alloc: Global, store: &Store, problem: &Problem) -> Result<Kept, NoMemory>
    requires { problem.now.matrix < length store.now }
    ensures kept { IfOk result
        (λ kept. kept_of kept ≡ first_kept (problem_in store.now problem.now)) }
    ensures terms { IfOk result
        (λ kept. kept.store ≡ subtrees_of (tree_at store.now problem.now.matrix ∷ [])) }
{
    let count = 2 * problem.block_count() + 1;
    let tallies = vec![in alloc; 0u64; count as usize]?;
    let Copied { store, ids } = copy_terms(alloc, store, &[problem.matrix])?;
    let mut problem = problem.copy()?;
    problem.matrix = ids[0];
    Ok(Kept {
        store,
        problem,
        tallies,
    })
}

// A record at the start.
fn first_record(kept: Kept, limits: Limits) -> Record
    ensures { record_of result ≡ record {
      kept = Some (kept_of kept);
      limits = limits_of limits;
      conflicts = 0;
      instances = 0;
      over = false;
    } }
{
    Record {
        problem: Some(kept),
        limits,
        conflicts: 0,
        instances: 0,
        over: false,
    }
}

impl Budget for Meter {
    ghost use Rattle.qv_meter.specs.Charging.{MayCharge, SameButConflicts, conflict_count};
    ghost use Rattle.qv_meter.specs.Charging.{conflict_limit};
    ghost use Rattle.qv_meter.specs.BudgetLaws.{conflicts_within, SameButConflicts-reflexive};
    ghost use Rattle.qv_meter.specs.BudgetLaws.{SameButConflicts-transitive};
    ghost use Rattle.qv_meter.specs.BudgetLaws.{SameButConflicts-limit, MayCharge-deletion};

    ghost limit = { conflict_limit };

    ghost count = { conflict_count };

    ghost may_charge = { MayCharge };

    ghost same_but_count = { SameButConflicts };

    fn conflict(
        &mut self,
        _base: &ClauseList,
        _steps: &[Step],
        _id: u64,
        _lits: &[Lit],
        _hints: &[u64],
    ) -> Result<(), Spent> {
        let lane = self.lane;
        match &mut self.newest {
            Some(newest) => charge_conflict(newest, lane),
            None => Err(Spent),
        }
    }

    ghost within = { conflicts_within };

    ghost same_reflexive = { SameButConflicts-reflexive };

    ghost same_transitive = { SameButConflicts-transitive };

    ghost same_limit = { SameButConflicts-limit };

    ghost deletion = { MayCharge-deletion };
}
