//! The refutation of a final list.

ghost use Rattle.std.specs.Prelude.{◌≡◌, ◌≢◌, ◌<◌, ◌≤◌, ◌^◌, ◌⊎◌, ℕ, [], Bool, All, IfOk, IfErr};
ghost use Rattle.std.specs.Prelude.{OnOk, length};
ghost use Rattle.qv_cnf.specs.LratLine.{lines_of};
ghost use Rattle.qv_cnf.specs.Refutation.{Refutes};
ghost use Rattle.qv_cnf.specs.Listing.{clauses_of};
ghost use Rattle.qv_cnf.specs.Truth.{IsModel};
ghost use Rattle.qv_lrat_text.specs.Grammar.{HasIds, IsId};
ghost use Rattle.qv_store.specs.Walks.{named};
ghost use Rattle.qv_meter.specs.Charging.{MayCharge, SameButConflicts};
ghost use Rattle.qv_meter.specs.Records.{in_lane, IsMetering};
ghost use Rattle.qv_meter.specs.Units.{Final};
ghost use Rattle.qv_blast.specs.Blasters.{from_one};
ghost use Rattle.qv_cert.specs.ClauseList.{clause_list, variables_of};
ghost use Rattle.qv_solve_refute.specs.Refuting.{IsCharged, IsForFinal, IsFree, IsMeasured};
ghost use Rattle.qv_solve_refute.specs.Refuting.{IsSpentBy};
ghost use Rattle.qv_solve_refute.specs.Refuting.{found_in, laid_in, steps_in, variable_limit};
ghost use Rattle.qv_solve_refute.specs.Greatest.{greatest_variable};
ghost use Rattle.qv_solve_refute.specs.Feeding.{listed_in};

use crate::feeding::blast;
use crate::greatest::greatest_variable;
use crate::laying::{close_list, laid_list};
use crate::trying::refutes;
use qv_closed::{Closed, Laid, have_ids};
use qv_cnf::{ClauseList, Step};
use qv_gates::laws::refutes_behind;
use qv_meter::{Lane, Meter, PlayFault, SpentKind};
use qv_sat::{Core, Outcome, SatFault};
use qv_store::{Id, Store};
use std::alloc::Global;

/// Where a refutation stands: in the steps that were noted, in those of closure on gates, or behind
/// these in a core that has searched for it.
#[derive(Drop)]
pub enum Refutation {
    Noted,
    Closed(Vec<Step>),
    Searched(Laid),
}

impl Refutation {
    /// Its steps in front of a search.
    pub fn laid(&self) -> &[Step]
        ensures { lines_of result.now ≡ laid_in self.now }
    {
        match self {
            Refutation::Searched(laid) => &laid.steps,
            _ => &[],
        }
    }

    /// Its steps behind them.
    pub fn steps<'a>(&'a self, noted: &'a [Step]) -> &'a [Step]
        ensures { lines_of result.now ≡ found_in (lines_of noted.now) self.now }
    {
        match self {
            Refutation::Noted => noted,
            Refutation::Closed(steps) => steps,
            Refutation::Searched(laid) => laid.core.steps(),
        }
    }
}

/// A refutation, and the greatest variable of the clauses that it refutes.
#[derive(Drop)]
pub struct Refuted {
    pub refutation: Refutation,
    pub variables: u32,
}

/// A refutation of the clauses of the newest record's final list. Steps that were noted are tried
/// first, and then those of closure on gates. Where neither serve, a core searches behind the
/// latter, and its conflicts are charged to the final lane.
pub fn refute(
    alloc: Global,
    store: &Store,
    list: &[Id],
    noted: &[Step],
    meter: &mut Meter,
) -> Result<Refuted, PlayFault>
    requires below { All (λ id. id < length store.now) list.now }
    requires owed { IsForFinal meter.old (named store.now list.now) }
    ensures refutes { IfOk result (λ found. Refutes (clause_list (named store.now list.now))
        (steps_in (lines_of noted.now) found.refutation)) }
    ensures few { OnOk result (variables_of (named store.now list.now) ≤ 2 ^ 30) }
    ensures ids { IfOk result (λ found.
        All HasIds (steps_in (lines_of noted.now) found.refutation)) }
    ensures greatest { IfOk result (λ found. found.variables
        ≡ greatest_variable (clause_list (named store.now list.now))) }
    ensures charged { IsCharged meter.old meter.new result }
    ensures spent { IfErr result (IsSpentBy meter.new) }
    ensures variables { IsMeasured meter.old (named store.now list.now) result }

    // Noted steps that refute the clauses, with ids that can be written, are taken. Nothing is
    // charged where nothing was searched.
    ensures noted { IfOk result (λ found. Refutes (clause_list (named store.now list.now))
        (lines_of noted.now) → All HasIds (lines_of noted.now) →
        found.refutation ≡ Refutation.Noted) }
    ensures free { IfOk result (λ found.
        IsFree found.refutation → meter.new ≡ in_lane Final meter.old) }
{
    meter.lane(Lane::Final);
    let limit = variable_limit(meter);
    let Some(blaster) = blast(alloc, store, list, limit)? else {
        let _spent = meter.variables(store, list);
        return Err(PlayFault::Spent(SpentKind::Variables));
    };
    let clauses = blaster.clauses();
    let variables = greatest_variable(clauses)?;
    let refutation = refutation_of(alloc, clauses, noted, meter)?;
    Ok(Refuted {
        refutation,
        variables,
    })
}

// A refutation of clauses that have no model, by the noted steps, by closure or by a search.
fn refutation_of(
    alloc: Global,
    clauses: &ClauseList,
    noted: &[Step],
    meter: &mut Meter,
) -> Result<Refutation, PlayFault>
    requires numbered { clauses.now ≡ from_one (clauses_of clauses.now.live) }
    requires each { All (λ c. c ≢ []) (clauses_of clauses.now.live) }
    requires may { MayCharge meter.old (listed_in clauses.now) [] }
    requires no_model { (v : ℕ → Bool) → IsModel v (clauses_of (listed_in clauses.now)) → ⊥ }
    ensures refutes { IfOk result (λ found. Refutes (listed_in clauses.now)
        (steps_in (lines_of noted.now) found)) }
    ensures ids { IfOk result (λ found. All HasIds (steps_in (lines_of noted.now) found)) }
    ensures same { SameButConflicts meter.old meter.new }
    ensures fault { IfErr result (λ fault. (fault ≡ PlayFault.NoMemory)
        ⊎ (fault ≡ PlayFault.Spent SpentKind.Conflicts)) }
    ensures spent { IfErr result (IsSpentBy meter.new) }
    ensures noted { IfOk result (λ found. Refutes (listed_in clauses.now) (lines_of noted.now) →
        All HasIds (lines_of noted.now) → found ≡ Refutation.Noted) }
    ensures free { IfOk result (λ found. IsFree found → meter.new ≡ meter.old) }
{
    if refutes(alloc, clauses, noted)? {
        return Ok(Refutation::Noted);
    }
    refutes_behind();
    let Closed {
        steps,
        refuted,
        advice,
    } = close_list(alloc, clauses)?;
    if refuted && have_ids(&steps) {
        return Ok(Refutation::Closed(steps));
    }
    let mut laid = laid_list(alloc, clauses, steps, advice)?;
    conclude(&mut laid.core, meter)?;
    Ok(Refutation::Searched(laid))
}

// How many variables the newest record's lists may have.
fn variable_limit(meter: &Meter) -> u32
    ensures limit { result ≡ variable_limit meter.now }
    ensures some { 1 ≤ result }
    ensures most { result ≤ 2 ^ 30 }
    ensures metering { IsMetering meter.now }
{
    match meter.newest() {
        Some(record) => record.limits.variables,
        None => 1,
    }
}

// Refutes clauses that have no model.
fn conclude(core: &mut Core, meter: &mut Meter) -> Result<(), PlayFault>
    requires may { MayCharge meter.old core.old.base core.old.steps }
    requires steps { core.old.steps ≡ [] }
    requires few { core.old.top < 2 ^ 61 }
    requires ids { All (λ c. IsId c.id) core.old.base }
    requires no_model { (v : ℕ → Bool) → IsModel v (clauses_of core.old.base) → ⊥ }
    ensures refutes { OnOk result (Refutes core.old.base core.new.steps) }
    ensures ids { OnOk result (All HasIds core.new.steps) }
    ensures same { SameButConflicts meter.old meter.new }
    ensures fault { IfErr result (λ fault. (fault ≡ PlayFault.NoMemory)
        ⊎ (fault ≡ PlayFault.Spent SpentKind.Conflicts)) }
    ensures spent { IfErr result (IsSpentBy meter.new) }
{
    let _newest = meter.newest();
    match core.solve(&[], meter) {
        Ok(Outcome::Unsat { core: _ }) => {
            let _steps = core.steps();
            Ok(())
        }
        Ok(Outcome::Found(_)) => unreachable!(),
        Err(SatFault::Spent) => Err(PlayFault::Spent(SpentKind::Conflicts)),
        Err(SatFault::NoMemory) => Err(PlayFault::NoMemory),
    }
}
