//! Decisions: the assumptions first, then the most active variable, with its last value.

ghost use Rattle.std.specs.Prelude.{◌≡◌, ◌≢◌, ◌+◌, ◌<◌, ◌≤◌, ◌^◌, ℕ, true, false, None, Some, Ok};
ghost use Rattle.std.specs.Prelude.{IfOk, IfSome, IfNone, length, min, slice_get};
ghost use Rattle.qv_cnf.specs.Refutation.{among};
ghost use Rattle.qv_watch.specs.Entries.{trues, value_of};
ghost use Rattle.qv_watch.specs.TrailState.{IsTrail};
ghost use Rattle.qv_sat.specs.Answering.{assignment};
ghost use Rattle.qv_sat.specs.Choosing.{Covers};
ghost use Rattle.qv_sat.specs.Counting.{unvalued};
ghost use Rattle.qv_sat.specs.Deciding.{AnswersOn, AreOpened, IsWithin, MayDecide};
ghost use Rattle.qv_sat.specs.Reaching.{IsReached};

use super::choosing::Chooser;
use super::failing::failed_core;
use super::outcomes::Outcome;
use qv_cnf::Lit;
use qv_watch::{Propagated, Trail};
use std::alloc::{AllocError, Global};

// Where a search stands that learns nothing.
#[derive(Drop)]
pub(crate) enum Reached {
    // The clause of this id is false.
    Conflict(u64),
    Answer(Outcome),
}

// The negation of the variable.
fn negative(variable: u32) -> Lit
    requires from { 1 ≤ variable }
    requires to { variable ≤ 2 ^ 30 }
    ensures variable { result.variable ≡ variable }
    ensures sign { result.positive ≡ false }
{
    Lit::new(-(variable as i32)).unwrap()
}

// How many of the first assumptions are true, from as many on.
fn true_front(trail: &Trail, assumptions: &[Lit], from: usize) -> usize
    requires { AreOpened trail.now assumptions.now from }
    ensures opened { AreOpened trail.now assumptions.now result }
    ensures open { result < length assumptions.now →
        IfSome (slice_get assumptions.now result)
        (λ lit. value_of trail.now.entries lit ≢ Some true) }
{
    let mut opened = from;
    while opened < assumptions.len() && trail.value(assumptions[opened]) == Some(true) {
        opened += 1;
    }
    opened
}

// Whether each variable is true.
fn values_of(alloc: Global, trail: &Trail, variables: u32) -> Result<Vec<bool>, AllocError>
    requires { variables ≤ 2 ^ 30 }
    ensures long { IfOk result (λ values. length values.items ≡ variables) }
    ensures values { IfOk result (λ values. (v : ℕ) → 1 ≤ v → v ≤ variables →
        assignment values.items v ≡
        among (trues trail.now.entries) record { variable = v; positive = true }) }
{
    let mut values = Vec::new(alloc);
    for before in 0..variables {
        let lit = negative(before + 1).negated();
        values.push(trail.value(lit) == Some(true))?;
    }
    Ok(values)
}

// Takes the next decision, or answers where none is left.
fn decide(
    alloc: Global,
    trail: &mut Trail,
    chooser: &mut Chooser,
    assumptions: &[Lit],
    opened: usize,
    variables: u32,
) -> Result<Option<Outcome>, AllocError>
    requires trail { IsTrail trail.old }
    requires quiet { trail.old.answer ≡ Some Propagated.Quiet }
    requires ready { MayDecide trail.old assumptions.now variables }
    requires opened { AreOpened trail.old assumptions.now opened }
    requires open { opened < length assumptions.now →
        IfSome (slice_get assumptions.now opened)
        (λ lit. value_of trail.old.entries lit ≢ Some true) }
    requires wide { length chooser.old.order.held ≡ variables }
    requires covers { Covers chooser.old.order.held trail.old.entries }
    ensures wide { length chooser.new.order.held ≡ variables }
    ensures covers { Covers chooser.new.order.held trail.new.entries }
    ensures stays { result ≢ Ok None → trail.new ≡ trail.old }
    ensures ready { MayDecide trail.new assumptions.now variables }
    ensures clauses { trail.new.clauses ≡ trail.old.clauses }
    ensures less { result ≡ Ok None → unvalued variables trail.new.entries <
        unvalued variables trail.old.entries }
    ensures opened { result ≡ Ok None →
        AreOpened trail.new assumptions.now (min (opened + 1) (length assumptions.now)) }
    ensures answer { IfOk result (λ o.
        IfSome o (AnswersOn trail.old.clauses assumptions.now variables)) }
{
    if opened < assumptions.len() {
        let lit = assumptions[opened];
        if trail.value(lit) == Some(false) {
            let core = failed_core(alloc, trail, lit, variables)?;
            return Ok(Some(Outcome::Unsat { core }));
        }
        trail.assume(lit);
        return Ok(None);
    }
    if let Some(lit) = chooser.next(trail) {
        trail.assume(lit);
        return Ok(None);
    }
    let values = values_of(alloc, trail, variables)?;
    Ok(Some(Outcome::Found(values)))
}

// Propagates and decides until a clause is false, or the answer is known. Assumptions are opened
// one after another: as many are true as levels are open, and from one decision to the next only
// the rest is looked at.
pub(crate) fn descend(
    alloc: Global,
    trail: &mut Trail,
    chooser: &mut Chooser,
    assumptions: &[Lit],
    variables: u32,
) -> Result<Reached, AllocError>
    requires ready { MayDecide trail.old assumptions.now variables }
    requires wide { length chooser.old.order.held ≡ variables }
    requires covers { Covers chooser.old.order.held trail.old.entries }
    ensures wide { length chooser.new.order.held ≡ variables }
    ensures covers { Covers chooser.new.order.held trail.new.entries }
    ensures trail { IsTrail trail.new }
    ensures ready { MayDecide trail.new assumptions.now variables }
    ensures clauses { trail.new.clauses ≡ trail.old.clauses }
    ensures reached { IfOk result (IsReached trail.new assumptions.now variables) }
{
    let mut opened = assumptions.len().min(trail.level() as usize);
    'decisions: loop {
        if let Propagated::Conflict { id } = trail.propagate() {
            return Ok(Reached::Conflict(id));
        }
        opened = true_front(trail, assumptions, opened);
        if let Some(outcome) = decide(alloc, trail, chooser, assumptions, opened, variables)? {
            return Ok(Reached::Answer(outcome));
        }
        opened = assumptions.len().min(opened + 1);
    }
}
