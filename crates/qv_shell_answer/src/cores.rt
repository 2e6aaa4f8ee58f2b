//! A core is asked.

ghost use Rattle.std.specs.Prelude.{◌≡◌, IfOk, OnErr};
ghost use Rattle.qv_store.specs.Stores.{Grows};
ghost use Rattle.qv_meter.specs.Records.{AreLimits, records_of};
ghost use Rattle.qv_meter.specs.Views.{limits_of};
ghost use Rattle.qv_script_defs.specs.State.{places_of};
ghost use Rattle.qv_script_stack.specs.Held.{named_of, terms_of};
ghost use Rattle.qv_solve_cores.specs.Cores.{StartsSome};
ghost use Rattle.qv_shell_answer.specs.Checks.{CanCore, formulas_in, texts_of, IsCoreFor};

use crate::checking::formulas_of;
use qv_meter::{Limits, Meter};
use qv_script::{Named, Script};
use qv_solve_cores::core_one;
use qv_solve_offer::unneeded;
use qv_store::{NoMemory, Store};
use std::alloc::Global;

/// What may be left out of a core: assertions that have names, or what was assumed.
#[derive(Clone, Copy)]
pub enum Among {
    Names,
    Assumptions,
}

/// A core of what was checked last, which isn't true: the places that are kept of what may be left
/// out. There is a record for each trial. The store may keep further terms.
pub fn core(
    alloc: Global,
    store: &mut Store,
    script: &Script,
    among: Among,
    limits: Limits,
    meter: &mut Meter,
) -> Result<Vec<u64>, NoMemory>
    requires core { CanCore store.old script.now among }
    requires limits { AreLimits (limits_of limits) }
    ensures core { IfOk result (λ kept. IsCoreFor (limits_of limits)
        (formulas_in store.old script.now) (texts_of among script.now)
        (records_of meter.old) (records_of meter.new) kept.items) }
    ensures memory { OnErr result (StartsSome (limits_of limits) meter.old meter.new) }
    ensures grows { Grows store.old store.new }
{
    let formulas = formulas_of(alloc, script)?;
    let places = places(alloc, script, among)?;
    let offered = unneeded(alloc, store, formulas.as_slice(), places.as_slice())?;
    let found = core_one(alloc, store, &formulas, &places, &offered, limits, meter)?;
    Ok(found.kept)
}

// The places of what may be left out.
fn places(alloc: Global, script: &Script, among: Among) -> Result<Vec<u64>, NoMemory>
    ensures { IfOk result (λ places. places.items ≡ places_of (texts_of among script.now)) }
{
    match among {
        Among::Names => named_places(alloc, script.named()),
        Among::Assumptions => assumed_places(alloc, script),
    }
}

// The places of the assertions that have names.
fn named_places(alloc: Global, named: &[Named]) -> Result<Vec<u64>, NoMemory>
    ensures { IfOk result (λ places. places.items ≡ places_of (named_of named.now)) }
{
    let mut places = Vec::new(alloc);
    'named: for one in named {
        places.push(one.assertion)?;
    }
    Ok(places)
}

// The places of what was assumed, behind the assertions.
fn assumed_places(alloc: Global, script: &Script) -> Result<Vec<u64>, NoMemory>
    ensures { IfOk result (λ places. places.items ≡ places_of (terms_of script.now)) }
{
    let first = script.assertions().len();
    let terms = script.terms();
    let mut places = Vec::new(alloc);
    'assumed: for i in 0..terms.len() {
        places.push((first + i) as u64)?;
    }
    Ok(places)
}
