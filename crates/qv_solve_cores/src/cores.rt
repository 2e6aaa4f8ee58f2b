//! The search for a core.

ghost use Rattle.std.specs.Prelude.{◌≡◌, ◌<◌, ◌^◌, ◌++◌, All, IfOk, IsSome, List, OnErr, OnOk};
ghost use Rattle.std.specs.Prelude.{Some, length, map, true};
ghost use Rattle.qv_words.specs.Truth.{AreTrue, IsAssertion, HaveOneSort};
ghost use Rattle.qv_words.specs.Problem.{problem_of};
ghost use Rattle.qv_store.specs.Nodes.{tree_at};
ghost use Rattle.qv_store.specs.Stores.{Grows};
ghost use Rattle.qv_cnf.specs.Listing.{Rises};
ghost use Rattle.qv_core.specs.Searching.{answered, begun, trial_of};
ghost use Rattle.qv_meter.specs.Records.{AreLimits, Record, records_of};
ghost use Rattle.qv_meter.specs.Views.{limits_of};
ghost use Rattle.qv_solve_cores.specs.Cores.{IsCore, IsSectionLeft, StartsSome};
ghost use Rattle.qv_solve_cores.specs.Trying.{HasLeftOut, HasTried, HasTriedAll, IsFresh};
ghost use Rattle.qv_solve_cores.specs.Trying.{MaySearch, Stands};

use crate::lists::{drop_all, kept_places, list_without};
use crate::trials::try_list;
use qv_cert::Section;
use qv_core::CoreSearch;
use qv_meter::{Limits, Meter};
use qv_store::{Id, NoMemory, Store};
use std::alloc::Global;

/// What a search for a core found: the places that are kept, and a section for what is left, where
/// anything was dropped.
#[derive(Debug, Drop)]
pub struct CoreFound {
    pub kept: Vec<u64>,
    pub section: Option<Section>,
}

// Where a search stands: which items are kept, and the last section that shows what is left.
#[derive(Debug, Drop)]
pub(crate) struct Course {
    pub(crate) search: CoreSearch,
    pub(crate) section: Option<Section>,
}

/// A core of formulas that have no model, of which those at some places have names: the formulas
/// without a name and the ones that are kept have none either. First those at places that are
/// offered are left out together, and dropped where an answer shows that they may be. Then each name
/// that is left is tried alone, in their order. There is a record for each of these answers. The
/// store may keep further terms.
pub fn core_one(
    alloc: Global,
    store: &mut Store,
    assertions: &[Id],
    named: &[u64],
    offered: &[u64],
    limits: Limits,
    meter: &mut Meter,
) -> Result<CoreFound, NoMemory>
    requires ids { All (λ id. id < length store.old) assertions.now }
    requires assertions { All IsAssertion (map (tree_at store.old) assertions.now) }
    requires sorts { HaveOneSort (map (tree_at store.old) assertions.now) }
    requires limits { AreLimits (limits_of limits) }
    requires within { length
        (problem_of (map (tree_at store.old) assertions.now)).prefix < 2 ^ 32 }

    // They have no model.
    requires unsat { AreTrue (map (tree_at store.old) assertions.now) → ⊥ }

    // Which have names. What is offered may be any places: it is tried, and decides nothing.
    requires rises { Rises 0 named.now }
    requires below { All (λ n. n < length assertions.now) named.now }

    // What is kept is a core: without any of it a model is left, or the trial's record is spent.
    ensures core { IfOk result (λ found. (records : List Record)
        × IsCore (limits_of limits) (map (tree_at store.old) assertions.now) named.now
        found.kept.items records × (records_of meter.new ≡ records_of meter.old ++ records)) }
    ensures section { IfOk result (λ found. IsSectionLeft
        (map (tree_at store.old) assertions.now) named.now found.kept.items found.section) }

    // Want of memory: there may be fewer records.
    ensures memory { OnErr result (StartsSome (limits_of limits) meter.old meter.new) }
    ensures grows { Grows store.old store.new }
{
    let search = CoreSearch::new(alloc, named.len() as u64)?;
    let mut course = Course {
        search,
        section: None,
    };
    leave_out(
        alloc,
        store,
        assertions,
        named,
        offered,
        limits,
        meter,
        &mut course,
    )?;
    try_each(alloc, store, assertions, named, limits, meter, &mut course)?;
    let Course { search, section } = course;
    let kept = kept_places(alloc, named, &search)?;
    Ok(CoreFound { kept, section })
}

// Leaves out what is offered, where an answer shows that it may be.
fn leave_out(
    alloc: Global,
    store: &mut Store,
    assertions: &[Id],
    named: &[u64],
    offered: &[u64],
    limits: Limits,
    meter: &mut Meter,
    course: &mut Course,
) -> Result<(), NoMemory>
    requires may { MaySearch store.old assertions.now named.now }
    requires limits { AreLimits (limits_of limits) }
    requires fresh { IsFresh (length named.now) course.old }
    ensures left_out { OnOk result (HasLeftOut (limits_of limits)
        (map (tree_at store.old) assertions.now) named.now meter.old meter.new course.new) }
    ensures memory { OnErr result (StartsSome (limits_of limits) meter.old meter.new) }
    ensures grows { Grows store.old store.new }
{
    let mut fewer = CoreSearch::new(alloc, named.len() as u64)?;
    if !drop_all(named, offered, &mut fewer) {
        return Ok(());
    }
    let list = list_without(alloc, assertions, named, &fewer, None)?;
    match try_list(alloc, store, &list, limits, meter)? {
        Some(section) => stand_at(fewer, section, course),
        None => (),
    }
    Ok(())
}

// The search goes on from here.
fn stand_at(search: CoreSearch, section: Section, course: &mut Course)
    ensures { course.new ≡ record { search = search; section = Some section } }
{
    course.search = search;
    course.section = Some(section);
}

// Tries each item that is left.
fn try_each(
    alloc: Global,
    store: &mut Store,
    assertions: &[Id],
    named: &[u64],
    limits: Limits,
    meter: &mut Meter,
    course: &mut Course,
) -> Result<(), NoMemory>
    requires may { MaySearch store.old assertions.now named.now }
    requires limits { AreLimits (limits_of limits) }
    requires begun { course.old.search.next ≡ 0 }
    requires stands { Stands (map (tree_at store.old) assertions.now) named.now course.old.search
        course.old.section }
    ensures tried { OnOk result (HasTriedAll (limits_of limits)
        (map (tree_at store.old) assertions.now) named.now meter.old meter.new course.old
        course.new) }
    ensures memory { OnErr result (StartsSome (limits_of limits) meter.old meter.new) }
    ensures grows { Grows store.old store.new }
{
    'trials: while let Some(item) = course.search.trial() {
        try_one(alloc, store, assertions, named, item, limits, meter, course)?;
    }
    Ok(())
}

// Tries an item: it is dropped where what is left without it has no model.
fn try_one(
    alloc: Global,
    store: &mut Store,
    assertions: &[Id],
    named: &[u64],
    item: u64,
    limits: Limits,
    meter: &mut Meter,
    course: &mut Course,
) -> Result<(), NoMemory>
    requires may { MaySearch store.old assertions.now named.now }
    requires limits { AreLimits (limits_of limits) }
    requires stands { Stands (map (tree_at store.old) assertions.now) named.now course.old.search
        course.old.section }
    requires item { trial_of course.old.search ≡ Some item }
    ensures tried { OnOk result (HasTried (limits_of limits)
        (map (tree_at store.old) assertions.now) named.now item meter.old meter.new course.old
        course.new) }
    ensures memory { OnErr result (StartsSome (limits_of limits) meter.old meter.new) }
    ensures grows { Grows store.old store.new }
{
    let list = list_without(alloc, assertions, named, &course.search, Some(item))?;
    match try_list(alloc, store, &list, limits, meter)? {
        Some(section) => drop_item(section, course),
        None => course.search.answer(false),
    }
    Ok(())
}

// The item that is tried goes.
fn drop_item(section: Section, course: &mut Course)
    requires { IsSome (trial_of course.old.search) }
    ensures search { course.new.search ≡ answered true course.old.search }
    ensures section { course.new.section ≡ Some section }
{
    course.search.answer(true);
    course.section = Some(section);
}
