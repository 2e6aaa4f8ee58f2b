//! A check is answered.

ghost use Rattle.std.specs.Prelude.{◌≡◌, ◌≤◌, ◌<◌, ◌^◌, ◌⊎◌, ◌++◌, All, Err, IfErr, IfOk, IfSome};
ghost use Rattle.std.specs.Prelude.{OnOk, Some};
ghost use Rattle.qv_words.specs.Sort.{IsLawful};
ghost use Rattle.qv_store.specs.Stores.{Grows};
ghost use Rattle.qv_meter.specs.Records.{AreLimits};
ghost use Rattle.qv_meter.specs.Views.{limits_of};
ghost use Rattle.qv_script_stack.specs.Held.{HaveSorts, answer_of};
ghost use Rattle.qv_solve.specs.Solutions.{HasRecord, variables_of};
ghost use Rattle.qv_script_transcript.specs.Lawful.{prefix_length};
ghost use Rattle.qv_solve_offer.specs.Sharing.{IsShared};
ghost use Rattle.qv_shell_answer.specs.Checks.{CanCheck, formulas_in};
ghost use Rattle.qv_shell_answer.specs.Metered.{counts_of};
ghost use Rattle.qv_shell_answer.specs.Checks.{HaveFit, IsCheckedFor, IsKept, IsUnrefused, Suits};
ghost use Rattle.qv_shell_answer.specs.Checks.{kept_of, spent_word};
ghost use Rattle.qv_shell_answer.specs.Refusals.{IsSectionText};

use crate::refusals::refusal_of;
use crate::sections::section_of;
use crate::values::all_values;
use qv_meter::{Limits, Meter, SpentKind};
use qv_script::{Counts, Declared, Last, Script, SpentWord};
use qv_solve::{SolveFault, Solved, solve_one};
use qv_solve_offer::Shared;
use qv_store::{Id, NoMemory, Store};
use std::alloc::Global;

/// What a check comes to: the answer that the script keeps, the text of its section, its counts, and
/// the line by which the checker refuses the section, if it was asked and does.
#[derive(Drop)]
pub struct Checked {
    pub last: Last,
    pub section: Vec<u8>,
    pub counts: Counts,
    pub refusal: Option<Vec<u8>>,
}

/// The answer to a check, the one of this number, of the assertions in force and of what is assumed.
/// Constants that occur in none of these have the value 0. The store may keep further terms. With
/// `rechecks` the checker looks at the section, and refuses none. What the checks before have left
/// in `shared` may offer values, of which nothing need hold.
pub fn answer(
    alloc: Global,
    store: &mut Store,
    script: &Script,
    shared: &mut Shared,
    number: u64,
    places: u32,
    limits: Limits,
    rechecks: bool,
    meter: &mut Meter,
) -> Result<Checked, SolveFault>
    requires check { CanCheck store.old script.now }
    requires shared { IsShared store.old shared.old }
    requires number { number < 2 ^ 62 }
    requires limits { AreLimits (limits_of limits) }

    // The answer is lawful, with a section and a record of its own.
    ensures checked { IfOk result (IsCheckedFor number (limits_of limits) script.now.constants
        (formulas_in store.old script.now) meter.new) }
    ensures record { OnOk result (HasRecord (limits_of limits) meter.old meter.new) }

    // The limit, exactly, and want of memory: the meter is as it was, or has a record more.
    ensures within { OnOk result
        (prefix_length (formulas_in store.old script.now) ≤ places) }
    ensures over { result ≡ Err SolveFault.PrefixLimit →
        (places < prefix_length (formulas_in store.old script.now))
        × (meter.new ≡ meter.old) }
    ensures memory { result ≡ Err SolveFault.NoMemory → (meter.new ≡ meter.old)
        ⊎ HasRecord (limits_of limits) meter.old meter.new }
    ensures grows { Grows store.old store.new }

    // What is shared is for the same store.
    ensures shared { IsShared store.new shared.new }
{
    let checked = answer_once(alloc, store, script, shared, number, places, limits, meter)?;
    if rechecks {
        recheck(alloc, store, script, number, places, checked)
    } else {
        Ok(checked)
    }
}

// The same, and the checker isn't asked.
fn answer_once(
    alloc: Global,
    store: &mut Store,
    script: &Script,
    shared: &mut Shared,
    number: u64,
    places: u32,
    limits: Limits,
    meter: &mut Meter,
) -> Result<Checked, SolveFault>
    requires check { CanCheck store.old script.now }
    requires shared { IsShared store.old shared.old }
    requires number { number < 2 ^ 62 }
    requires limits { AreLimits (limits_of limits) }
    ensures checked { IfOk result (IsCheckedFor number (limits_of limits) script.now.constants
        (formulas_in store.old script.now) meter.new) }
    ensures record { OnOk result (HasRecord (limits_of limits) meter.old meter.new) }
    ensures within { OnOk result
        (prefix_length (formulas_in store.old script.now) ≤ places) }
    ensures over { result ≡ Err SolveFault.PrefixLimit →
        (places < prefix_length (formulas_in store.old script.now))
        × (meter.new ≡ meter.old) }
    ensures memory { result ≡ Err SolveFault.NoMemory → (meter.new ≡ meter.old)
        ⊎ HasRecord (limits_of limits) meter.old meter.new }
    ensures grows { Grows store.old store.new }
    ensures shared { IsShared store.new shared.new }
{
    let formulas = formulas_of(alloc, script)?;
    let offered = shared.words(store, &formulas);
    let solved = solve_one(
        alloc, store, &formulas, &offered, number, places, limits, meter,
    )?;
    let counts = counts_in(meter, &solved);
    Ok(finish(alloc, script.constants(), &solved, counts)?)
}

// The same with what the checker says of its section.
fn recheck(
    alloc: Global,
    store: &mut Store,
    script: &Script,
    number: u64,
    places: u32,
    checked: Checked,
) -> Result<Checked, SolveFault>
    requires check { CanCheck store.old script.now }
    requires section { IsSectionText (formulas_in store.old script.now) number
        checked.section.items }
    ensures same { IfOk result (IsUnrefused checked) }
    ensures memory { IfErr result (λ fault. fault ≡ SolveFault.NoMemory) }
    ensures grows { Grows store.old store.new }
{
    let formulas = formulas_of(alloc, script)?;
    let refusal = refusal_of(alloc, store, &formulas, number, places, &checked.section)?;
    Ok(Checked {
        last: checked.last,
        section: checked.section,
        counts: checked.counts,
        refusal,
    })
}

/// The assertions in force, and what is assumed.
pub(crate) fn formulas_of(alloc: Global, script: &Script) -> Result<Vec<Id>, NoMemory>
    ensures { IfOk result (λ formulas.
        formulas.items ≡ script.now.assertions ++ script.now.assumed) }
{
    let mut formulas = Vec::from_slice(alloc, script.assertions())?;
    formulas.extend_from_slice(script.assumptions())?;
    Ok(formulas)
}

// What the newest record counts, and the greatest variable of an answer's clauses.
fn counts_in(meter: &Meter, solved: &Solved) -> Counts
    ensures newest { IfSome meter.now.newest (λ r. result ≡ counts_of r result.variables) }
    ensures variables { result.variables ≡ variables_of solved.now }
{
    let variables = variables_of(solved);
    match meter.newest() {
        Some(record) => Counts {
            conflicts: record.conflicts,
            instances: record.instances,
            variables,
        },
        None => Counts {
            conflicts: 0,
            instances: 0,
            variables,
        },
    }
}

// The greatest variable of the clauses that the section of an answer refutes.
fn variables_of(solved: &Solved) -> u32
    ensures { result ≡ variables_of solved.now }
{
    match solved {
        Solved::Sat { variables, .. } => *variables,
        Solved::Unsat { variables, .. } => *variables,
        Solved::Unknown { .. } => 0,
    }
}

// What is kept and written of an answer.
fn finish(
    alloc: Global,
    constants: &[Declared],
    solved: &Solved,
    counts: Counts,
) -> Result<Checked, NoMemory>
    requires { Suits constants.now solved.now }
    ensures { IfOk result (IsKept constants.now solved.now counts) }
{
    let last = last_of(alloc, constants, solved)?;
    let section = section_of(alloc, solved)?;
    Ok(Checked {
        last,
        section,
        counts,
        refusal: None,
    })
}

// The answer that a script keeps.
fn last_of(alloc: Global, constants: &[Declared], solved: &Solved) -> Result<Last, NoMemory>
    requires lawful { All (λ own. IsLawful own.sort) constants.now }
    requires fit { HaveFit constants.now solved.now }
    ensures last { IfOk result (λ last. answer_of last ≡ kept_of constants.now solved.now) }
    ensures sorts { IfOk result (λ last. HaveSorts constants.now (Some last)) }
{
    match solved {
        Solved::Sat {
            constants: given,
            ..
        } => Ok(Last::Sat {
            values: all_values(alloc, constants, given)?,
        }),
        Solved::Unsat { .. } => Ok(Last::Unsat),
        Solved::Unknown { kind, .. } => Ok(Last::Unknown {
            spent: spent_word(*kind),
        }),
    }
}

// What a script calls the quantity that was spent.
fn spent_word(kind: SpentKind) -> SpentWord
    ensures { result ≡ spent_word kind }
{
    match kind {
        SpentKind::Conflicts => SpentWord::Conflicts,
        SpentKind::Instances => SpentWord::Instances,
        SpentKind::Variables => SpentWord::Variables,
    }
}
