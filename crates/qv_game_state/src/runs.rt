//! The runs of a point's bits that a core names.

ghost use Rattle.std.specs.Prelude.{◌≡◌, ◌+◌, ◌<◌, ◌≤◌, ◌++◌, ◌∷◌, [], Bool, IfOk, IfSome, List};
ghost use Rattle.std.specs.Prelude.{All, OnOk, Some, length, map, true, ℕ};
ghost use Rattle.qv_words.specs.Tree.{Tree};
ghost use Rattle.qv_words.specs.Word.{values_of};
ghost use Rattle.qv_circuits.specs.Adding.{lits_of};
ghost use Rattle.qv_game_lanes.specs.Lanes.{known_of, IsLane};
ghost use Rattle.qv_game_regions.specs.Runs.{run_of};
ghost use Rattle.qv_game_entry_laws.specs.Fixings.{named_in, named_runs, runs_from};
ghost use Rattle.qv_store.specs.Walks.{named};
ghost use Rattle.qv_game_state.specs.Naming.{is_marked_in, named_by};

use crate::marks::{is_marked, marks_of};
use qv_cnf::Lit;
use qv_game_lanes::{Lane, as_known};
use qv_game_regions::Run;
use qv_store::{Id, Store};
use qv_words::Word;
use std::alloc::{AllocError, Global};

/// The runs of the point's bits whose literals are in a core, place by place.
pub fn failed_runs(
    alloc: Global,
    lane: &Lane,
    store: &Store,
    places: &[Id],
    point: &[Word],
    core: &[Lit],
) -> Result<Vec<Run>, AllocError>
    requires lane { (formulas : List Tree) × IsLane store.now formulas lane.now }
    requires low { All (λ n. n < length store.now) places.now }
    requires few { length point.now ≤ length places.now }
    ensures { IfOk result (λ runs. map run_of runs.items
        ≡ named_runs (named_by core.now) (known_of store.now lane.now) 0
        (named store.now places.now) (values_of point.now)) }
{
    let marks = marks_of(alloc, core)?;
    let mut runs = Vec::new(alloc);
    'places: for (place, word) in point.iter().enumerate() {
        let bits = lane.bits(store, places[place]);
        add_runs(&mut runs, place as u64, bits, word.value(), &marks)?;
    }
    Ok(runs)
}

// Those of one place.
fn add_runs(
    runs: &mut Vec<Run>,
    place: u64,
    bits: &[Lit],
    value: u128,
    marks: &[bool],
) -> Result<(), AllocError>
    requires { length bits.now ≤ 128 }
    ensures { OnOk result (map run_of runs.new.items ≡ map run_of runs.old.items
        ++ named_in (is_marked_in marks.now) place value (lits_of bits.now)) }
{
    let mut low = None;
    let mut rest = value;
    let mut index = 0u8;
    'bits: for bit in bits {
        let named = is_marked(marks, as_known(*bit, rest % 2 == 1));
        low = add_bit(runs, place, low, index, named)?;
        rest /= 2;
        index += 1;
    }
    end_run(runs, place, low, index)
}

// One bit more, where a run may have begun: it begins one, goes on with it, or ends it.
fn add_bit(
    runs: &mut Vec<Run>,
    place: u64,
    low: Option<u8>,
    index: u8,
    named: bool,
) -> Result<Option<u8>, AllocError>
    requires { IfSome low (λ l. l < index) }
    ensures begun { IfOk result (λ next. IfSome next (λ l. l ≤ index)) }
    ensures step { IfOk result (λ next. (rest : List Bool) →
        map run_of runs.new.items ++ runs_from place (index + 1) next rest
        ≡ map run_of runs.old.items ++ runs_from place index low (named ∷ rest)) }
{
    if named {
        return Ok(Some(begin(low, index)));
    }
    end_run(runs, place, low, index)?;
    Ok(None)
}

// Where a run began that may begin here.
fn begin(low: Option<u8>, index: u8) -> u8
    requires { IfSome low (λ l. l < index) }
    ensures within { result ≤ index }
    ensures same { (place : ℕ) (rest : List Bool) → runs_from place (index + 1) (Some result) rest
        ≡ runs_from place index low (true ∷ rest) }
{
    match low {
        Some(low) => low,
        None => index,
    }
}

// Ends the run that has begun, before this index.
fn end_run(runs: &mut Vec<Run>, place: u64, low: Option<u8>, end: u8) -> Result<(), AllocError>
    requires { IfSome low (λ l. l < end) }
    ensures { OnOk result (map run_of runs.new.items
        ≡ map run_of runs.old.items ++ runs_from place end low []) }
{
    if let Some(low) = low {
        runs.push(Run {
            place,
            high: end - 1,
            low,
        })?;
    }
    Ok(())
}
