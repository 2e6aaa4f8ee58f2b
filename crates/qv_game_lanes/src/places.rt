//! The bits of places in a blaster: as a point has them, and as a model does.

ghost use Rattle.std.specs.Prelude.{◌≡◌, ◌<◌, ◌≤◌, All, IfOk, Some, length, map, unwrap_or};
ghost use Rattle.qv_words.specs.declared.sort.Sort.{Sort};
ghost use Rattle.qv_words.specs.declared.sort.Sort.TheVariants.{Bool as BoolSort};
ghost use Rattle.qv_words.specs.Sort.{width_of};
ghost use Rattle.qv_words.specs.Tree.{tree_sort};
ghost use Rattle.qv_words.specs.Word.{sorts_of, values_of, word_sort, word_value};
ghost use Rattle.qv_circuits_laws.specs.CircuitLaws.{number_of};
ghost use Rattle.qv_circuits.specs.Adding.{lits_of};
ghost use Rattle.qv_blast.specs.States.{IsBlaster};
ghost use Rattle.qv_store.specs.Nodes.{tree_at};
ghost use Rattle.qv_store.specs.Stores.{AreShared};
ghost use Rattle.qv_store.specs.Walks.{named};
ghost use Rattle.qv_game_entry_laws.specs.Fixings.{bits_found, fixings};
ghost use Rattle.qv_game_entry_laws.specs.PointLaws.{values_under};
ghost use Rattle.qv_sat.specs.Answering.{assignment};
ghost use Rattle.qv_game_lanes.specs.Lanes.{known_at};

use crate::bits::{fix, number_in, word_of};
use qv_blast::Blaster;
use qv_cnf::Lit;
use qv_store::{Id, Store};
use qv_words::Word;
use std::alloc::{AllocError, Global};

/// The bits of a term; none where it has none.
pub(crate) fn bits_of<'a>(blaster: &'a Blaster, store: &Store, id: Id) -> &'a [Lit]
    requires id { id < length store.now }
    requires blaster { IsBlaster store.now blaster.now }
    ensures bits { lits_of result.now
        ≡ bits_found (known_at store.now blaster.now) (tree_at store.now id) }
{
    match blaster.bits(store, id) {
        Some(bits) => bits,
        None => &[],
    }
}

/// Literals that fix each bit of the point.
pub(crate) fn assume(
    alloc: Global,
    blaster: &Blaster,
    store: &Store,
    places: &[Id],
    point: &[Word],
) -> Result<Vec<Lit>, AllocError>
    requires blaster { IsBlaster store.now blaster.now }
    requires low { All (λ n. n < length store.now) places.now }
    requires few { length point.now ≤ length places.now }
    ensures { IfOk result (λ lits. lits_of lits.items ≡ fixings (known_at store.now blaster.now)
        (named store.now places.now) (values_of point.now)) }
{
    let mut lits = Vec::new(alloc);
    'places: for (place, word) in point.iter().enumerate() {
        fix(
            &mut lits,
            bits_of(blaster, store, places[place]),
            word.value(),
        )?;
    }
    Ok(lits)
}

/// The values of places in a model: 0 where a place has no bits.
pub(crate) fn values_in(
    alloc: Global,
    blaster: &Blaster,
    store: &Store,
    places: &[Id],
    model: &[bool],
) -> Result<Vec<Word>, AllocError>
    requires blaster { IsBlaster store.now blaster.now }
    requires low { All (λ n. n < length store.now) places.now }
    ensures sorts { IfOk result (λ values. sorts_of values.items
        ≡ map (λ n. unwrap_or (tree_sort (tree_at store.now n)) BoolSort) places.now) }
    ensures values { IfOk result (λ values. values_of values.items
        ≡ values_under (assignment model.now) (known_at store.now blaster.now)
        (named store.now places.now)) }
{
    let mut values = Vec::with_capacity(alloc, places.len())?;
    'places: for id in places {
        values.push(value_at(blaster, store, *id, model))?;
    }
    Ok(values)
}

// The value of one place.
fn value_at(blaster: &Blaster, store: &Store, id: Id, model: &[bool]) -> Word
    requires blaster { IsBlaster store.now blaster.now }
    requires id { id < length store.now }
    ensures sort { tree_sort (tree_at store.now id) ≡ Some (word_sort result) }
    ensures value { word_value result ≡ number_of (assignment model.now)
        (bits_found (known_at store.now blaster.now) (tree_at store.now id)) }
{
    let sort = store.sort(id);
    word_of(sort, number_in(model, bits_of(blaster, store, id)))
}
