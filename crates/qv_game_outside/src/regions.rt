//! The region that lies outside others.

ghost use Rattle.std.specs.Prelude.{◌≡◌, ◌<◌, ◌∷◌, All, IfOk, IfSome, IsTrue, length};
ghost use Rattle.qv_words.specs.declared.sort.Sort.TheVariants.{Bool as BoolSort};
ghost use Rattle.qv_words.specs.Skolem.{IsTermOf};
ghost use Rattle.qv_store.specs.Stores.{Grows};
ghost use Rattle.qv_store.specs.Walks.{named};
ghost use Rattle.qv_game_outside.specs.Outside.{HaveNoModel, LeavesNone};

use crate::refuting::are_refuted;
use qv_conjoin::conjoin;
use qv_store::{Id, NoMemory, Store};
use std::alloc::{AllocError, Global};

// More regions are seldom all that the owner can do.
const MOST_REGIONS: usize = 16;

/// The conjunction of formulas that each deny a region, where it leaves no values that make what is
/// asked true, and that is found. There is none without such formulas, of many, and where memory or
/// the budget of the question is short.
pub fn outside(
    alloc: Global,
    store: &mut Store,
    denials: &[Id],
    asked: &[Id],
) -> Result<Option<Id>, NoMemory>
    requires denials { All (λ n. n < length store.old) denials.now }
    requires asked { All (λ n. n < length store.old) asked.now }
    requires denial_terms { All (λ t. IsTermOf t BoolSort) (named store.old denials.now) }
    requires asked_terms { All (λ t. IsTermOf t BoolSort) (named store.old asked.now) }
    ensures none { IfOk result (λ found. IfSome found (LeavesNone store.new
        (named store.old denials.now) (named store.old asked.now))) }
    ensures grows { Grows store.old store.new }
{
    // What every store keeps.
    let _few = store.len();
    if denials.is_empty() || denials.len() > MOST_REGIONS {
        return Ok(None);
    }
    let region = conjoin(alloc, store, denials)?;
    let formulas = joined(alloc, region, asked)?;
    if are_refuted(alloc, store, &formulas)? {
        return Ok(Some(region));
    }
    Ok(None)
}

/// Whether it is found, within the budget of the question, that no values make all formulas true.
pub fn never(alloc: Global, store: &Store, formulas: &[Id]) -> Result<bool, NoMemory>
    requires below { All (λ n. n < length store.now) formulas.now }
    requires terms { All (λ t. IsTermOf t BoolSort) (named store.now formulas.now) }
    ensures { IfOk result (λ never. IsTrue never → HaveNoModel (named store.now formulas.now)) }
{
    are_refuted(alloc, store, formulas)
}

// A formula and others behind it.
fn joined(alloc: Global, first: Id, rest: &[Id]) -> Result<Vec<Id>, AllocError>
    ensures { IfOk result (λ formulas. formulas.items ≡ first ∷ rest.now) }
{
    let mut formulas = Vec::with_capacity(alloc, rest.len())?;
    formulas.push(first)?;
    formulas.extend_from_slice(rest)?;
    Ok(formulas)
}
