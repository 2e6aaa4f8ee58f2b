//! Whether the clauses of formulas have no model.

ghost use Rattle.std.specs.Prelude.{◌≡◌, ◌≢◌, ◌<◌, ◌^◌, [], All, IfOk, IfSome, IsTrue, List, length};
ghost use Rattle.qv_words.specs.declared.sort.Sort.TheVariants.{Bool as BoolSort};
ghost use Rattle.qv_words.specs.Tree.{Tree};
ghost use Rattle.qv_words.specs.Skolem.{IsTermOf};
ghost use Rattle.qv_words.specs.Clauses.{cnf};
ghost use Rattle.qv_cnf.specs.Listing.{clauses_of};
ghost use Rattle.qv_cnf.specs.Truth.{HasNoModel};
ghost use Rattle.qv_cnf_bridge_laws.specs.Bridge.{clauses_for};
ghost use Rattle.qv_blast.specs.Blasters.{from_one};
ghost use Rattle.qv_blast.specs.States.{HasFormulas};
ghost use Rattle.qv_meter.specs.Bases.{IsBaseOf};
ghost use Rattle.qv_store.specs.Stores.{AreShared};
ghost use Rattle.qv_store.specs.Walks.{named};

use crate::tally::Tally;
use qv_blast::{BlastFault, Blaster};
use qv_closed::{close, laid_core};
use qv_cnf::ClauseList;
use qv_cnf::laws::{refuted_has_no_model, rup_is_true};
use qv_sat::{Core, Outcome, SatFault};
use qv_store::{Id, NoMemory, Store};
use std::alloc::{AllocError, Global};

// No greater variable is taken.
const MOST_VARIABLES: u32 = 1 << 20;

// How many conflicts the question may take.
const MOST_CONFLICTS: u64 = 2_000;

// Whether it is found that the clauses of formulas have no model.
pub(crate) fn are_refuted(alloc: Global, store: &Store, formulas: &[Id]) -> Result<bool, NoMemory>
    requires below { All (λ n. n < length store.now) formulas.now }
    requires terms { All (λ t. IsTermOf t BoolSort) (named store.now formulas.now) }
    ensures { IfOk result (λ refuted. IsTrue refuted → HasNoModel
        (clauses_for (cnf (named store.now formulas.now)))) }
{
    match blast(alloc, store, formulas)? {
        Some(blaster) => have_no_model(alloc, blaster.clauses()),
        None => Ok(false),
    }
}

// A blaster that has the clauses of formulas, where they take no greater variable than the most.
fn blast(alloc: Global, store: &Store, formulas: &[Id]) -> Result<Option<Blaster>, NoMemory>
    requires below { All (λ n. n < length store.now) formulas.now }
    requires terms { All (λ t. IsTermOf t BoolSort) (named store.now formulas.now) }
    ensures { IfOk result (λ made. IfSome made (λ blaster. HasFormulas store.now
        (named store.now formulas.now) blaster)) }
{
    // What every store keeps.
    let _few = store.len();
    let mut blaster = Blaster::new(alloc, MOST_VARIABLES)?;
    'blasted: for formula in formulas {
        match blaster.assert(store, *formula) {
            Ok(_added) => {}
            Err(BlastFault::TooManyVariables) => return Ok(None),
            Err(BlastFault::NoMemory) => return Err(AllocError),
        }
    }
    Ok(Some(blaster))
}

// Whether closure on gates shows that clauses have no model, or a search within its budget.
fn have_no_model(alloc: Global, clauses: &ClauseList) -> Result<bool, AllocError>
    requires numbered { clauses.now ≡ from_one (clauses_of clauses.now.live) }
    requires each { All (λ c. c ≢ []) (clauses_of clauses.now.live) }
    ensures { IfOk result (λ none. IsTrue none → (formulas : List Tree) →
        IsBaseOf clauses.now.live formulas → HasNoModel (clauses_for (cnf formulas))) }
{
    refuted_has_no_model();
    rup_is_true();
    // Their ids rise.
    let _rising = clauses.may_add(0);
    let closed = close(alloc, clauses)?;
    if closed.refuted {
        return Ok(true);
    }
    let mut laid = laid_core(alloc, clauses, closed.steps, closed.advice)?;
    finds_none(&mut laid.core)
}

// Whether a search within its budget finds that a core's clauses have no model.
fn finds_none(core: &mut Core) -> Result<bool, AllocError>
    requires { core.old.top < 2 ^ 61 }
    ensures { IfOk result (λ none. IsTrue none → HasNoModel (clauses_of core.old.base)) }
{
    let mut tally = Tally::new(MOST_CONFLICTS);
    match core.solve(&[], &mut tally) {
        Ok(Outcome::Unsat { .. }) => Ok(true),
        Ok(Outcome::Found(_)) => Ok(false),
        Err(SatFault::Spent) => Ok(false),
        Err(SatFault::NoMemory) => Err(AllocError),
    }
}
