//! A checker of the clauses of formulas, and its steps.

ghost use Rattle.std.specs.Prelude.{◌≡◌, ◌<◌, ◌≤◌, ◌+◌, ◌^◌};
ghost use Rattle.std.specs.Prelude.{All, IfOk, IfSome, OnOk, is_none, length};
ghost use Rattle.qv_words.specs.declared.op.Answer.{Answer};
ghost use Rattle.qv_words.specs.Tree.{IsQuantifierFree};
ghost use Rattle.qv_cnf.specs.LratLine.{line_of};
ghost use Rattle.qv_cnf.specs.Listing.{clauses_of};
ghost use Rattle.qv_cnf.specs.Refutation.{standing_at};
ghost use Rattle.qv_store.specs.Nodes.{tree_at};
ghost use Rattle.qv_store.specs.Walks.{named};
ghost use Rattle.qv_blast.specs.Blasters.{from_one};
ghost use Rattle.qv_blast.specs.States.{HasFormulas};
ghost use Rattle.qv_cert.specs.ClauseList.{clause_list};
ghost use Rattle.qv_cert.specs.Section.{has_too_many};
ghost use Rattle.qv_cert_formulas.specs.Numbers.{under_ids};
ghost use Rattle.qv_cert_formulas.specs.Steps.{IsStepped};

use qv_blast::{BlastFault, Blaster};
use qv_cnf::{ClauseList, Step};
use qv_rup::{Checker, StepFault};
use qv_store::{Id, NoMemory, Store};
use std::alloc::{AllocError, Global};

// A clause list has no more variables.
const MOST_VARIABLES: u32 = 1_073_741_824;

/// A checker that was given the clause list of formulas, under ids from 1 on. There is none where
/// the list has more than 2^30 variables.
pub fn checker_of(
    alloc: Global,
    store: &Store,
    formulas: &[Id],
) -> Result<Option<Checker>, NoMemory>
    requires below { All (λ id. id < length store.now) formulas.now }
    requires free { All (λ id. IsQuantifierFree (tree_at store.now id)) formulas.now }
    ensures few { IfOk result (λ found. is_none found
        ≡ has_too_many (named store.now formulas.now)) }
    ensures standing { IfOk result (λ found. IfSome found (λ checker. checker
        ≡ standing_at (clause_list (named store.now formulas.now)))) }
{
    match blast(alloc, store, formulas)? {
        Some(blaster) => Ok(Some(give_clauses(alloc, blaster.clauses())?)),
        None => Ok(None),
    }
}

// The clause list of formulas, where it isn't over the limit.
fn blast(alloc: Global, store: &Store, formulas: &[Id]) -> Result<Option<Blaster>, NoMemory>
    requires below { All (λ id. id < length store.now) formulas.now }
    requires free { All (λ id. IsQuantifierFree (tree_at store.now id)) formulas.now }
    ensures few { IfOk result (λ found. is_none found
        ≡ has_too_many (named store.now formulas.now)) }
    ensures list { IfOk result (λ found. IfSome found (λ blaster.
        HasFormulas store.now (named store.now formulas.now) blaster)) }
{
    let _nodes = store.len();
    let mut blaster = Blaster::new(alloc, MOST_VARIABLES)?;
    'formulas: for formula in formulas {
        match blaster.assert(store, *formula) {
            Ok(_added) => {}
            Err(BlastFault::TooManyVariables) => return Ok(None),
            Err(BlastFault::NoMemory) => return Err(AllocError),
        }
    }
    Ok(Some(blaster))
}

/// A checker that was given these clauses, whose ids count from 1.
pub fn give_clauses(alloc: Global, clauses: &ClauseList) -> Result<Checker, NoMemory>
    requires { clauses.now ≡ from_one (clauses_of clauses.now.live) }
    ensures { IfOk result (λ checker. checker
        ≡ standing_at (under_ids 1 (clauses_of clauses.now.live))) }
{
    let mut checker = Checker::new(alloc);
    'clauses: for id in 1..u64::MAX {
        match clauses.get(id) {
            // The ids rise, so that only memory can be wanting.
            Some(lits) => match checker.original(id, lits) {
                Ok(()) => {}
                Err(_fault) => return Err(AllocError),
            },
            None => return Ok(checker),
        }
    }
    // Memory holds no such list.
    Err(AllocError)
}

/// Takes a step of a refutation. Once the clauses are refuted any step goes.
pub fn take_step(checker: &mut Checker, step: &Step) -> Result<(), StepFault>
    ensures { (answer : Answer) →
        IsStepped answer checker.old (line_of step.now) result checker.new }
{
    if checker.is_refuted() {
        return Ok(());
    }
    checker.step(step)
}
