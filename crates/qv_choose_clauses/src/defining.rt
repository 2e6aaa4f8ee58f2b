//! The term by which a region defines a truth value.

ghost use Rattle.std.specs.Prelude.{◌≡◌, ◌<◌, true, All, IfOk, OnOk, length, map};
ghost use Rattle.qv_words.specs.Problem.{conjunction};
ghost use Rattle.qv_words.specs.Passes.{truth_literal};
ghost use Rattle.qv_words.specs.Choice.{with_term, definitions};
ghost use Rattle.qv_store.specs.Nodes.{tree_at};
ghost use Rattle.qv_store.specs.Stores.{AreShared, Grows, StandsAt};
ghost use Rattle.qv_store.specs.Walks.{named};
ghost use Rattle.qv_choose_paths.specs.Sights.{IsSight};
ghost use Rattle.qv_choose_clauses.specs.Defining.{IsDefinition, IsTruth};
ghost use Rattle.qv_choose_clauses.specs.Implying.{IsSettling};
ghost use Rattle.qv_choose_clauses.specs.Placing.{NothingPut};

use crate::implying::implications;
use crate::placing::put_one;
use qv_choose_paths::{Place, Sight};
use qv_conjoin::conjoin;
use qv_store::{Id, NoMemory, Node, Store};
use qv_words::Word;
use std::alloc::Global;

/// The term by which a region defines the place as a truth value, if it does: the conjunction of its
/// clauses that say what the place implies, with the place true. It stands outside the block. The
/// list has no term for any place, and has none again at the end. Also where memory runs out the
/// store keeps what was put.
pub fn definition(
    alloc: Global,
    store: &mut Store,
    region: Id,
    sight: &Sight,
    put: &mut [Option<Id>],
) -> Result<Option<Id>, NoMemory>
    requires sight { IsSight store.old region sight.now }
    requires none { NothingPut put.old }
    requires level { sight.now.place.level < length put.old }
    ensures same { put.new ≡ put.old }
    ensures defined { IfOk result (IsDefinition sight.now.place store.new
        (definitions sight.now.place.first sight.now.place.end (tree_at store.old region)
        sight.now.place.level)) }
    ensures grows { Grows store.old store.new }
    ensures shared { OnOk result (AreShared store.new) }
{
    let _count = store.len();
    let clauses = implications(alloc, store, region, sight)?;
    if clauses.is_empty() {
        return Ok(None);
    }
    let id = settled(alloc, store, &clauses, put, sight.place)?;
    Ok(Some(id))
}

// The conjunction of clauses with the place true.
fn settled(
    alloc: Global,
    store: &mut Store,
    clauses: &[Id],
    put: &mut [Option<Id>],
    place: Place,
) -> Result<Id, NoMemory>
    requires clauses { All (IsSettling place store.old) clauses.now }
    requires none { NothingPut put.old }
    requires level { place.level < length put.old }
    ensures same { put.new ≡ put.old }
    ensures id { IfOk result (λ id. StandsAt store.new id (conjunction
        (map (with_term place.level (truth_literal true)) (named store.old clauses.now)))) }
    ensures grows { Grows store.old store.new }
    ensures shared { OnOk result (AreShared store.new) }
{
    let _count = store.len();
    let yes = put_true(store)?;
    let made = put_each(alloc, store, clauses, put, place, yes)?;
    conjoin(alloc, store, &made)
}

// The literal `true`.
fn put_true(store: &mut Store) -> Result<Id, NoMemory>
    ensures id { IfOk result (λ id. StandsAt store.new id (truth_literal true)) }
    ensures grows { Grows store.old store.new }
    ensures shared { AreShared store.new }
{
    store.put(Node::Lit {
        word: Word::truth(true),
    })
}

// Clauses with the literal true put in for the place.
fn put_each(
    alloc: Global,
    store: &mut Store,
    clauses: &[Id],
    put: &mut [Option<Id>],
    place: Place,
    yes: Id,
) -> Result<Vec<Id>, NoMemory>
    requires clauses { All (IsSettling place store.old) clauses.now }
    requires none { NothingPut put.old }
    requires level { place.level < length put.old }
    requires yes { StandsAt store.old yes (truth_literal true) }
    ensures same { put.new ≡ put.old }
    ensures made { IfOk result (λ made. named store.new made.items
        ≡ map (with_term place.level (truth_literal true)) (named store.old clauses.now)) }
    ensures truths { IfOk result (λ made. All (IsTruth store.new) made.items) }
    ensures grows { Grows store.old store.new }
    ensures shared { OnOk result (AreShared store.new) }
{
    let _count = store.len();
    let mut made = Vec::new(alloc);
    'clauses: for clause in clauses {
        let one = put_one(store, *clause, put, place.level, yes)?;
        made.push(one)?;
    }
    let _more = store.len();
    Ok(made)
}
