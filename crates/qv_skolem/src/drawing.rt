//! Skolem terms, block by block.

ghost use Rattle.std.specs.Prelude.{◌≡◌, ◌<◌, ◌++◌, List, All, IfOk, OnOk, Some, None, length, map};
ghost use Rattle.std.specs.Prelude.{replicate};
ghost use Rattle.qv_words.specs.Tree.{Tree};
ghost use Rattle.qv_words.specs.Problem.{Existential};
ghost use Rattle.qv_words.specs.Skolem.{SkolemOk, goal_of};
ghost use Rattle.qv_words.specs.Linked.{IsLinked, chain};
ghost use Rattle.qv_words.specs.GameLaws.{HasWon};
ghost use Rattle.qv_store.specs.Problems.{problem_in, IsPosedIn};
ghost use Rattle.qv_store.specs.Stores.{Grows};
ghost use Rattle.qv_store.specs.Replacing.{AreTermsOf};
ghost use Rattle.qv_entries.specs.Rows.{entries_in, IsRowIn};
ghost use Rattle.qv_skolem.specs.Skolems.{skolems_in, IsNeverTrue};
ghost use Rattle.qv_skolem.specs.Slots.{slot_terms};

use crate::blocks::run_length;
use crate::chains::chains;
use crate::skolem::Skolem;
use qv_entries::Entries;
use qv_store::{Id, NoMemory, Problem, Quant, Store};
use std::alloc::Global;

/// The Skolem terms that are drawn from linked entries with which the existential player has won
/// the problem: a term for each existential place, in order. A place's term is a chain of `ite`
/// over the regions of the player's entries at the level of its block, with the terms of earlier
/// places put in. Also where memory runs out the store keeps what was put.
pub fn skolems(
    alloc: Global,
    store: &mut Store,
    problem: &Problem,
    entries: &Entries,
) -> Result<Vec<Skolem>, NoMemory>
    requires posed { IsPosedIn store.old problem.now }
    requires rows { All (IsRowIn store.old) entries.now }
    requires linked { IsLinked (problem_in store.old problem.now)
        (entries_in store.old entries.now) }
    requires won { HasWon (problem_in store.old problem.now) Existential
        (entries_in store.old entries.now) }
    ensures terms { IfOk result (λ drawn. All (λ s. s.term < length store.new) drawn.items) }
    ensures chain { IfOk result (λ drawn. skolems_in store.new drawn.items
        ≡ chain (problem_in store.old problem.now) (entries_in store.old entries.now)) }
    ensures section { IfOk result (λ drawn. SkolemOk (problem_in store.old problem.now)
        (skolems_in store.new drawn.items)) }
    ensures goal { IfOk result (λ drawn. IsNeverTrue (goal_of (problem_in store.old problem.now)
        (skolems_in store.new drawn.items))) }
    ensures grows { Grows store.old store.new }
{
    let slots = draw(alloc, store, problem, entries)?;
    gather(alloc, &slots)
}

// For each place its term, if it is existential.
fn draw(
    alloc: Global,
    store: &mut Store,
    problem: &Problem,
    entries: &Entries,
) -> Result<Vec<Option<Id>>, NoMemory>
    requires posed { IsPosedIn store.old problem.now }
    requires rows { All (IsRowIn store.old) entries.now }
    requires linked { IsLinked (problem_in store.old problem.now)
        (entries_in store.old entries.now) }
    requires won { HasWon (problem_in store.old problem.now) Existential
        (entries_in store.old entries.now) }
    ensures there { IfOk result (λ slots. AreTermsOf store.new slots.items) }
    ensures chain { IfOk result (λ slots. slot_terms store.new 0 slots.items
        ≡ chain (problem_in store.old problem.now) (entries_in store.old entries.now)) }
    ensures grows { Grows store.old store.new }
{
    let mut slots = Vec::new(alloc);
    let mut level = 1;
    'levels: while slots.len() < problem.prefix.len() {
        let behind = &problem.prefix[slots.len()..];
        let quant = behind[0].quant;
        let block = &behind[..run_length(behind, quant)];
        match quant {
            Quant::Exists => {
                let chains = chains(alloc, store, entries, level, block, &slots)?;
                push_terms(&mut slots, &chains)?;
            }
            Quant::Forall => push_none(&mut slots, block.len())?,
        }
        level += 1;
    }
    Ok(slots)
}

// Terms behind those that are there.
fn push_terms(slots: &mut Vec<Option<Id>>, terms: &[Id]) -> Result<(), NoMemory>
    ensures { OnOk result (slots.new.items ≡ slots.old.items ++ map Some terms.now) }
{
    'terms: for term in terms {
        slots.push(Some(*term))?;
    }
    Ok(())
}

// So many places without a term.
fn push_none(slots: &mut Vec<Option<Id>>, count: usize) -> Result<(), NoMemory>
    ensures { OnOk result (slots.new.items ≡ slots.old.items ++ replicate count None) }
{
    'places: for _ in 0..count {
        slots.push(None)?;
    }
    Ok(())
}

// The terms with their places.
fn gather(alloc: Global, slots: &[Option<Id>]) -> Result<Vec<Skolem>, NoMemory>
    ensures there { IfOk result (λ drawn. (trees : List Tree) → AreTermsOf trees slots.now
        → All (λ s. s.term < length trees) drawn.items) }
    ensures terms { IfOk result (λ drawn. (trees : List Tree) → skolems_in trees drawn.items
        ≡ slot_terms trees 0 slots.now) }
{
    let mut drawn = Vec::new(alloc);
    'slots: for (place, slot) in slots.iter().enumerate() {
        if let Some(term) = slot {
            drawn.push(Skolem {
                place: place as u64,
                term: *term,
            })?;
        }
    }
    Ok(drawn)
}
