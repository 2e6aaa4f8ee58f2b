//! The clauses of a region that say what a truth value implies.

ghost use Rattle.std.specs.Prelude.{◌≡◌, ℕ, ◌<◌, List, Bool, All, IfOk, OnOk, filter, length};
ghost use Rattle.qv_words.specs.Choice.{implications};
ghost use Rattle.qv_store.specs.Nodes.{tree_at};
ghost use Rattle.qv_store.specs.Walks.{named};
ghost use Rattle.qv_choose_paths.specs.Sights.{IsSight};
ghost use Rattle.qv_choose_clauses.specs.Implying.{kept, says, AreSaid, IsSettling};

use crate::clauses::{Clause, clauses};
use crate::conjuncts::conjuncts;
use qv_choose_paths::Sight;
use qv_store::{Id, NoMemory, Store};
use std::alloc::Global;

// Those clauses, in their order, in time proportional to the number of the region's terms.
pub(crate) fn implications(
    alloc: Global,
    store: &Store,
    region: Id,
    sight: &Sight,
) -> Result<Vec<Id>, NoMemory>
    requires { IsSight store.now region sight.now }
    ensures clauses { IfOk result (λ ids. named store.now ids.items
        ≡ implications sight.now.place.first sight.now.place.end (tree_at store.now region)
        sight.now.place.level) }
    ensures settling { IfOk result (λ ids. All (IsSettling sight.now.place store.now)
        ids.items) }
{
    let clauses = clauses(alloc, store, sight)?;
    let marks = conjuncts(alloc, store, region, sight)?;
    picked(alloc, sight.walk.ids(), &clauses, &marks)
}

// The terms that are such clauses and marked.
fn picked(
    alloc: Global,
    ids: &[Id],
    clauses: &[Clause],
    marks: &[bool],
) -> Result<Vec<Id>, NoMemory>
    requires clauses { length clauses.now ≡ length ids.now }
    requires marks { length marks.now ≡ length ids.now }
    ensures { IfOk result (λ picked. (says : ℕ → Bool) → AreSaid says ids.now clauses.now marks.now
        → picked.items ≡ filter says ids.now) }
{
    let mut picked = Vec::new(alloc);
    'terms: for number in 0..ids.len() {
        keep(
            &mut picked,
            ids[number],
            says(clauses[number], marks[number]),
        )?;
    }
    Ok(picked)
}

// A term is put behind others, if it is to be.
fn keep(picked: &mut Vec<Id>, id: Id, keeps: bool) -> Result<(), NoMemory>
    ensures { OnOk result (picked.new.items ≡ kept picked.old.items id keeps) }
{
    if keeps {
        picked.push(id)?;
    }
    Ok(())
}

fn says(clause: Clause, marked: bool) -> bool
    ensures { result ≡ says clause marked }
{
    clause.opposite && clause.apart && marked
}
