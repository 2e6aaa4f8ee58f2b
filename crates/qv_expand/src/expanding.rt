//! Expansion trees, part by part.

ghost use Rattle.std.specs.Prelude.{◌≡◌, ◌<◌, [], All, List, IfErr, IfOk, OnOk, Some, length};
ghost use Rattle.qv_words.specs.Tree.{Tree as PlainTree};
ghost use Rattle.qv_words.specs.Problem.{Universal};
ghost use Rattle.qv_words.specs.Expansion.{IsExpansion, leaves_of};
ghost use Rattle.qv_words.specs.Linked.{first_universal, tree_of};
ghost use Rattle.qv_words.specs.GameLaws.{HasWon};
ghost use Rattle.qv_store.specs.Problems.{problem_in, IsPosedIn};
ghost use Rattle.qv_store.specs.Stores.{Grows};
ghost use Rattle.qv_entries.specs.Rows.{entries_in, is_row_of, row_of, IsRowIn};
ghost use Rattle.qv_meter.specs.Played.{IsPlayed};
ghost use Rattle.qv_meter.specs.Charging.{OfNewest};
ghost use Rattle.qv_expand.specs.Trees.{lines_in, AreNeverAllTrue, IsLineIn};
ghost use Rattle.qv_expand.specs.Charges.{more_instances, HasCounted, IsFault, OnlyCounts};

use crate::growing::Growing;
use crate::tasks::{Task, push_links};
use crate::tree::Tree;
use qv_entries::{Entries, Entry};
use qv_meter::{Meter, PlayFault};
use qv_store::{Problem, Quant, Store};
use std::alloc::Global;

/// The expansion tree that is drawn from the entries that play left, where the universal player has
/// won the problem: the lines from the player's first entry at level 1 on, depth first, each
/// charged as an instance. An existential block gives a line for each of its places, and then the
/// parts of the entry's links in order; a universal one a line for each of the entry's terms, with
/// the path put in, and then the link's part. The store keeps what was put, also after a fault.
pub fn expansion(
    alloc: Global,
    store: &mut Store,
    problem: &Problem,
    entries: &Entries,
    meter: &mut Meter,
) -> Result<Tree, PlayFault>
    requires posed { IsPosedIn store.old problem.now }
    requires rows { All (IsRowIn store.old) entries.now }
    requires played { IsPlayed (problem_in store.old problem.now)
        (entries_in store.old entries.now) }
    requires won { HasWon (problem_in store.old problem.now) Universal
        (entries_in store.old entries.now) }
    requires record { OfNewest meter.old (HasCounted (problem_in store.old problem.now)
        (entries_in store.old entries.now) 0) }
    ensures terms { IfOk result (λ tree. All (IsLineIn store.new) tree.lines.items) }
    ensures lines { IfOk result (λ tree. lines_in store.new tree.lines.items
        ≡ tree_of (problem_in store.old problem.now) (entries_in store.old entries.now)) }
    ensures list { IfOk result (λ tree. IsExpansion (problem_in store.old problem.now)
        (lines_in store.new tree.lines.items)) }
    ensures leaves { IfOk result (λ tree. AreNeverAllTrue
        (leaves_of (problem_in store.old problem.now) (lines_in store.new tree.lines.items))) }
    ensures counted { IfOk result (λ tree.
        meter.new ≡ more_instances (length tree.lines.items) meter.old) }
    ensures only { OnlyCounts meter.old meter.new }
    ensures fault { IfErr result (IsFault meter.new) }
    ensures grows { Grows store.old store.new }
{
    let mut growing = Growing::new(alloc);
    if let Some(first) = first_universal(entries) {
        draw(alloc, store, problem, entries, meter, first, &mut growing)?;
    }
    Ok(Tree {
        lines: growing.lines,
    })
}

// Draws the whole tree, from this entry on.
fn draw(
    alloc: Global,
    store: &mut Store,
    problem: &Problem,
    entries: &Entries,
    meter: &mut Meter,
    first: u64,
    growing: &mut Growing,
) -> Result<(), PlayFault>
    requires posed { IsPosedIn store.old problem.now }
    requires rows { All (IsRowIn store.old) entries.now }
    requires played { IsPlayed (problem_in store.old problem.now)
        (entries_in store.old entries.now) }
    requires record { OfNewest meter.old (HasCounted (problem_in store.old problem.now)
        (entries_in store.old entries.now) 0) }
    requires first { first_universal 0 (entries_in store.old entries.now) ≡ Some first }
    requires lines { growing.old.lines.items ≡ [] }
    requires path { growing.old.path.items ≡ [] }
    requires under { growing.old.under.items ≡ [] }
    ensures terms { OnOk result (All (IsLineIn store.new) growing.new.lines.items) }
    ensures lines { OnOk result (lines_in store.new growing.new.lines.items
        ≡ tree_of (problem_in store.old problem.now) (entries_in store.old entries.now)) }
    ensures counted { OnOk result (OfNewest meter.new
        (HasCounted (problem_in store.old problem.now) (entries_in store.old entries.now)
        (length growing.new.lines.items))) }
    ensures only { OnlyCounts meter.old meter.new }
    ensures fault { IfErr result (IsFault meter.new) }
    ensures grows { Grows store.old store.new }
{
    let mut tasks = Vec::new(alloc);
    tasks.push(Task {
        entry: first,
        parent: 0,
        depth: 0,
    })?;
    'tasks: while let Some(task) = tasks.pop() {
        growing.back_to(task.parent, task.depth);
        growing.block(store, problem, entries, meter, task.entry)?;
        let links = &entries.entry(task.entry).links;
        push_links(&mut tasks, links, growing.parent, growing.path.len())?;
    }
    Ok(())
}

// The number of the first entry of the universal player at level 1.
fn first_universal(entries: &Entries) -> Option<u64>
    ensures { (trees : List PlainTree) → result
        ≡ first_universal 0 (entries_in trees entries.now) }
{
    'entries: for number in 0..entries.len() {
        if is_first(entries.entry(number)) {
            return Some(number);
        }
    }
    None
}

// Whether it is an entry of the universal player at level 1.
fn is_first(entry: &Entry) -> bool
    ensures { result ≡ is_row_of 1 Universal (row_of entry.now) }
{
    entry.level == 1 && entry.winner == Quant::Forall
}
