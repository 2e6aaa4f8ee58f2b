//! The lines of the expansion list that is drawn from entries.

ghost use Rattle.std.specs.Prelude.{◌≡◌, ◌<◌, ◌^◌, All, IfErr, IfOk, OnOk, length};
ghost use Rattle.qv_words.specs.declared.op.Answer.TheVariants.{Unsat};
ghost use Rattle.qv_words.specs.Problem.{Universal};
ghost use Rattle.qv_words.specs.Expansion.{leaves_of, IsExpansion};
ghost use Rattle.qv_words.specs.Linked.{tree_of};
ghost use Rattle.qv_words.specs.GameLaws.{HasWon};
ghost use Rattle.qv_store.specs.Problems.{problem_in, IsPosedIn};
ghost use Rattle.qv_store.specs.Stores.{Grows};
ghost use Rattle.qv_entries.specs.Rows.{entries_in, IsRowIn};
ghost use Rattle.qv_meter.specs.Played.{IsPlayed};
ghost use Rattle.qv_meter.specs.Charging.{OfNewest};
ghost use Rattle.qv_cert.specs.Listed.{listed_by};
ghost use Rattle.qv_expand.specs.Trees.{lines_in, AreNeverAllTrue, IsLineIn};
ghost use Rattle.qv_expand.specs.Charges.{more_instances, HasCounted, IsFault, OnlyCounts};
ghost use Rattle.qv_solve_write.specs.Said.{lines_said};
ghost use Rattle.qv_solve_draw.specs.Drawing.{IsListing};

use qv_entries::Entries;
use qv_expand::{TreeLine, expansion};
use qv_meter::{Meter, PlayFault};
use qv_solve_write::{Writing, expansion_lines};
use qv_store::{Problem, Store};
use std::alloc::Global;

/// The lines that list the expansion tree that is drawn from the entries that play left, where the
/// universal player has won the problem. Each line of the tree is charged as an instance. The store
/// keeps what was put, also after a fault.
pub fn draw_lines(
    alloc: Global,
    store: &mut Store,
    problem: &Problem,
    entries: &Entries,
    meter: &mut Meter,
) -> Result<Writing, PlayFault>
    requires posed { IsPosedIn store.old problem.now }
    requires rows { All (IsRowIn store.old) entries.now }
    requires played { IsPlayed (problem_in store.old problem.now)
        (entries_in store.old entries.now) }
    requires won { HasWon (problem_in store.old problem.now) Universal
        (entries_in store.old entries.now) }
    requires record { OfNewest meter.old (HasCounted (problem_in store.old problem.now)
        (entries_in store.old entries.now) 0) }
    ensures tree { IfOk result (λ written. (listed_by (problem_in store.old problem.now)
        (lines_said written.lines.items)).lines
        ≡ tree_of (problem_in store.old problem.now) (entries_in store.old entries.now)) }

    // They may begin an unsat section, and its leaves are never all true.
    ensures listing { IfOk result (λ written. IsListing store.new
        (problem_in store.old problem.now) Unsat written) }
    ensures leaves { OnOk result (AreNeverAllTrue (leaves_of (problem_in store.old problem.now)
        (tree_of (problem_in store.old problem.now) (entries_in store.old entries.now)))) }

    // What is charged.
    ensures counted { OnOk result (meter.new ≡ more_instances (length (tree_of
        (problem_in store.old problem.now) (entries_in store.old entries.now))) meter.old) }
    ensures only { OnlyCounts meter.old meter.new }
    ensures fault { IfErr result (IsFault meter.new) }
    ensures grows { Grows store.old store.new }
{
    let tree = expansion(alloc, store, problem, entries, meter)?;
    // What every meter keeps.
    let _record = meter.newest();
    list_tree(alloc, store, problem, &tree.lines)
}

// The lines that list an expansion list.
fn list_tree(
    alloc: Global,
    store: &mut Store,
    problem: &Problem,
    tree: &[TreeLine],
) -> Result<Writing, PlayFault>
    requires posed { IsPosedIn store.old problem.now }
    requires few { length tree.now < 2 ^ 62 }
    requires below { All (IsLineIn store.old) tree.now }
    requires section { IsExpansion (problem_in store.old problem.now)
        (lines_in store.old tree.now) }
    ensures tree { IfOk result (λ written. (listed_by (problem_in store.old problem.now)
        (lines_said written.lines.items)).lines ≡ lines_in store.old tree.now) }
    ensures listing { IfOk result (λ written. IsListing store.new
        (problem_in store.old problem.now) Unsat written) }
    ensures fault { IfErr result (λ fault. fault ≡ PlayFault.NoMemory) }
    ensures grows { Grows store.old store.new }
{
    let written = expansion_lines(alloc, store, problem, tree)?;
    Ok(written)
}
