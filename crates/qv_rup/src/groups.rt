//! The groups of a RAT line: one for each live clause that holds the negation of the first literal.

ghost use Rattle.std.specs.Prelude.{◌≡◌, ◌≤◌, ◌+◌, ◌||◌, ◌++◌, ℕ, List, [], ◌∷◌, true, false, None};
ghost use Rattle.std.specs.Prelude.{length, drop, map, IsTrue, IfOk, OnOk};
ghost use Rattle.std.specs.Int.{is_negative};
ghost use Rattle.std.specs.List.{list_any};
ghost use Rattle.std.specs.Option.{option_copied};
ghost use Rattle.qv_cnf.specs.Listing.{clause_named, Rises};
ghost use Rattle.qv_cnf.specs.Literal.{negated};
ghost use Rattle.qv_cnf.specs.Rat.{all_grouped, group_set, judged_groups, needs_group, others};
ghost use Rattle.qv_cnf.specs.Refutation.{among};
ghost use Rattle.qv_rup.specs.Grouping.{AreGroups, EndsGrouped, group_of, has_group, holding};
ghost use Rattle.qv_rup.specs.Grouping.{IsBehind, JudgesHint, KeepsGroups};
ghost use Rattle.qv_rup.specs.Indexing.{IsIndex};
ghost use Rattle.qv_rup.specs.Judged.{LeadsTo};

use super::faults::StepFault;
use super::hints::read_hint;
use super::index::Index;
use super::marks::Marks;
use super::shelf::Shelf;
use qv_cnf::{Lit, Reading};
use std::alloc::{AllocError, Global};
use std::collections::HashSet;

/// What stays along the groups of a line: the first literal of its clause, and how many of the marked
/// literals are kept for each group.
#[derive(Clone, Copy)]
pub(crate) struct Pivot {
    pub(crate) lit: Lit,
    pub(crate) kept: usize,
}

/// How far the groups of a line have come: whether one is open, and the ids of the clauses that had
/// one.
#[derive(Drop)]
pub(crate) struct Groups {
    pub(crate) is_open: bool,
    pub(crate) ids: HashSet<u64>,
}

impl Groups {
    /// No group yet.
    pub(crate) fn new(alloc: Global) -> Groups
        ensures closed { result.is_open ≡ false }
        ensures none { AreGroups result.ids [] }
    {
        Groups {
            is_open: false,
            ids: HashSet::new(alloc),
        }
    }
}

// Whether a clause holds the literal.
fn holds(lits: &[Lit], wanted: Lit) -> bool
    ensures { result ≡ among lits.now wanted }
{
    'looking: for lit in lits {
        if *lit == wanted {
            return true;
        }
    }
    false
}

// The clause of that id, if it is live and holds the literal.
fn holding<'a>(clauses: &'a Shelf, id: u64, wanted: Lit) -> Option<&'a [Lit]>
    ensures { option_copied result ≡ holding wanted (clause_named id clauses.now.live) }
{
    let lits = clauses.get(id)?;
    if holds(lits, wanted) {
        Some(lits)
    } else {
        None
    }
}

// Whether a clause needs a group.
fn needs_group(lits: &[Lit], pivot: Lit) -> bool
    ensures { result ≡ needs_group pivot lits.now }
{
    holds(lits, pivot.negated()) && !holds(lits, pivot)
}

// Whether the group of a clause closes at once: it holds the first literal, or another one that is
// marked.
fn closes(lits: &[Lit], pivot: Lit, marks: &Marks) -> bool
    ensures { result ≡ (among lits.now pivot
        || list_any (among marks.now) (others pivot lits.now)) }
{
    let negation = pivot.negated();
    'looking: for lit in lits {
        if *lit == pivot {
            return true;
        }
        if *lit == negation {
            continue;
        }
        if marks.has(*lit) {
            return true;
        }
    }
    false
}

// Marks the negation of a literal, but not where that is the first literal of the line.
fn mark_other(marks: &mut Marks, lit: Lit, pivot: Lit) -> Result<(), AllocError>
    ensures { OnOk result (marks.new ≡ map negated (others pivot (lit ∷ [])) ++ marks.old) }
{
    if lit == pivot.negated() {
        return Ok(());
    }
    marks.insert(lit.negated())?;
    Ok(())
}

// Marks the negations of a clause's literals but for that of the first literal.
fn mark_others(marks: &mut Marks, lits: &[Lit], pivot: Lit) -> Result<(), AllocError>
    ensures { OnOk result (marks.new ≡ map negated (others pivot lits.now) ++ marks.old) }
{
    let mut left = lits.len();
    'marking: while left > 0 {
        left -= 1;
        mark_other(marks, lits[left], pivot)?;
    }
    Ok(())
}

// Begins the group of a clause, where the marked literals are those that are kept, and says whether
// it is open.
fn begin(marks: &mut Marks, lits: &[Lit], pivot: Lit) -> Result<bool, AllocError>
    ensures set { IfOk result (λ is_open. group_of is_open marks.new
        ≡ group_set pivot marks.old lits.now) }
    ensures behind { OnOk result (IsBehind marks.old marks.new) }
{
    if closes(lits, pivot, marks) {
        return Ok(false);
    }
    mark_others(marks, lits, pivot)?;
    Ok(true)
}

// There is a group of this id.
fn note(ids: &mut HashSet<u64>, id: u64) -> Result<(), AllocError>
    ensures { OnOk result ((groups : List ℕ) → AreGroups ids.old groups
        → AreGroups ids.new (id ∷ groups)) }
{
    ids.insert(id)?;
    Ok(())
}

// Takes a negative hint, which opens the group of a clause where no other is open.
fn open_group(
    clauses: &Shelf,
    pivot: &Pivot,
    marks: &mut Marks,
    groups: &mut Groups,
    hint: i64,
    position: u64,
) -> Result<(), StepFault>
    requires negative { is_negative hint ≡ true }
    requires enough { pivot.now.kept ≤ length marks.old }
    ensures judged { JudgesHint clauses.now.live pivot.now.lit pivot.now.kept hint position
        groups.old.is_open groups.new.is_open marks.old marks.new (LeadsTo result) }
    ensures keeps { OnOk result (KeepsGroups hint pivot.now.kept marks.old marks.new
        groups.old.ids groups.new.ids) }
{
    if groups.is_open {
        return Err(StepFault::Rat { hint: position });
    }
    let id = hint.unsigned_abs();
    let Some(lits) = holding(clauses, id, pivot.lit.negated()) else {
        return Err(StepFault::Rat { hint: position });
    };
    note(&mut groups.ids, id)?;
    marks.truncate(pivot.kept);
    let is_open = begin(marks, lits, pivot.lit)?;
    groups.is_open = is_open;
    Ok(())
}

// Takes a positive hint, which is looked at where a group is open. A false clause closes that.
fn look(
    clauses: &Shelf,
    pivot: &Pivot,
    marks: &mut Marks,
    groups: &mut Groups,
    hint: i64,
    position: u64,
) -> Result<(), StepFault>
    requires positive { is_negative hint ≡ false }
    requires enough { pivot.now.kept ≤ length marks.old }
    ensures judged { JudgesHint clauses.now.live pivot.now.lit pivot.now.kept hint position
        groups.old.is_open groups.new.is_open marks.old marks.new (LeadsTo result) }
    ensures keeps { OnOk result (KeepsGroups hint pivot.now.kept marks.old marks.new
        groups.old.ids groups.new.ids) }
{
    if !groups.is_open {
        return Ok(());
    }
    let id = hint.unsigned_abs();
    match read_hint(clauses, marks, id) {
        Reading::Falsified => {
            groups.is_open = false;
            Ok(())
        }
        Reading::Forced(lit) => {
            marks.insert(lit)?;
            Ok(())
        }
        Reading::Useless => Err(StepFault::Hint { hint: position }),
    }
}

// Takes a hint.
fn take_hint(
    clauses: &Shelf,
    pivot: &Pivot,
    marks: &mut Marks,
    groups: &mut Groups,
    hint: i64,
    position: u64,
) -> Result<(), StepFault>
    requires { pivot.now.kept ≤ length marks.old }
    ensures judged { JudgesHint clauses.now.live pivot.now.lit pivot.now.kept hint position
        groups.old.is_open groups.new.is_open marks.old marks.new (LeadsTo result) }
    ensures keeps { OnOk result (KeepsGroups hint pivot.now.kept marks.old marks.new
        groups.old.ids groups.new.ids) }
{
    if hint < 0 {
        open_group(clauses, pivot, marks, groups, hint, position)
    } else {
        look(clauses, pivot, marks, groups, hint, position)
    }
}

/// Goes along the hints from a place on.
pub(crate) fn go_along(
    clauses: &Shelf,
    pivot: &Pivot,
    marks: &mut Marks,
    groups: &mut Groups,
    hints: &[i64],
    from: usize,
) -> Result<(), StepFault>
    requires kept { pivot.now.kept ≡ length marks.old }
    requires closed { groups.old.is_open ≡ false }
    requires none { AreGroups groups.old.ids [] }
    ensures { EndsGrouped clauses.now.live pivot.now.lit marks.new groups.new.ids
        groups.new.is_open result (judged_groups clauses.now.live pivot.now.lit marks.old None []
        (drop from hints.now) (from + 1)) }
{
    let mut place = from;
    'going: while place < hints.len() {
        let hint = hints[place];
        take_hint(clauses, pivot, marks, groups, hint, place as u64 + 1)?;
        place += 1;
    }
    Ok(())
}

/// Whether each live clause that needs a group has one.
pub(crate) fn are_all_grouped(
    clauses: &Shelf,
    index: &Index,
    pivot: Lit,
    ids: &HashSet<u64>,
) -> bool
    requires index { IsIndex index.now.lists.items clauses.now.live }
    requires rises { Rises 0 (map (λ c. c.id) clauses.now.live) }
    ensures { (groups : List ℕ) → AreGroups ids.now groups
        → result ≡ all_grouped pivot groups clauses.now.live }
{
    let listed = index.ids(pivot.negated());
    'looking: for id in listed {
        if !has_group(clauses, pivot, ids, *id) {
            return false;
        }
    }
    true
}

// Whether the clause of that id, if it is live, has a group or needs none.
fn has_group(clauses: &Shelf, pivot: Lit, ids: &HashSet<u64>, id: u64) -> bool
    ensures { (groups : List ℕ) → AreGroups ids.now groups → result
        ≡ has_group pivot groups id (clause_named id clauses.now.live) }
{
    let Some(lits) = clauses.get(id) else {
        return true;
    };
    if !needs_group(lits, pivot) {
        return true;
    }
    ids.contains(&id)
}
