//! The checker.

ghost use Rattle.std.specs.Prelude.{◌≡◌, ◌<◌, ◌≤◌, ◌↔◌, ◌⊎◌, ◌+◌, ℕ, List, [], ◌∷◌, ◌++◌, drop, map};
ghost use Rattle.std.specs.Prelude.{IsTrue, OnOk, OnErr, Err, None, false, length};
ghost use Rattle.std.specs.Option.{option_copied};
ghost use Rattle.qv_cnf.specs.Listing.{Numbered, Rises, clause_named, without};
ghost use Rattle.qv_cnf.specs.Literal.{Literal, negated};
ghost use Rattle.qv_cnf.specs.LratLine.{Addition, line_of};
ghost use Rattle.qv_cnf.specs.Rat.{grouped, judged_addition, judged_groups, judged_rat};
ghost use Rattle.qv_cnf.specs.Refutation.{judged_clause, judged_line, judged_rup, after_line};
ghost use Rattle.qv_cnf.specs.Refutation.{standing_at, with_original};
ghost use Rattle.qv_cnf.specs.Truth.{HasNoModel};
ghost use Rattle.qv_rup.specs.Calls.{AllMeetRup, Call, Leads, originals, OriginalsFirst};
ghost use Rattle.qv_rup.specs.Grouping.{AreGroups, group_of};
ghost use Rattle.qv_rup.specs.Indexing.{IsIndex, KeepsIndex};
ghost use Rattle.qv_rup.specs.Judged.{IsJudged};
ghost use Rattle.qv_rup.specs.Shelving.{picked};

use super::faults::{OriginalFault, StepFault};
use super::groups::{Groups, Pivot, are_all_grouped, go_along};
use super::hints::judge_first;
use super::index::Index;
use super::marks::Marks;
use super::shelf::Shelf;
use qv_cnf::laws::rup_is_true;
use qv_cnf::{Lit, Step};
use std::alloc::{AllocError, Global};
use std::marker::Model;

/// Checks a refutation in the LRAT format step by step. Where clauses are found that hold a literal
/// is kept from the first step on that needs it.
#[derive(Debug, Drop)]
pub struct Checker {
    clauses: Shelf,
    marks: Marks,
    index: Index,
    refuted: bool,
}

impl Model for Checker {
    ghost use Rattle.std.specs.Prelude.{◌≡◌, []};
    ghost use Rattle.qv_cnf.specs.Refutation.{Standing};

    ghost Value = { Standing };

    ghost view = { λ a. record {
      live = a.clauses.live;
      next = a.clauses.next;
      refuted = a.refuted;
    } };

    ghost use Rattle.qv_rup.specs.Indexing.{KeepsIndex};

    ghost invariant = { λ a. (a.marks ≡ []) × KeepsIndex a.index.lists.items a.clauses.live };
}

impl Checker {
    /// A checker that was given no clause.
    pub fn new(alloc: Global) -> Checker
        ensures { result ≡ standing_at [] }
    {
        Checker {
            clauses: Shelf::new(alloc),
            marks: Marks::new(alloc),
            index: Index::none(alloc),
            refuted: false,
        }
    }

    /// Gives a clause to be refuted.
    pub fn original(&mut self, id: u64, lits: &[Lit]) -> Result<(), OriginalFault>
        ensures order { (result ≡ Err OriginalFault.Order) ↔ (id < self.old.next) }
        ensures ok { OnOk result (self.new ≡ with_original self.old id lits.now) }
        ensures err { OnErr result (self.new ≡ self.old) }

        // Where no step came before, it stands at the clauses given so far.
        ensures standing { (clauses : List Numbered) → self.old ≡ standing_at clauses →
            OnOk result (self.new
            ≡ standing_at (clauses ++ record { id = id; lits = lits.now } ∷ [])) }
    {
        if !self.clauses.may_add(id) {
            return Err(OriginalFault::Order);
        }
        self.marks.make_room(lits)?;
        keep(&mut self.clauses, &mut self.index, id, lits)?;
        Ok(())
    }

    /// Takes a step: an added clause has to be shown by its hints, RAT hints among them. A step that
    /// is refused changes nothing.
    pub fn step(&mut self, step: &Step) -> Result<(), StepFault>
        ensures judged { IsJudged result (judged_line self.old (line_of step.now)) }
        ensures ok { OnOk result (self.new ≡ after_line self.old (line_of step.now)) }
        ensures err { OnErr result (self.new ≡ self.old) }
    {
        match step {
            Step::Add { id, lits, hints } => self.addition(*id, lits, hints),
            Step::Delete { ids, .. } => {
                delete(&mut self.clauses, &mut self.index, ids);
                Ok(())
            }
        }
    }

    /// Takes a step by unit propagation alone: an added clause has to follow by its hints, of which
    /// a negative one fails. A step that is refused changes nothing.
    pub fn rup_step(&mut self, step: &Step) -> Result<(), StepFault>
        ensures judged { IsJudged result (judged_rup self.old (line_of step.now)) }
        ensures ok { OnOk result (self.new ≡ after_line self.old (line_of step.now)) }
        ensures err { OnErr result (self.new ≡ self.old) }
    {
        match step {
            Step::Add { id, lits, hints } => self.rup_addition(*id, lits, hints),
            Step::Delete { .. } => self.step(step),
        }
    }

    /// Whether a step added a clause without literals. Then the original clauses have no model, if
    /// all of them were given before the first step, or each clause that was added follows by unit
    /// propagation.
    pub fn is_refuted(&self) -> bool
        ensures refuted { result ≡ self.now.refuted }

        // Whatever calls led here.
        ensures sound { IsTrue result → (calls : List Call) →
            Leads (standing_at []) calls self.now →
            OriginalsFirst calls ⊎ AllMeetRup (standing_at []) calls →
            HasNoModel (originals calls) }
    {
        rup_is_true();
        self.refuted
    }

    /// Ids that were given, rising: the live clauses are those of them that have one.
    pub fn ids(&self) -> &[u64]
        ensures { picked result.now self.now.live ≡ self.now.live }
    {
        self.clauses.ids()
    }

    /// The clause of that id, if it is live.
    pub fn clause(&self, id: u64) -> Option<&[Lit]>
        ensures { option_copied result ≡ clause_named id self.now.live }
    {
        self.clauses.get(id)
    }

    fn addition(&mut self, id: u64, lits: &[Lit], hints: &[i64]) -> Result<(), StepFault>
        ensures judged { IsJudged result (judged_line self.old (Addition id lits.now hints.now)) }
        ensures ok { OnOk result (self.new ≡ after_line self.old (Addition id lits.now hints.now)) }
        ensures err { OnErr result (self.new ≡ self.old) }
    {
        if !self.clauses.may_add(id) {
            return Err(StepFault::Order);
        }
        self.marks.make_room(lits)?;
        let judged = judge_clause(&self.clauses, &mut self.marks, &mut self.index, lits, hints);
        self.marks.clear();
        judged?;
        self.admit(id, lits)?;
        Ok(())
    }

    fn rup_addition(&mut self, id: u64, lits: &[Lit], hints: &[i64]) -> Result<(), StepFault>
        ensures judged { IsJudged result (judged_rup self.old (Addition id lits.now hints.now)) }
        ensures ok { OnOk result (self.new ≡ after_line self.old (Addition id lits.now hints.now)) }
        ensures err { OnErr result (self.new ≡ self.old) }
    {
        if !self.clauses.may_add(id) {
            return Err(StepFault::Order);
        }
        self.marks.make_room(lits)?;
        let judged = judge_rup(&self.clauses, &mut self.marks, lits, hints);
        self.marks.clear();
        judged?;
        self.admit(id, lits)?;
        Ok(())
    }

    // Adds a clause that was shown.
    fn admit(&mut self, id: u64, lits: &[Lit]) -> Result<(), AllocError>
        requires { self.old.next ≤ id }
        ensures ok { OnOk result (self.new ≡ after_line self.old (Addition id lits.now [])) }
        ensures err { OnErr result (self.new ≡ self.old) }
    {
        keep(&mut self.clauses, &mut self.index, id, lits)?;
        if lits.is_empty() {
            self.refuted = true;
        }
        Ok(())
    }
}

// Takes every clause away that the ids name.
fn remove_all(clauses: &mut Shelf, ids: &[u64])
    ensures { clauses.new ≡ record clauses.old { live = without ids.now clauses.old.live } }
{
    for id in ids {
        clauses.remove(*id);
    }
}

// The same. Where the clauses were moved together, the index has many ids of clauses that aren't live,
// and is given up.
fn delete(clauses: &mut Shelf, index: &mut Index, ids: &[u64])
    requires { KeepsIndex index.old.lists.items clauses.old.live }
    ensures clauses { clauses.new
        ≡ record clauses.old { live = without ids.now clauses.old.live } }
    ensures index { KeepsIndex index.new.lists.items clauses.new.live }
{
    remove_all(clauses, ids);
    if !clauses.tidy() {
        return;
    }
    index.clear();
}

// Adds a clause, also to the index if that is made.
fn keep(clauses: &mut Shelf, index: &mut Index, id: u64, lits: &[Lit]) -> Result<(), AllocError>
    requires next { clauses.old.next ≤ id }
    requires index { KeepsIndex index.old.lists.items clauses.old.live }
    ensures ok { OnOk result (clauses.new ≡ record {
      live = clauses.old.live ++ record { id = id; lits = lits.now } ∷ [];
      next = id + 1;
    }) }
    ensures err { OnErr result (clauses.new ≡ clauses.old) }
    ensures index { KeepsIndex index.new.lists.items clauses.new.live }
{
    index.add(id, lits)?;
    clauses.add(id, lits)?;
    Ok(())
}

// Judges a clause by its hints.
fn judge_clause(
    clauses: &Shelf,
    marks: &mut Marks,
    index: &mut Index,
    lits: &[Lit],
    hints: &[i64],
) -> Result<(), StepFault>
    requires none { marks.old ≡ [] }
    requires index { KeepsIndex index.old.lists.items clauses.now.live }
    requires rises { Rises 0 (map (λ c. c.id) clauses.now.live) }
    ensures judged { IsJudged result (judged_addition clauses.now.live lits.now hints.now) }
    ensures index { KeepsIndex index.new.lists.items clauses.now.live }
{
    mark_negations(marks, lits)?;
    match judge_first(clauses, marks, hints)? {
        None => Ok(()),
        Some(place) => judge_rest(clauses, marks, index, lits, hints, place),
    }
}

// Judges a clause by unit propagation alone.
fn judge_rup(
    clauses: &Shelf,
    marks: &mut Marks,
    lits: &[Lit],
    hints: &[i64],
) -> Result<(), StepFault>
    requires { marks.old ≡ [] }
    ensures { IsJudged result (judged_clause clauses.now.live lits.now hints.now) }
{
    mark_negations(marks, lits)?;
    match judge_first(clauses, marks, hints)? {
        None => Ok(()),
        Some(place) => refuse(hints, place),
    }
}

// Marks the negations of the literals.
fn mark_negations(marks: &mut Marks, lits: &[Lit]) -> Result<(), AllocError>
    requires { marks.old ≡ [] }
    ensures { OnOk result (marks.new ≡ map negated lits.now) }
{
    let mut left = lits.len();
    while left > 0 {
        left -= 1;
        marks.insert(lits[left].negated())?;
    }
    Ok(())
}

// Judges a clause by the hints behind their first part, from a place on.
fn judge_rest(
    clauses: &Shelf,
    marks: &mut Marks,
    index: &mut Index,
    lits: &[Lit],
    hints: &[i64],
    place: usize,
) -> Result<(), StepFault>
    requires index { KeepsIndex index.old.lists.items clauses.now.live }
    requires rises { Rises 0 (map (λ c. c.id) clauses.now.live) }
    ensures judged { IsJudged result
        (judged_rat clauses.now.live lits.now marks.old (drop place hints.now) (place + 1)) }
    ensures index { KeepsIndex index.new.lists.items clauses.now.live }
{
    if lits.is_empty() {
        return refuse(hints, place);
    }
    let pivot = Pivot {
        lit: lits[0],
        kept: marks.len(),
    };
    let mut groups = Groups::new(clauses.alloc());
    judge_groups(clauses, index, &pivot, marks, &mut groups, hints, place)
}

// A clause without literals has no first one, so it can have no groups.
fn refuse(hints: &[i64], place: usize) -> Result<(), StepFault>
    ensures { (live : List Numbered) (set : List Literal) →
        IsJudged result (judged_rat live [] set (drop place hints.now) (place + 1)) }
{
    if place < hints.len() {
        return Err(StepFault::Rat {
            hint: place as u64 + 1,
        });
    }
    Err(StepFault::Open)
}

// Judges a clause by its groups, from a place in the hints on.
fn judge_groups(
    clauses: &Shelf,
    index: &mut Index,
    pivot: &Pivot,
    marks: &mut Marks,
    groups: &mut Groups,
    hints: &[i64],
    place: usize,
) -> Result<(), StepFault>
    requires kept { pivot.now.kept ≡ length marks.old }
    requires closed { groups.old.is_open ≡ false }
    requires none { AreGroups groups.old.ids [] }
    requires index { KeepsIndex index.old.lists.items clauses.now.live }
    requires rises { Rises 0 (map (λ c. c.id) clauses.now.live) }
    ensures judged { IsJudged result (judged_groups clauses.now.live pivot.now.lit marks.old None []
        (drop place hints.now) (place + 1)) }
    ensures index { KeepsIndex index.new.lists.items clauses.now.live }
{
    go_along(clauses, pivot, marks, groups, hints, place)?;
    close(clauses, index, pivot, groups)
}

// Behind the last hint: no group may be open, and none may be lacking.
fn close(
    clauses: &Shelf,
    index: &mut Index,
    pivot: &Pivot,
    groups: &Groups,
) -> Result<(), StepFault>
    requires index { KeepsIndex index.old.lists.items clauses.now.live }
    requires rises { Rises 0 (map (λ c. c.id) clauses.now.live) }
    ensures judged { (ids : List ℕ) (set : List Literal) → AreGroups groups.now.ids ids →
        IsJudged result (grouped pivot.now.lit (group_of groups.now.is_open set) ids
        clauses.now.live) }
    ensures index { KeepsIndex index.new.lists.items clauses.now.live }
{
    if groups.is_open {
        return Err(StepFault::Open);
    }
    prepare(clauses, index)?;
    if !are_all_grouped(clauses, index, pivot.lit, &groups.ids) {
        return Err(StepFault::Open);
    }
    Ok(())
}

// Makes the index, where there is none yet or its lists became long for their number.
fn prepare(clauses: &Shelf, index: &mut Index) -> Result<(), AllocError>
    requires { KeepsIndex index.old.lists.items clauses.now.live }
    ensures keeps { KeepsIndex index.new.lists.items clauses.now.live }
    ensures made { OnOk result (IsIndex index.new.lists.items clauses.now.live) }
{
    if index.is_ready() {
        return Ok(());
    }
    *index = clauses.index()?;
    Ok(())
}
