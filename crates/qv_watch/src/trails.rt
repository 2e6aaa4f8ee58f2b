//! Trails.

ghost use Rattle.std.specs.Prelude.{◌≡◌, ◌≢◌, ◌+◌, ◌≤◌, ◌↔◌, ◌∷◌, ◌++◌, [], None, Some, All};
ghost use Rattle.std.specs.Prelude.{IsSome, OnOk, OnErr, max, slice_get};
ghost use Rattle.std.specs.Option.{option_copied, option_map};
ghost use Rattle.qv_cnf.specs.Listing.{clause_named, without};
ghost use Rattle.qv_watch.specs.TrailState.{without_conflict};
ghost use Rattle.qv_watch.specs.Watching.{Releases};

use super::clauses::Attached;
use super::propagation::{Propagated, settle};
use super::values::Values;
use super::watches::Watches;
use qv_cnf::Lit;
use std::alloc::{AllocError, Global};
use std::marker::Model;

/// The literals that are true, in the order in which they came, over clauses that are attached
/// under ids. A literal was assumed, and opened a level, or it came from a clause that was unit.
/// Where memory is wanted, everything stays as it was.
#[derive(Drop)]
pub struct Trail {
    clauses: Attached,
    watches: Watches,
    values: Values,
    answer: Option<Propagated>,
}

impl Model for Trail {
    ghost use Rattle.qv_watch.specs.TrailState.{TrailState};

    ghost Value = { TrailState };

    ghost use Rattle.qv_watch.specs.Attaching.{attached_in};
    ghost use Rattle.qv_watch.specs.Entries.{last_level};
    ghost use Rattle.qv_watch.specs.TrailState.{IsTrail};
    ghost use Rattle.qv_watch.specs.Viewed.{state_of};

    ghost view = { λ a. state_of (attached_in a.clauses) a.values a.answer };

    ghost use Rattle.qv_watch.specs.Keeping.{IsKept};

    ghost invariant = { λ a. IsKept a.clauses a.values a.watches a.answer };
}

impl Trail {
    ghost use Rattle.qv_watch.specs.Entries.{entry_at, reason_of, trues, up_to, value_of};
    ghost use Rattle.qv_watch.specs.Entries.{IsSettled};
    ghost use Rattle.qv_watch.specs.TrailState.{empty_trail, Continues, Holds, IsAtRestBelow};
    ghost use Rattle.qv_watch.specs.TrailState.{IsTrail};

    /// No clause, no literal, and no room.
    pub fn new(alloc: Global) -> Trail
        ensures { result ≡ empty_trail }
    {
        Trail {
            clauses: Attached::new(alloc),
            watches: Watches::new(alloc),
            values: Values::new(alloc),
            answer: None,
        }
    }

    /// Makes room for the variables from 1 to this one, with all the memory that their values take.
    pub fn room(&mut self, variables: u32) -> Result<(), AllocError>
        ensures ok { OnOk result
            (self.new ≡ record self.old { room = max self.old.room variables }) }
        ensures err { OnErr result (self.new ≡ self.old) }
    {
        self.watches.room(variables)?;
        self.values.room(variables)
    }

    /// Attaches a clause, with all the memory that propagation takes for it.
    pub fn attach(&mut self, id: u64, lits: &[Lit]) -> Result<(), AllocError>
        requires has_room { All (λ l. l.variable ≤ self.old.room) lits.now }
        requires fresh { clause_named id self.old.clauses ≡ None }

        // So each level below the present one stays without a clause that is unit or false.
        requires at_rest_below { IsAtRestBelow self.old lits.now }
        ensures ok { OnOk result (self.new ≡ record self.old {
          clauses = self.old.clauses ++ record { id = id; lits = lits.now } ∷ [];
          answer = None;
        }) }
        ensures err { OnErr result (self.new ≡ self.old) }
    {
        self.watches.reserve(lits)?;
        let place = self.clauses.len();
        self.clauses.attach(id, lits)?;
        self.watches.put(place);
        self.answer = None;
        Ok(())
    }

    /// Takes a clause away.
    pub fn detach(&mut self, id: u64)
        requires attached { IsSome (clause_named id self.old.clauses) }
        requires no_reason { All (λ e. e.reason ≢ Some id) self.old.entries }
        ensures { self.new ≡ record self.old {
          clauses = without (id ∷ []) self.old.clauses;
          answer = without_conflict self.old.answer;
        } }
    {
        release(&self.clauses, &mut self.watches, id);
        self.clauses.detach(id);
        self.answer = quiet_only(self.answer);
    }

    /// Assumes a literal, which opens a level.
    pub fn assume(&mut self, lit: Lit)
        requires has_room { lit.variable ≤ self.old.room }
        requires fresh { value_of self.old.entries lit ≡ None }
        requires quiet { self.old.answer ≡ Some Propagated.Quiet }
        ensures { self.new ≡ record self.old {
          entries = self.old.entries ++ record {
            lit = lit;
            level = self.old.level + 1;
            reason = None;
          } ∷ [];
          level = self.old.level + 1;
          answer = None;
        } }
    {
        self.values.push(lit, None);
        self.answer = None;
    }

    /// Unit propagation: derives literals at the present level until no attached clause is unit, or
    /// one is false.
    pub fn propagate(&mut self) -> Propagated
        ensures same { self.new ≡ record self.old {
          entries = self.new.entries;
          answer = Some result;
        } }
        ensures goes_on { Continues self.old.level self.old.entries self.new.entries }
        ensures quiet { (result ≡ Propagated.Quiet) ↔ IsSettled self.new.clauses self.new.entries }
        ensures holds { Holds self.new.clauses self.new.entries (Some result) }
        ensures trail { IsTrail self.new }
    {
        let answer = settle(&self.clauses, &mut self.watches, &mut self.values);
        self.answer = Some(answer);
        answer
    }

    /// Takes back the literals of the levels above this one.
    pub fn back_to(&mut self, level: u32)
        requires { level ≤ self.old.level }
        ensures { self.new ≡ record self.old {
          entries = up_to level self.old.entries;
          level = level;
          answer = None;
        } }
    {
        self.values.cut(level);
        self.watches.head = self.watches.head.min(self.values.order().len());
        self.answer = None;
    }

    /// The literal's value, if its variable has one.
    pub fn value(&self, lit: Lit) -> Option<bool>
        ensures { result ≡ value_of self.now.entries lit }
    {
        self.values.value(lit)
    }

    /// The present level: how many literals are assumed.
    pub fn level(&self) -> u32
        ensures level { result ≡ self.now.level }
        ensures trail { IsTrail self.now }
    {
        self.values.level()
    }

    /// The literals that are true, in the order in which they came.
    pub fn order(&self) -> &[Lit]
        ensures order { result.now ≡ trues self.now.entries }
        ensures trail { IsTrail self.now }
    {
        self.values.order()
    }

    /// The level at which the literal's variable got its value.
    pub fn level_of(&self, lit: Lit) -> u32
        requires { IsSome (value_of self.now.entries lit) }
        ensures { option_map (λ e. e.level) (entry_at lit.variable self.now.entries) ≡ Some result }
    {
        match self.values.assigned(lit) {
            Some(assigned) => assigned.level,
            None => 0,
        }
    }

    /// How many literals came before the literal's variable got its value.
    pub fn position(&self, lit: Lit) -> usize
        requires { IsSome (value_of self.now.entries lit) }
        ensures { slice_get self.now.entries result ≡ entry_at lit.variable self.now.entries }
    {
        self.values.position(lit)
    }

    /// The id of the clause that was unit before the true literal came from it. None where the
    /// literal isn't true or was assumed.
    pub fn reason(&self, lit: Lit) -> Option<u64>
        ensures { result ≡ reason_of self.now.entries lit }
    {
        self.values.reason(lit)
    }

    /// The literals of the attached clause of that id.
    pub fn clause(&self, id: u64) -> Option<&[Lit]>
        ensures { option_copied result ≡ clause_named id self.now.clauses }
    {
        self.clauses.get(id)
    }
}

// The literals of the clause of that id take no more room, but for those that it watches.
fn release(clauses: &Attached, watches: &mut Watches, id: u64)
    ensures { Releases watches.old watches.new }
{
    let Some(place) = clauses.place_of(id) else {
        return;
    };
    if let Some(lits) = clauses.get_at(place) {
        watches.release(place, lits);
    }
}

// What propagation answered, unless that was a conflict.
fn quiet_only(answer: Option<Propagated>) -> Option<Propagated>
    ensures { result ≡ without_conflict answer }
{
    match answer {
        Some(Propagated::Quiet) => Some(Propagated::Quiet),
        Some(Propagated::Conflict { .. }) => None,
        None => None,
    }
}
