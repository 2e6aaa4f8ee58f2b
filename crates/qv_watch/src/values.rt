//! The values of variables, in the order in which they came.

ghost use Rattle.std.specs.Prelude.{◌≡◌, ◌≢◌, ℕ, ◌+◌, ◌-◌, ◌<◌, ◌≤◌, ◌^◌, [], ◌∷◌, ◌++◌, None};
ghost use Rattle.std.specs.Prelude.{Some, IsSome, OnOk, OnErr, length, max, take, slice_get};
ghost use Rattle.std.specs.Prelude.{slice_set, true, false, vec_len, vec_capacity};
ghost use Rattle.std.specs.Option.{option_map};
ghost use Rattle.qv_cnf.specs.Literal.{index_of, negated, IsLiteral};
ghost use Rattle.qv_watch.specs.Entries.{entry_at, value_of, reason_of, last_level, trues, up_to};
ghost use Rattle.qv_watch.specs.Table.{assignment_of, entries_of, level_after, ArePlaced};
ghost use Rattle.qv_watch.specs.Table.{ArePlacesFor, IsTable, IsTold, IsStepped};

use qv_cnf::Lit;
use std::alloc::{AllocError, Global};
use std::marker::Model;

// What a variable's value is and where it came from.
#[derive(Clone, Copy, Debug, PartialEq, Eq)]
pub(crate) struct Assigned {
    pub(crate) positive: bool,
    pub(crate) level: u32,
    pub(crate) reason: Option<u64>,
}

// The true literals in order; a table of the literals, by their places: what each is; and tables of
// the variables from 1 on: what each has, and where its literal stands in the order. There is
// memory for a value of each.
#[derive(Drop)]
pub(crate) struct Values {
    truths: Vec<Option<bool>>,
    vars: Vec<Option<Assigned>>,
    order: Vec<Lit>,
    positions: Vec<usize>,
    level: u32,
}

impl Model for Values {
    ghost use Rattle.std.specs.Prelude.{length, vec_capacity};
    ghost use Rattle.qv_watch.specs.Table.{Entered};

    ghost Value = { Entered };

    ghost use Rattle.qv_watch.specs.Table.{entries_of};
    ghost use Rattle.qv_watch.specs.Valued.{IsValued};

    ghost view = { λ a. record {
      room = length a.vars.items;
      entries = entries_of a.vars.items a.order.items;
    } };

    ghost invariant = { λ a. IsValued a.truths.items a.vars.items a.order.items a.positions.items
        (vec_capacity a.order) a.level };
}

impl Values {
    ghost use Rattle.qv_watch.specs.Choosing.{level_at};

    pub(crate) fn new(alloc: Global) -> Self
        ensures { result ≡ record { room = 0; entries = [] } }
    {
        Values {
            truths: Vec::new(alloc),
            vars: Vec::new(alloc),
            order: Vec::new(alloc),
            positions: Vec::new(alloc),
            level: 0,
        }
    }

    // Makes room for the variables up to this one.
    pub(crate) fn room(&mut self, variables: u32) -> Result<(), AllocError>
        ensures ok { OnOk result
            (self.new ≡ record self.old { room = max self.old.room variables }) }
        ensures err { OnErr result (self.new ≡ self.old) }
    {
        let variables = variables as usize;
        if variables > self.vars.len() {
            self.order.reserve(variables - self.order.len())?;
            self.positions.resize(variables, 0)?;
            self.truths.resize(2 * variables + 2, None)?;
            self.vars.resize(variables, None)?;
        }
        Ok(())
    }

    // What the literal's variable has.
    pub(crate) fn assigned(&self, lit: Lit) -> Option<Assigned>
        ensures { result ≡ option_map assignment_of (entry_at lit.variable self.now.entries) }
    {
        look_up(&self.vars, &self.order, lit)
    }

    pub(crate) fn value(&self, lit: Lit) -> Option<bool>
        ensures { result ≡ value_of self.now.entries lit }
    {
        match self.truths.get(lit.index()) {
            Some(truth) => *truth,
            None => None,
        }
    }

    pub(crate) fn is_true(&self, lit: Lit) -> bool
        ensures yes { result ≡ true → value_of self.now.entries lit ≡ Some true }
        ensures not { result ≡ false → value_of self.now.entries lit ≢ Some true }
    {
        self.value(lit) == Some(true)
    }

    pub(crate) fn is_false(&self, lit: Lit) -> bool
        ensures yes { result ≡ true → value_of self.now.entries lit ≡ Some false }
        ensures not { result ≡ false → value_of self.now.entries lit ≢ Some false }
    {
        self.value(lit) == Some(false)
    }

    // The level at which the literal's variable got its value, or 0.
    pub(crate) fn level_of(&self, lit: Lit) -> u32
        ensures { result ≡ level_at self.now.entries lit }
    {
        match self.assigned(lit) {
            Some(assigned) => assigned.level,
            None => 0,
        }
    }

    // The literal at that place in the order.
    pub(crate) fn literal_at(&self, place: usize) -> Option<Lit>
        ensures literal { result ≡ option_map (λ e. e.lit) (slice_get self.now.entries place) }
        ensures within { length self.now.entries ≤ self.now.room }
        ensures few { self.now.room < 2 ^ 32 }
    {
        self.order.get(place).copied()
    }

    // How many literals came before that of the literal's variable.
    pub(crate) fn position(&self, lit: Lit) -> usize
        requires { IsSome (value_of self.now.entries lit) }
        ensures { slice_get self.now.entries result ≡ entry_at lit.variable self.now.entries }
    {
        self.positions[place_of(lit)]
    }

    // The clause that the literal came from.
    pub(crate) fn reason(&self, lit: Lit) -> Option<u64>
        ensures { result ≡ reason_of self.now.entries lit }
    {
        let assigned = look_up(&self.vars, &self.order, lit)?;
        if assigned.positive == lit.is_positive() {
            assigned.reason
        } else {
            None
        }
    }

    // The literal is true from now on. One without a reason was assumed, and opens a level.
    pub(crate) fn push(&mut self, lit: Lit, reason: Option<u64>)
        requires has_room { lit.variable ≤ self.old.room }
        requires fresh { value_of self.old.entries lit ≡ None }
        ensures entries { self.new ≡ record self.old {
          entries = self.old.entries ++ record {
            lit = lit;
            level = level_after (last_level self.old.entries) reason;
            reason = reason;
          } ∷ [];
        } }
        ensures within { length self.new.entries ≤ self.new.room }
        ensures literal { IsLiteral lit }
    {
        let place = place_of(lit);
        let level = next_level(self.level, reason);
        put(
            &mut self.truths,
            &mut self.vars,
            &mut self.positions,
            &mut self.order,
            place,
            lit,
            level,
            reason,
        );
        self.level = level;
    }

    // The last literal goes.
    fn pop(&mut self)
        ensures entries { self.new ≡ record self.old {
          entries = take (length self.old.entries - 1) self.old.entries;
        } }
        ensures stepped { IsStepped 0 self.old.entries }
    {
        take_back(&mut self.truths, &mut self.vars, &mut self.order);
        self.level = level_of_last(&self.vars, &self.order);
    }

    // Keeps the literals of levels up to this one.
    pub(crate) fn cut(&mut self, level: u32)
        requires { level ≤ last_level self.old.entries }
        ensures entries { self.new ≡ record self.old { entries = up_to level self.old.entries } }
        ensures front { self.new.entries ≡ take (length self.new.entries) self.old.entries }
        ensures level { last_level self.new.entries ≡ level }
    {
        while self.level > level {
            self.pop();
        }
    }

    // The present level.
    pub(crate) fn level(&self) -> u32
        ensures { result ≡ last_level self.now.entries }
    {
        self.level
    }

    pub(crate) fn order(&self) -> &[Lit]
        ensures { result.now ≡ trues self.now.entries }
    {
        &self.order
    }
}

// The place of the literal's variable in a table of the variables from 1 on.
fn place_of(lit: Lit) -> usize
    ensures place { result + 1 ≡ lit.variable }
    ensures literal { IsLiteral lit }
{
    lit.variable() as usize - 1
}

// The level of one more literal.
fn next_level(level: u32, reason: Option<u64>) -> u32
    requires { level + 1 < 2 ^ 32 }
    ensures { result ≡ level_after level reason }
{
    match reason {
        None => level + 1,
        Some(_) => level,
    }
}

fn look_up(vars: &[Option<Assigned>], order: &[Lit], lit: Lit) -> Option<Assigned>
    requires { IsTable vars.now order.now }
    ensures { result ≡ option_map assignment_of (entry_at lit.variable
        (entries_of vars.now order.now)) }
{
    let _order = order;
    match vars.get(place_of(lit)) {
        Some(assigned) => *assigned,
        None => None,
    }
}

fn level_of_last(vars: &[Option<Assigned>], order: &[Lit]) -> u32
    requires { IsTable vars.now order.now }
    ensures { result ≡ last_level (entries_of vars.now order.now) }
{
    let Some(lit) = order.last() else {
        return 0;
    };
    match vars[place_of(*lit)] {
        Some(assigned) => assigned.level,
        None => 0,
    }
}

// A literal becomes true, and its negation false.
fn tell(truths: &mut [Option<bool>], lit: Lit)
    requires { ArePlacesFor lit.variable (length truths.old) }
    ensures { truths.new ≡ slice_set (slice_set truths.old (index_of lit) (Some true))
        (index_of (negated lit)) (Some false) }
{
    truths[lit.index()] = Some(true);
    truths[lit.negated().index()] = Some(false);
}

// Neither is any more.
fn untell(truths: &mut [Option<bool>], lit: Lit)
    requires { ArePlacesFor lit.variable (length truths.old) }
    ensures { truths.new ≡ slice_set (slice_set truths.old (index_of lit) None)
        (index_of (negated lit)) None }
{
    truths[lit.index()] = None;
    truths[lit.negated().index()] = None;
}

fn put(
    truths: &mut [Option<bool>],
    vars: &mut [Option<Assigned>],
    positions: &mut [usize],
    order: &mut Vec<Lit>,
    place: usize,
    lit: Lit,
    level: u32,
    reason: Option<u64>,
)
    requires told { IsTold truths.old (entries_of vars.old order.old.items) }
    requires places { ArePlacesFor (length vars.old) (length truths.old) }
    requires table { IsTable vars.old order.old.items }
    requires placed { ArePlaced positions.old order.old.items }
    requires place { place + 1 ≡ lit.variable }
    requires has_room { lit.variable ≤ length vars.old }
    requires wide { length vars.old ≤ length positions.old }
    requires fresh { entry_at lit.variable (entries_of vars.old order.old.items) ≡ None }
    requires capacity { length vars.old ≤ vec_capacity order.old }
    ensures told { IsTold truths.new (entries_of vars.new order.new.items) }
    ensures table { IsTable vars.new order.new.items }
    ensures placed { ArePlaced positions.new order.new.items }
    ensures entries { entries_of vars.new order.new.items ≡ entries_of vars.old order.old.items ++
        record { lit = lit; level = level; reason = reason } ∷ [] }
    ensures capacity { vec_capacity order.new ≡ vec_capacity order.old }
{
    tell(truths, lit);
    positions[place] = order.len();
    vars[place] = Some(Assigned {
        positive: lit.is_positive(),
        level,
        reason,
    });
    order.push_reserved(lit);
}

fn take_back(truths: &mut [Option<bool>], vars: &mut [Option<Assigned>], order: &mut Vec<Lit>)
    requires told { IsTold truths.old (entries_of vars.old order.old.items) }
    requires places { ArePlacesFor (length vars.old) (length truths.old) }
    requires table { IsTable vars.old order.old.items }
    ensures told { IsTold truths.new (entries_of vars.new order.new.items) }
    ensures table { IsTable vars.new order.new.items }
    ensures entries { entries_of vars.new order.new.items ≡ take (length order.old.items - 1)
        (entries_of vars.old order.old.items) }
    ensures len { vec_len order.new ≡ vec_len order.old - 1 }
    ensures capacity { vec_capacity order.new ≡ vec_capacity order.old }
{
    if let Some(lit) = order.pop() {
        untell(truths, lit);
        vars[place_of(lit)] = None;
    }
}
