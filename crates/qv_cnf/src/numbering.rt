//! Rising ids, as runs without a gap.

ghost use Rattle.std.specs.Prelude.{◌≡◌, ◌≢◌, ◌≤◌, ◌<◌, ◌-◌, ◌+◌, ◌^◌, [], ◌∷◌, ◌++◌, length, take};
ghost use Rattle.std.specs.Prelude.{drop, All, OnOk, OnErr, IfSome, IfNone, IsTrue, ◌↔◌, Some};
ghost use Rattle.std.specs.Prelude.{slice_get, true, false};
ghost use Rattle.qv_cnf.specs.Listing.{next_id, Rises};
ghost use Rattle.qv_cnf.specs.Runs.{ids_of, AreAbove, IsNumbering, IsSpot};
ghost use Rattle.qv_cnf.specs.declared.numbering.Run.{Run};

use std::alloc::{AllocError, Global};
use std::marker::Model;

// No memory holds as many clauses.
const MOST: usize = 0x1000_0000_0000_0000;

// Ids without a gap: so many from the first on, the first of which stands at this place.
#[derive(Clone, Copy, Debug)]
struct Run {
    first: u64,
    at: usize,
    count: usize,
}

// The place of an id, or where it would stand.
#[derive(Clone, Copy)]
struct Spot {
    at: usize,
    taken: bool,
}

/// Ids that rise. Those without a gap between them take one entry. An id of the last run is found
/// at once, one of those before by halving.
#[derive(Debug, Drop)]
pub(crate) struct Numbering {
    before: Vec<Run>,
    // This one may have no id.
    last: Run,
}

impl Model for Numbering {
    ghost use Rattle.std.specs.Prelude.{List, ℕ, ◌++◌, ◌∷◌, []};

    ghost Value = { List ℕ };

    ghost use Rattle.qv_cnf.specs.Runs.{ids_of, IsNumbering};

    ghost view = { λ a. ids_of (a.before.items ++ a.last ∷ []) };

    ghost invariant = { λ a. IsNumbering a.before.items a.last };
}

impl Numbering {
    pub(crate) fn new(alloc: Global) -> Self
        ensures { result ≡ [] }
    {
        Numbering {
            before: Vec::new(alloc),
            last: Run {
                first: 0,
                at: 0,
                count: 0,
            },
        }
    }

    /// Whether the id is greater than all.
    pub(crate) fn may_push(&self, id: u64) -> bool
        ensures above { IsTrue result ↔ (next_id self.now ≤ id) }
        ensures rises { Rises 0 self.now }
        ensures few { length self.now < 2 ^ 61 }
    {
        let spot = spot_among(&self.before, self.last, id);
        spot.at == self.last.at + self.last.count
    }

    pub(crate) fn push(&mut self, id: u64) -> Result<(), AllocError>
        requires { next_id self.old ≤ id }
        ensures ok { OnOk result (self.new ≡ self.old ++ id ∷ []) }
        ensures err { OnErr result (self.new ≡ self.old) }
    {
        let end = self.last.at + self.last.count;
        if end >= MOST {
            return Err(AllocError);
        }
        if continues(self.last, id) {
            self.last.count += 1;
            return Ok(());
        }
        if self.last.count > 0 {
            self.before.reserve(1)?;
            self.before.push_reserved(self.last);
        }
        self.last = Run {
            first: id,
            at: end,
            count: 1,
        };
        Ok(())
    }

    /// The place of the id.
    pub(crate) fn find(&self, id: u64) -> Option<usize>
        ensures within { IfSome result (λ at. at < length self.now) }
        ensures some { IfSome result (λ at. slice_get self.now at ≡ Some id) }
        ensures none { IfNone result (All (λ other. other ≢ id) self.now) }
        ensures rises { Rises 0 self.now }
    {
        let spot = spot_among(&self.before, self.last, id);
        if spot.taken { Some(spot.at) } else { None }
    }

    /// How many ids are below this one.
    pub(crate) fn count_below(&self, id: u64) -> usize
        ensures within { result ≤ length self.now }
        ensures front { All (λ other. other < id) (take result self.now) }
        ensures rest { All (λ other. id ≤ other) (drop result self.now) }
    {
        spot_among(&self.before, self.last, id).at
    }

    /// Keeps the first n ids.
    pub(crate) fn truncate(&mut self, n: usize)
        ensures { self.new ≡ take n self.old }
    {
        self.last = cut(&mut self.before, self.last, n);
    }
}

// Whether the id is the one behind the run.
fn continues(run: Run, id: u64) -> bool
    ensures { IsTrue result ↔ (id ≡ run.first + run.count) }
{
    run.first <= id && id - run.first == run.count as u64
}

// How many runs begin with this id or one below.
fn count_up_to(runs: &[Run], id: u64) -> usize
    ensures within { result ≤ length runs.now }
    ensures up { (r : Run) → 0 < result → slice_get runs.now (result - 1) ≡ Some r → r.first ≤ id }
    ensures above { AreAbove id (drop result runs.now) }
{
    let mut low = 0;
    let mut high = runs.len();
    'halves: while low < high {
        let middle = low + (high - low) / 2;
        if runs[middle].first <= id {
            low = middle + 1;
        } else {
            high = middle;
        }
    }
    low
}

// Where an id stands in a run, or behind it.
fn spot_in(run: Run, id: u64) -> Spot
    requires up { run.first ≤ id }
    requires few { run.at + run.count < 2 ^ 61 }
    ensures there { id - run.first < run.count →
        result ≡ record { at = run.at + (id - run.first); taken = true } }
    ensures behind { run.count ≤ id - run.first →
        result ≡ record { at = run.at + run.count; taken = false } }
{
    let beyond = id - run.first;
    if beyond < run.count as u64 {
        Spot {
            at: run.at + beyond as usize,
            taken: true,
        }
    } else {
        Spot {
            at: run.at + run.count,
            taken: false,
        }
    }
}

fn spot_among(before: &[Run], last: Run, id: u64) -> Spot
    requires { IsNumbering before.now last }
    ensures { IsSpot (ids_of (before.now ++ last ∷ [])) id result }
{
    if last.first <= id {
        return spot_in(last, id);
    }
    let count = count_up_to(before, id);
    if count == 0 {
        return Spot {
            at: 0,
            taken: false,
        };
    }
    spot_in(before[count - 1], id)
}

// Keeps the first n ids, and gives the last run then.
fn cut(before: &mut Vec<Run>, mut last: Run, n: usize) -> Run
    requires { IsNumbering before.old.items last }
    ensures numbering { IsNumbering before.new.items result }
    ensures cut { ids_of (before.new.items ++ result ∷ [])
        ≡ take n (ids_of (before.old.items ++ last ∷ [])) }
{
    'runs: while n < last.at {
        match before.pop() {
            Some(run) => last = run,
            None => unreachable!(),
        }
    }
    let kept = n - last.at;
    if last.count <= kept {
        return last;
    }
    Run {
        first: last.first,
        at: last.at,
        count: kept,
    }
}
