//! Unit propagation along the watches.

ghost use Rattle.std.specs.Prelude.{◌≡◌, ◌≢◌, ◌⊎◌, ◌+◌, ◌-◌, ◌<◌, ◌≤◌, ◌∷◌, [], ◌++◌, true, false};
ghost use Rattle.std.specs.Prelude.{length, None, Some, IfSome, vec_len, slice_get, slice_set};
ghost use Rattle.std.specs.Option.{option_map};
ghost use Rattle.qv_cnf.specs.Literal.{negated};
ghost use Rattle.qv_watch.specs.Attaching.{attached_in};
ghost use Rattle.qv_watch.specs.Entries.{value_of};
ghost use Rattle.qv_watch.specs.Scanning.{IsSettledBelow, MayScan, Scans};
ghost use Rattle.qv_watch.specs.TrailState.{Holds};
ghost use Rattle.qv_watch.specs.Visiting.{AreTrue, IsBesideAt, IsBesideOf, IsDone, IsFollowed};
ghost use Rattle.qv_watch.specs.Visiting.{IsKnownBeside, IsSound, IsStopped, IsVisited, IsVisiting};
ghost use Rattle.qv_watch.specs.Visiting.{OnStop, OnWalk};
ghost use Rattle.qv_watch.specs.Watching.{Frames, IsWatching};

use super::choosing::{Choice, choose};
use super::clauses::Attached;
use super::scanning::{look_at, scan};
use super::values::Values;
use super::watches::{Watch, Watches};
use qv_cnf::{Lit, Reading};

/// What propagation came to.
#[derive(Clone, Copy, Debug, PartialEq, Eq)]
pub enum Propagated {
    /// No attached clause is unit or false.
    Quiet,
    /// The clause of this id is false.
    Conflict { id: u64 },
}

// Why propagation stops: the clause of the id is false, or the watches mean nothing any more.
#[derive(Clone, Copy, Debug, PartialEq, Eq)]
pub(crate) enum Stop {
    Conflict(u64),
    Lost,
}

// What became of a watch: it stays, it went and the list's last took its place, or propagation
// stops.
#[derive(Clone, Copy, Debug, PartialEq, Eq)]
pub(crate) enum Visited {
    Kept,
    Gone,
    Stopped(Stop),
}

// What a clause has beside a literal: one that isn't false, or none, and whether it has the
// literal; or that no clause is attached there.
#[derive(Clone, Copy, Debug, PartialEq, Eq)]
pub(crate) enum Beside {
    Open(Lit),
    Rest { has: bool },
    Detached,
}

// Derives literals until no clause is unit, or one is false.
pub(crate) fn settle(clauses: &Attached, watches: &mut Watches, values: &mut Values) -> Propagated
    requires may { MayScan clauses.now values.old }
    requires settled { IsSettledBelow (attached_in clauses.now) values.old.entries }
    requires watching { watches.old.lost ≡ false →
        IsWatching clauses.now values.old.entries watches.old }
    ensures scans { Scans clauses.now values.old values.new }
    ensures answer { Holds (attached_in clauses.now) values.new.entries (Some result) }
    ensures sound { watches.new.lost ≡ false →
        IsSound clauses.now values.new.entries watches.new result }
{
    if !watches.lost {
        match follow(clauses, watches, values) {
            None => return Propagated::Quiet,
            Some(Stop::Conflict(id)) => return Propagated::Conflict { id },
            Some(Stop::Lost) => watches.lost = true,
        }
    }
    scan(clauses, values)
}

// Looks at the new clauses, and follows each true literal.
fn follow(clauses: &Attached, watches: &mut Watches, values: &mut Values) -> Option<Stop>
    requires may { MayScan clauses.now values.old }
    requires settled { IsSettledBelow (attached_in clauses.now) values.old.entries }
    requires watching { IsWatching clauses.now values.old.entries watches.old }
    ensures scans { Scans clauses.now values.old values.new }
    ensures stop { OnStop result (IsDone clauses.now values.new.entries watches.new)
        (IsStopped clauses.now values.new.entries watches.new) }
{
    if let Some(stop) = enter_all(clauses, watches, values) {
        return Some(stop);
    }
    while let Some(lit) = values.literal_at(watches.head) {
        if let Some(stop) = visit_all(clauses, watches, values, lit.negated()) {
            return Some(stop);
        }
        watches.head += 1;
    }
    None
}

// Each new clause gets its watches. One that is unit gives its literal before that.
fn enter_all(clauses: &Attached, watches: &mut Watches, values: &mut Values) -> Option<Stop>
    requires may { MayScan clauses.now values.old }
    requires settled { IsSettledBelow (attached_in clauses.now) values.old.entries }
    requires watching { IsWatching clauses.now values.old.entries watches.old }
    ensures scans { Scans clauses.now values.old values.new }
    ensures watching { OnStop result (IsWatching clauses.now values.new.entries watches.new)
        (IsStopped clauses.now values.new.entries watches.new) }
    ensures none { result ≡ None → watches.new.queue.items ≡ [] }
{
    while let Some(place) = watches.queue.last() {
        let place = *place;
        if let Some(stop) = enter(clauses, watches, values, place) {
            return Some(stop);
        }
    }
    None
}

// The last of the new clauses, at this place, gives a literal, or gets its watches.
fn enter(
    clauses: &Attached,
    watches: &mut Watches,
    values: &mut Values,
    place: usize,
) -> Option<Stop>
    requires may { MayScan clauses.now values.old }
    requires settled { IsSettledBelow (attached_in clauses.now) values.old.entries }
    requires watching { IsWatching clauses.now values.old.entries watches.old }
    requires last { slice_get watches.old.queue.items (length watches.old.queue.items - 1) ≡
        Some place }
    ensures scans { Scans clauses.now values.old values.new }
    ensures watching { OnStop result (IsWatching clauses.now values.new.entries watches.new)
        (IsStopped clauses.now values.new.entries watches.new) }
    ensures less { result ≡ None →
        length watches.new.queue.items + (values.new.room - length values.new.entries) <
        length watches.old.queue.items + (values.old.room - length values.old.entries) }
{
    let Some(lits) = clauses.get_at(place) else {
        let _place = watches.queue.pop();
        return None;
    };
    let id = clauses.id_at(place);
    match look_at(lits, values) {
        Reading::Falsified => return Some(Stop::Conflict(id)),
        Reading::Forced(lit) => {
            values.push(lit, Some(id));
            return None;
        }
        Reading::Useless => {}
    }
    match choose(lits, values) {
        Choice::Settled => {}
        Choice::Watching(pair) => {
            if !watches.watch(place, pair) {
                return Some(Stop::Lost);
            }
        }
    }
    let _place = watches.queue.pop();
    None
}

// Visits each clause that watches a literal which became false by the entry at the head.
fn visit_all(
    clauses: &Attached,
    watches: &mut Watches,
    values: &mut Values,
    lit: Lit,
) -> Option<Stop>
    requires may { MayScan clauses.now values.old }
    requires watching { IsWatching clauses.now values.old.entries watches.old }
    requires follows { option_map (λ e. e.lit) (slice_get values.old.entries watches.old.head) ≡
        Some (negated lit) }
    ensures scans { Scans clauses.now values.old values.new }
    ensures frames { Frames watches.old watches.new }
    ensures stop { OnStop result (IsFollowed clauses.now values.new.entries watches.new)
        (IsStopped clauses.now values.new.entries watches.new) }
{
    let at = lit.index();
    if at >= watches.lists.len() {
        return None;
    }
    let mut list = watches.take(at);
    let stop = visit_each(clauses, watches, values, &mut list, lit);
    watches.lists[at].watches = list;
    stop
}

// The same, where the literal's list is out.
fn visit_each(
    clauses: &Attached,
    watches: &mut Watches,
    values: &mut Values,
    list: &mut Vec<Watch>,
    lit: Lit,
) -> Option<Stop>
    requires may { MayScan clauses.now values.old }
    requires visiting { IsVisiting clauses.now values.old.entries watches.old list.old.items 0 lit }
    ensures scans { Scans clauses.now values.old values.new }
    ensures frames { Frames watches.old watches.new }
    ensures stop { OnWalk result clauses.now values.new.entries watches.new list.new.items lit }
{
    let mut i = skip(list, 0, values);
    while i < list.len() {
        match visit(clauses, watches, values, list, i, lit) {
            Visited::Kept => i = skip(list, i + 1, values),
            Visited::Gone => i = skip(list, i, values),
            Visited::Stopped(stop) => return Some(stop),
        }
    }
    None
}

// The place of the first watch from `i` on whose literal that is looked at first isn't true.
fn skip(list: &[Watch], i: usize, values: &Values) -> usize
    requires { i ≤ length list.now }
    ensures from { i ≤ result }
    ensures within { result ≤ length list.now }
    ensures skipped { AreTrue values.now.entries list.now i result }
{
    let mut next = i;
    'watches: while next < list.len() && values.is_true(list[next].other) {
        next += 1;
    }
    next
}

// Visits the clause of the watch at `i`.
fn visit(
    clauses: &Attached,
    watches: &mut Watches,
    values: &mut Values,
    list: &mut Vec<Watch>,
    i: usize,
    lit: Lit,
) -> Visited
    requires may { MayScan clauses.now values.old }
    requires within { i < vec_len list.old }
    requires visiting { IsVisiting clauses.now values.old.entries watches.old list.old.items i lit }
    ensures scans { Scans clauses.now values.old values.new }
    ensures frames { Frames watches.old watches.new }
    ensures visited { IsVisited clauses.now values.new.entries watches.new list.new.items
        (length list.old.items) i lit result }
{
    let watch = list[i];
    let place = watch.place as usize;
    let Some(other) = watches.beside(place, lit) else {
        let _watch = list.swap_remove(i);
        return Visited::Gone;
    };
    if values.is_true(other) {
        renew(
            list,
            i,
            Watch {
                place: watch.place,
                other,
            },
        );
        return Visited::Kept;
    }
    match look_beside(clauses, watches, values, place, other) {
        Beside::Detached => {
            let _watch = list.swap_remove(i);
            Visited::Gone
        }
        Beside::Open(next) => {
            if !watches.shift(watch.place, lit, other, next) {
                return Visited::Stopped(Stop::Lost);
            }
            let _watch = list.swap_remove(i);
            Visited::Gone
        }
        Beside::Rest { has } => {
            let id = clauses.id_at(place);
            if is_forced(has, other, values) {
                values.push(other, Some(id));
                Visited::Kept
            } else {
                Visited::Stopped(Stop::Conflict(id))
            }
        }
    }
}

// The watch at `i` is this one from now on.
fn renew(list: &mut [Watch], i: usize, watch: Watch)
    requires { i < length list.old }
    ensures { list.new ≡ slice_set list.old i watch }
{
    list[i] = watch;
}

// Whether a clause that has this literal, and all others of which are false, is unit.
fn is_forced(has: bool, other: Lit, values: &Values) -> bool
    ensures yes { result ≡ true → (has ≡ true) × (value_of values.now.entries other ≡ None) }
    ensures not { result ≡ false → (has ≡ false) ⊎ (value_of values.now.entries other ≢ None) }
{
    has && values.value(other).is_none()
}

// What the clause at a place has beside a literal. Those of its literals that stand with its
// watches are looked at first.
fn look_beside(
    clauses: &Attached,
    watches: &Watches,
    values: &Values,
    place: usize,
    other: Lit,
) -> Beside
    ensures { IsBesideAt clauses.now watches.now.pairs.items values.now.entries place other result }
{
    if let Some(next) = known_beside(watches, values, place, other) {
        return Beside::Open(next);
    }
    match clauses.get_at(place) {
        Some(lits) => open_beside(lits, other, values),
        None => Beside::Detached,
    }
}

// One of the literals that stand with the watches of the clause at a place, other than this one,
// that isn't false.
fn known_beside(watches: &Watches, values: &Values, place: usize, other: Lit) -> Option<Lit>
    ensures { IfSome result
        (IsKnownBeside watches.now.pairs.items values.now.entries place other) }
{
    let pair = watches.pairs.get(place)?;
    if is_open_beside(pair.third, other, values) {
        return Some(pair.third);
    }
    if is_open_beside(pair.fourth, other, values) {
        return Some(pair.fourth);
    }
    None
}

// Whether a literal isn't the other one, and isn't false.
fn is_open_beside(lit: Lit, other: Lit, values: &Values) -> bool
    ensures { result ≡ true → (lit ≢ other) × (value_of values.now.entries lit ≢ Some false) }
{
    lit != other && !values.is_false(lit)
}

// What a clause has beside a literal.
fn open_beside(lits: &[Lit], other: Lit, values: &Values) -> Beside
    ensures { IsBesideOf values.now.entries lits.now other result }
{
    let mut has = false;
    for lit in lits {
        if *lit == other {
            has = true;
        } else if !values.is_false(*lit) {
            return Beside::Open(*lit);
        }
    }
    Beside::Rest { has }
}
