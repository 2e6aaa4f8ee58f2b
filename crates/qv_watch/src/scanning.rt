//! Propagation by looking at every clause, where the watches are lost.

ghost use Rattle.std.specs.Prelude.{◌≡◌, ◌<◌, ◌≤◌, length, None, Some};
ghost use Rattle.qv_watch.specs.Attaching.{attached_in};
ghost use Rattle.qv_watch.specs.Entries.{reading_on};
ghost use Rattle.qv_watch.specs.Scanning.{MayScan, Scans};
ghost use Rattle.qv_watch.specs.Table.{HasNoTwice};
ghost use Rattle.qv_watch.specs.TrailState.{Holds};

use super::clauses::Attached;
use super::propagation::Propagated;
use super::values::Values;
use qv_cnf::{Lit, Reading};

// Derives literals until no clause is unit, or one is false.
pub(crate) fn scan(clauses: &Attached, values: &mut Values) -> Propagated
    requires { MayScan clauses.now values.old }
    ensures scans { Scans clauses.now values.old values.new }
    ensures answer { Holds (attached_in clauses.now) values.new.entries (Some result) }
{
    loop {
        if let Some(answer) = look_at_all(clauses, values) {
            return answer;
        }
    }
}

// Derives a literal from each clause that is unit when it is looked at. The answer is None where
// there was one and no clause was false.
fn look_at_all(clauses: &Attached, values: &mut Values) -> Option<Propagated>
    requires { MayScan clauses.now values.old }
    ensures scans { Scans clauses.now values.old values.new }
    ensures answer { Holds (attached_in clauses.now) values.new.entries result }
    ensures more { result ≡ None → length values.old.entries < length values.new.entries }
    ensures within { result ≡ None → length values.new.entries ≤ values.new.room }
{
    let mut quiet = true;
    for place in 0..clauses.len() {
        if let Some(lits) = clauses.get_at(place) {
            match look_at(lits, values) {
                Reading::Useless => {}
                Reading::Forced(lit) => {
                    values.push(lit, Some(clauses.id_at(place)));
                    quiet = false;
                }
                Reading::Falsified => {
                    let id = clauses.id_at(place);
                    return Some(Propagated::Conflict { id });
                }
            }
        }
    }
    if quiet { Some(Propagated::Quiet) } else { None }
}

// What a clause says on the trail.
pub(crate) fn look_at(lits: &[Lit], values: &Values) -> Reading
    requires { HasNoTwice values.now.entries }
    ensures { result ≡ reading_on values.now.entries lits.now }
{
    let mut free = None;
    for lit in lits {
        match values.value(*lit) {
            Some(true) => return Reading::Useless,
            Some(false) => {}
            None => match free {
                None => free = Some(*lit),
                Some(other) => {
                    if other != *lit {
                        return Reading::Useless;
                    }
                }
            },
        }
    }
    match free {
        None => Reading::Falsified,
        Some(lit) => Reading::Forced(lit),
    }
}
