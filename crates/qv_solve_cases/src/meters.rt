//! Calls of a meter, one by one, and in which order.

ghost use Rattle.std.specs.Prelude.{◌≡◌, [], ◌∷◌, IfSome, IsTrue};
ghost use Rattle.qv_words.specs.Problem.{Universal};
ghost use Rattle.qv_cnf.specs.LratLine.{lines_of};
ghost use Rattle.qv_entries.specs.Rows.{entries_in, entry_in, row_of};
ghost use Rattle.qv_meter.specs.Charging.{MayCharge, MayChargeInstance};
ghost use Rattle.qv_meter.specs.Records.{AreLimits, after_instance, in_lane, started};
ghost use Rattle.qv_meter.specs.Units.{EntryUnit, LineUnit, Query};
ghost use Rattle.qv_meter.specs.Views.{limits_of};
ghost use Rattle.qv_solve_cases.specs.Lost.{clauses_of_false, lost, undone};

use crate::boards::{clauses, first, lost, undone, wide};
use crate::limits::{are_limits, read_limits};
use crate::records::{say_charge, say_records};
use qv_cases_rows::{Answer, Words};
use qv_cnf::{Budget, ClauseList, Step};
use qv_entries::{Entries, Entry};
use qv_meter::{InstanceUnit, Lane, Limits, Meter};
use qv_store::{Quant, Store};
use std::alloc::Global;

#[derive(Clone, Copy)]
enum Call {
    Start,
    Conflicts,
    Instances,
    Variables,
    Settle,
}

const CALLS: [(&str, Call); 5] = [
    ("start", Call::Start),
    ("conflicts", Call::Conflicts),
    ("instances", Call::Instances),
    ("variables", Call::Variables),
    ("settle", Call::Settle),
];

/// `CALLS LIMITS` begins a record with these limits for a problem over one truth value, and makes the
/// calls that `CALLS` names. Each answer is said, and then what the records count.
pub fn say_calls(alloc: Global, words: &mut Words<'_>, out: &mut Answer) {
    let call = words.pick(&CALLS);
    let limits = read_limits(words);
    let was = match call {
        Some(call) => answer_call(alloc, out, *call, limits),
        None => None,
    };
    if was.is_none() {
        out.refuse();
    }
}

fn answer_call(alloc: Global, out: &mut Answer, call: Call, limits: Limits) -> Option<()> {
    if !are_limits(limits) {
        return None;
    }
    let mut meter = Meter::new(alloc);
    make_call(alloc, out, &mut meter, call, limits)?;
    say_records(out, &meter);
    Some(())
}

// What a call does to a meter.
fn make_call(
    alloc: Global,
    out: &mut Answer,
    meter: &mut Meter,
    call: Call,
    limits: Limits,
) -> Option<()>
    requires limits { AreLimits (limits_of limits) }
{
    match call {
        Call::Start => start(alloc, out, meter, limits),
        Call::Conflicts => conflicts(alloc, out, meter, limits),
        Call::Instances => instances(alloc, out, meter, limits),
        Call::Variables => variables(alloc, out, meter, limits),
        Call::Settle => {
            conflicts(alloc, out, meter, limits)?;
            meter.settle();
            start(alloc, out, meter, limits)
        }
    }
}

// A record that nothing is charged to.
fn start(alloc: Global, out: &mut Answer, meter: &mut Meter, limits: Limits) -> Option<()>
    requires limits { AreLimits (limits_of limits) }
{
    let board = lost(alloc)?;
    meter.start(&board.store, &board.problem, limits).ok()?;
    out.say("started, ");
    Some(())
}

// Two conflicts of the universal player's last query.
fn conflicts(alloc: Global, out: &mut Answer, meter: &mut Meter, limits: Limits) -> Option<()>
    requires limits { AreLimits (limits_of limits) }
{
    let base = clauses(alloc)?;
    let steps = undone(alloc)?;
    begin(alloc, meter, limits)?;
    charge_conflicts(out, meter, &base, &steps);
    Some(())
}

// A record of the lost problem, and that query's lane.
fn begin(alloc: Global, meter: &mut Meter, limits: Limits) -> Option<()>
    requires limits { AreLimits (limits_of limits) }
    ensures { IfSome result (λ _. meter.new
        ≡ in_lane (Query Universal 2) (started lost (limits_of limits) meter.old)) }
{
    let board = lost(alloc)?;
    meter.start(&board.store, &board.problem, limits).ok()?;
    meter.lane(Lane::Query {
        winner: Quant::Forall,
        level: 2,
    });
    Some(())
}

// The same clause twice; between both it is taken away.
fn charge_conflicts(out: &mut Answer, meter: &mut Meter, base: &ClauseList, steps: &[Step])
    requires may { MayCharge meter.old base.now.live [] }
    requires base { base.now.live ≡ clauses_of_false }
    requires steps { lines_of steps.now ≡ undone }
{
    let charge = meter.conflict(base, &[], 3, &[], &[1, 2]);
    say_charge(out, &charge);
    if charge.is_ok() {
        let charge = meter.conflict(base, steps, 4, &[], &[1, 2]);
        say_charge(out, &charge);
    }
}

// The entry with which the universal player wins, and the line of its tree.
fn instances(alloc: Global, out: &mut Answer, meter: &mut Meter, limits: Limits) -> Option<()>
    requires limits { AreLimits (limits_of limits) }
{
    let board = lost(alloc)?;
    meter.start(&board.store, &board.problem, limits).ok()?;
    let mut entries = Entries::new(alloc);
    let entry = first(alloc, board.top);
    if charge_entry(out, meter, &board.store, &entries, &entry) {
        entries.add(&board.store, &board.problem, entry).ok()?;
        charge_line(out, meter, &board.store, &entries);
    }
    Some(())
}

fn charge_entry(
    out: &mut Answer,
    meter: &mut Meter,
    store: &Store,
    entries: &Entries,
    entry: &Entry,
) -> bool
    requires { MayChargeInstance meter.old (EntryUnit (entries_in store.now entries.now)
        (entry_in store.now (row_of entry.now))) }
    ensures { IsTrue result → meter.new ≡ after_instance meter.old }
{
    let unit = InstanceUnit::Entry { entries, entry };
    let charge = meter.instance(store, &unit);
    say_charge(out, &charge);
    charge.is_ok()
}

fn charge_line(out: &mut Answer, meter: &mut Meter, store: &Store, entries: &Entries)
    requires { MayChargeInstance meter.old (LineUnit (entries_in store.now entries.now) (0 ∷ [])) }
{
    let path = [0];
    let unit = InstanceUnit::TreeLine {
        entries,
        path: &path,
    };
    let charge = meter.instance(store, &unit);
    say_charge(out, &charge);
}

// A list that has two variables.
fn variables(alloc: Global, out: &mut Answer, meter: &mut Meter, limits: Limits) -> Option<()>
    requires limits { AreLimits (limits_of limits) }
{
    let board = wide(alloc)?;
    meter.start(&board.store, &board.problem, limits).ok()?;
    if limits.variables == 1 {
        let list = [board.top];
        let spent = meter.variables(&board.store, &list);
        say_charge(out, &Err(spent));
    }
    Some(())
}
