//! Records, as they are printed.

use qv_cases_rows::Answer;
use qv_cnf::Spent;
use qv_meter::{Meter, Record};

/// Says whether a unit was charged.
pub fn say_charge(out: &mut Answer, charge: &Result<(), Spent>) {
    match charge {
        Ok(()) => out.say("charged, "),
        Err(_) => out.say("spent, "),
    }
}

/// Says what each record counts, the oldest first.
pub fn say_records(out: &mut Answer, meter: &Meter) {
    for record in meter.older() {
        say_record(out, record);
        out.say(" | ");
    }
    if let Some(record) = meter.newest() {
        say_record(out, record);
    }
}

// `conflicts C of LIMIT, instances I of LIMIT, variables to LIMIT, tallies ..`
fn say_record(out: &mut Answer, record: &Record) {
    out.say("conflicts ");
    out.show(record.conflicts);
    out.say(" of ");
    out.show(record.limits.conflicts);
    out.say(", instances ");
    out.show(record.instances);
    out.say(" of ");
    out.show(record.limits.instances);
    out.say(if record.over {
        ", variables over "
    } else {
        ", variables to "
    });
    out.show(record.limits.variables);
    match &record.problem {
        Some(kept) => {
            out.say(", tallies");
            for tally in &kept.tallies {
                out.put(' ');
                out.show(*tally);
            }
        }
        None => out.say(", given up"),
    }
}
