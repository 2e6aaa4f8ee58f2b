//! What is said of a closure.

use qv_cases_rows::Answer;
use qv_cnf::{Lit, Step};
use qv_gates::Closure;

/// Whether the clauses are refuted, what stands for the variables, each clause behind the given
/// ones with its hints, and the ids of those that are to be searched.
pub(crate) fn say_found(closure: &Closure, variables: u32, given: usize, out: &mut Answer) {
    out.say(if closure.is_refuted() {
        "refuted"
    } else {
        "open"
    });
    for variable in 1..=variables {
        if let Some(lit) = closure.stands_for(variable) {
            out.put(' ');
            out.show(variable);
            out.put('=');
            out.show(lit.number());
        }
    }
    for step in closure.steps() {
        say_step(step, out);
    }
    out.say("; kept");
    for id in closure.kept() {
        out.put(' ');
        out.show(*id);
    }
    out.say("; of ");
    out.show(given as u64);
}

// `; LITERALS 0 HINTS`, of a clause under the next id
fn say_step(step: &Step, out: &mut Answer) {
    if let Step::Add { lits, hints, .. } = step {
        out.say("; ");
        for lit in lits {
            out.show(lit.number());
            out.put(' ');
        }
        out.put('0');
        for hint in hints {
            out.put(' ');
            out.show(*hint);
        }
    }
}

/// How many variables have another literal that stands for them, and how many different ones there
/// are among these.
pub(crate) fn say_equal(closure: &Closure, variables: u32, out: &mut Answer) {
    let mut count = 0u32;
    let mut last: Option<Lit> = None;
    let mut changes = 0u32;
    for variable in 1..=variables {
        let now = closure.stands_for(variable);
        if now.is_some() {
            count = count.wrapping_add(1);
            if now != last {
                changes = changes.wrapping_add(1);
            }
            last = now;
        }
    }
    out.show(count);
    out.put(' ');
    out.show(changes);
}
