//! Problems, as they are printed.

use qv_cases_rows::Answer;
use qv_cases_terms::{say_sort, say_term};
use qv_store::{Place, Problem, Quant, Store};
use std::alloc::Global;

/// Says how many places and blocks there are.
pub fn say_counts(out: &mut Answer, problem: &Problem) {
    out.show(problem.prefix.len());
    out.put(' ');
    out.show(problem.block_count());
}

/// Says the places, the indices of the constants, and the matrix.
pub fn say_problem(alloc: Global, out: &mut Answer, store: &Store, problem: &Problem) {
    for place in &problem.prefix {
        say_place(out, *place);
    }
    out.put('/');
    for index in &problem.constants {
        out.show(*index);
        out.put(' ');
    }
    out.say("/ ");
    say_term(alloc, out, store, problem.matrix);
}

// A place, with a blank behind.
fn say_place(out: &mut Answer, place: Place) {
    match place.quant {
        Quant::Exists => out.say("Exists:"),
        Quant::Forall => out.say("Forall:"),
    }
    say_sort(out, place.sort);
    out.put(' ');
}
