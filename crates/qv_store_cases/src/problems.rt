//! What the calls of a problem answer.

use crate::saying::say_number;
use qv_cases_rows::Answer;
use qv_cases_terms::{say_sort, sort, term};
use qv_store::{Place, Problem, Quant, Store};
use std::alloc::Global;

/// `problem PLACES/NUMBERS/TERM`: how many blocks there are, the block of each place, and the parts
/// of a copy
pub fn problem_row(alloc: Global, out: &mut Answer, store: &mut Store, case: &str) {
    match read_problem(alloc, store, case) {
        Some(problem) => say_problem(out, &problem),
        None => out.refuse(),
    }
}

fn read_problem(alloc: Global, store: &mut Store, case: &str) -> Option<Problem> {
    let (prefix, behind) = case.split_once('/')?;
    let (constants, text) = behind.split_once('/')?;
    let matrix = term(alloc, store, text)?;
    let prefix = places(alloc, prefix)?;
    let constants = numbers(alloc, constants)?;
    Some(Problem {
        prefix,
        constants,
        matrix,
    })
}

// Numbers, with blanks between them.
fn numbers(alloc: Global, text: &str) -> Option<Vec<u64>> {
    let mut numbers = Vec::new(alloc);
    for item in text.split_whitespace() {
        numbers.push(item.parse::<u64>().ok()?).ok()?;
    }
    Some(numbers)
}

// Places, with blanks between them.
fn places(alloc: Global, text: &str) -> Option<Vec<Place>> {
    let mut places = Vec::new(alloc);
    for item in text.split_whitespace() {
        places.push(place(item)?).ok()?;
    }
    Some(places)
}

// A place: `Exists:8`.
fn place(text: &str) -> Option<Place> {
    let (player, of) = text.split_once(':')?;
    let sort = sort(of)?;
    let quant = match player {
        "Exists" => Quant::Exists,
        "Forall" => Quant::Forall,
        _ => return None,
    };
    Some(Place { quant, sort })
}

fn say_problem(out: &mut Answer, problem: &Problem) {
    say_number(out, '=', problem.block_count());
    for place in 0..problem.prefix.len() {
        say_number(out, ' ', problem.block_of(place as u64));
    }
    match problem.copy() {
        Ok(copied) => say_parts(out, &copied),
        Err(_) => out.refuse(),
    }
}

fn say_parts(out: &mut Answer, problem: &Problem) {
    for place in &problem.prefix {
        say_place(out, *place);
    }
    for index in &problem.constants {
        say_number(out, ' ', *index);
    }
    say_number(out, '#', problem.matrix.number());
}

// A place, with a blank before it.
fn say_place(out: &mut Answer, place: Place) {
    out.say(match place.quant {
        Quant::Exists => " Exists:",
        Quant::Forall => " Forall:",
    });
    say_sort(out, place.sort);
}
