//! What `prenex` makes of asserted formulas.

use crate::problems;
use qv_cases_rows::{Answer, Words};
use qv_cases_terms::{may_be_posed, sorts, terms};
use qv_prenex::{PrenexFault, prenex};
use qv_store::{Problem, Store};
use std::alloc::Global;

// The limit of the cases that give none.
const USUAL: u32 = 4_096;

/// What is said of a problem: the whole, or how many places and blocks it has, also under a limit of
/// places.
#[derive(Clone, Copy)]
pub enum Part {
    Whole,
    Counts,
    Within,
}

/// Says the problem that is made of formulas.
pub fn say_posed(
    alloc: Global,
    part: Part,
    store: &mut Store,
    words: &mut Words<'_>,
    out: &mut Answer,
) {
    let (is_whole, places) = match part {
        Part::Whole => (true, USUAL),
        Part::Counts => (false, USUAL),
        Part::Within => (false, words.number()),
    };
    let said = say_problem(alloc, out, store, is_whole, places, words.rest());
    if said.is_none() {
        out.refuse();
    }
}

// The problem of a case, `SORTS/TERMS`, or how many places and blocks it has. The sorts are those
// of the constants.
fn say_problem(
    alloc: Global,
    out: &mut Answer,
    store: &mut Store,
    is_whole: bool,
    places: u32,
    case: &str,
) -> Option<()> {
    let (items, text) = case.split_once('/')?;
    let sorts = sorts(alloc, items)?;
    let ids = terms(alloc, store, text)?;
    if !may_be_posed(alloc, store, &sorts, &ids)? {
        return None;
    }
    match prenex(alloc, store, &ids, places) {
        Ok(problem) => show(alloc, out, store, &problem, is_whole),
        Err(PrenexFault::PrefixLimit) => out.say("prefix limit"),
        Err(PrenexFault::NoMemory) => out.refuse(),
    }
    Some(())
}

fn show(alloc: Global, out: &mut Answer, store: &Store, problem: &Problem, is_whole: bool) {
    if is_whole {
        problems::say_problem(alloc, out, store, problem);
    } else {
        problems::say_counts(out, problem);
    }
}
