//! The answer to a case.

ghost use Rattle.std.specs.Prelude.{All, IfOk};
ghost use Rattle.qv_cert.specs.Line.{IsCertLine};
ghost use Rattle.qv_solve.specs.Solutions.{lines_of};

use crate::asking::{AMPLE, Asked, solved};
use crate::games::say_games;
use crate::limits::read_limits;
use crate::meters::say_calls;
use crate::offers::say_offered;
use crate::saying::{say_charged, say_constants, say_lines, say_solved, say_values};
use crate::sharing::say_shared;
use qv_cases_rows::{Answer, Cases, Words};
use qv_cases_terms::{sorts, terms};
use qv_meter::{Limits, Meter};
use qv_solve::{SolveFault, Solved};
use qv_store::{Id, Store};
use qv_words::Sort;
use std::alloc::Global;

/// The cases have no state.
#[derive(Clone, Copy)]
pub struct SolveCases {
    pub alloc: Global,
}

// What is said of a check besides.
#[derive(Clone, Copy)]
enum Detail {
    Nothing,
    Values,
    Counts,
    Lines,
}

enum Call {
    One(Detail),
    Each,
    Checks,
    Game,
    Meter,
    Offer,
    Shared,
}

static CALLS: [(&str, Call); 10] = [
    ("solve", Call::One(Detail::Nothing)),
    ("values", Call::One(Detail::Values)),
    ("count", Call::One(Detail::Counts)),
    ("text", Call::One(Detail::Lines)),
    ("each", Call::Each),
    ("checks", Call::Checks),
    ("game", Call::Game),
    ("meter", Call::Meter),
    ("offer", Call::Offer),
    ("shared", Call::Shared),
];

impl Cases for SolveCases {
    fn answer(&mut self, words: &mut Words<'_>, out: &mut Answer) {
        match words.pick(&CALLS) {
            Some(Call::One(detail)) => say_one(self.alloc, words, out, *detail),
            Some(Call::Each) => say_each(self.alloc, words, out),
            Some(Call::Checks) => say_checks(self.alloc, words, out),
            Some(Call::Game) => say_games(self.alloc, words, out),
            Some(Call::Meter) => say_calls(self.alloc, words, out),
            Some(Call::Offer) => say_offered(self.alloc, words, out),
            Some(Call::Shared) => say_shared(self.alloc, words, out),
            None => out.refuse(),
        }
    }
}

// `NUMBER LIMITS SORTS/TERMS`
fn say_one(alloc: Global, words: &mut Words<'_>, out: &mut Answer, detail: Detail) {
    let number = words.number::<u64>();
    let limits = read_limits(words);
    let (items, formulas) = halves(words.rest(), out);
    match sorts(alloc, items) {
        Some(sorts) => {
            let asked = Asked {
                sorts: &sorts,
                formulas,
                number,
                limits,
            };
            say_alone(alloc, out, asked, detail);
        }
        None => out.refuse(),
    }
}

// What stands on either side of the slash.
fn halves<'a>(text: &'a str, out: &mut Answer) -> (&'a str, &'a str) {
    match text.split_once('/') {
        Some(found) => found,
        None => {
            out.refuse();
            ("", "")
        }
    }
}

// A check over a store and a meter of its own.
fn say_alone(alloc: Global, out: &mut Answer, asked: Asked<'_>, detail: Detail) {
    let mut store = Store::new(alloc);
    match terms(alloc, &mut store, asked.formulas) {
        Some(ids) => say_metered(alloc, out, &mut store, asked, &ids, detail),
        None => out.refuse(),
    }
}

fn say_metered(
    alloc: Global,
    out: &mut Answer,
    store: &mut Store,
    asked: Asked<'_>,
    ids: &[Id],
    detail: Detail,
) {
    let mut meter = Meter::new(alloc);
    say_check(alloc, out, store, &mut meter, asked, ids, detail);
}

fn say_check(
    alloc: Global,
    out: &mut Answer,
    store: &mut Store,
    meter: &mut Meter,
    asked: Asked<'_>,
    ids: &[Id],
    detail: Detail,
) {
    match solved(alloc, store, meter, asked, ids) {
        Some(solved) => say_answer(alloc, out, meter, asked, &solved, detail),
        None => out.refuse(),
    }
}

fn say_answer(
    alloc: Global,
    out: &mut Answer,
    meter: &Meter,
    asked: Asked<'_>,
    solved: &Result<Solved, SolveFault>,
    detail: Detail,
)
    requires { IfOk solved.now (λ s. All IsCertLine (lines_of s)) }
{
    say_solved(alloc, out, asked, solved);
    say_constants(alloc, out, asked, solved);
    match detail {
        Detail::Nothing => {}
        Detail::Values => say_values(out, solved),
        Detail::Counts => say_charged(out, meter),
        Detail::Lines => say_lines(alloc, out, solved),
    }
}

#[derive(Clone, Copy)]
enum Kind {
    Conflicts,
    Instances,
    Variables,
}

const KINDS: [(&str, Kind); 3] = [
    ("conflicts", Kind::Conflicts),
    ("instances", Kind::Instances),
    ("variables", Kind::Variables),
];

// Limits that are ample but for one.
fn limits_with(kind: Kind, limit: u32) -> Limits {
    let mut limits = AMPLE;
    match kind {
        Kind::Conflicts => limits.conflicts = u64::from(limit),
        Kind::Instances => limits.instances = u64::from(limit),
        Kind::Variables => limits.variables = limit,
    }
    limits
}

// `KIND MOST SORTS/TERMS`
fn say_each(alloc: Global, words: &mut Words<'_>, out: &mut Answer) {
    let kind = words.pick(&KINDS).copied().unwrap_or(Kind::Conflicts);
    let most = words.number::<u32>();
    let (items, formulas) = halves(words.rest(), out);
    match sorts(alloc, items) {
        Some(sorts) => {
            let asked = Asked {
                sorts: &sorts,
                formulas,
                number: 1,
                limits: AMPLE,
            };
            say_limits(alloc, out, asked, kind, most);
        }
        None => out.refuse(),
    }
}

fn say_limits(alloc: Global, out: &mut Answer, asked: Asked<'_>, kind: Kind, most: u32) {
    let mut before = String::new(alloc);
    for limit in 1..=most {
        let limited = Asked {
            limits: limits_with(kind, limit),
            ..asked
        };
        let gap = if limit > 1 { "; " } else { "" };
        say_limited(alloc, out, limited, gap, &mut before);
    }
}

fn say_limited(alloc: Global, out: &mut Answer, asked: Asked<'_>, gap: &str, before: &mut String) {
    match text_alone(alloc, asked) {
        Some(text) => say_changed(out, gap, text, before),
        None => out.refuse(),
    }
}

// Says a text if it isn't the one before, in whose place it comes.
fn say_changed(out: &mut Answer, gap: &str, text: String, before: &mut String) {
    if text.as_str() != before.as_str() {
        out.say(gap);
        out.say(text.as_str());
    }
    *before = text;
}

// What is said of a check over a store and a meter of its own.
fn text_alone(alloc: Global, asked: Asked<'_>) -> Option<String> {
    let mut said = Answer::new(alloc);
    say_alone(alloc, &mut said, asked, Detail::Nothing);
    said.line(alloc, true).ok()
}

// `SORTS/LIMITS TERMS|LIMITS TERMS|..`
fn say_checks(alloc: Global, words: &mut Words<'_>, out: &mut Answer) {
    let (items, parts) = halves(words.rest(), out);
    match sorts(alloc, items) {
        Some(sorts) => say_parts(alloc, out, &sorts, parts),
        None => out.refuse(),
    }
}

// All terms are read first, since the places of a problem that is solved are variables of the
// store, whose sorts stand against those of quantifiers.
fn say_parts(alloc: Global, out: &mut Answer, sorts: &[Sort], parts: &str) {
    let mut store = Store::new(alloc);
    say_parts_over(alloc, out, sorts, parts, &mut store);
}

fn say_parts_over(alloc: Global, out: &mut Answer, sorts: &[Sort], parts: &str, store: &mut Store) {
    let mut lists = Vec::new(alloc);
    read_parts(alloc, out, store, parts, &mut lists);
    say_metered_parts(alloc, out, sorts, parts, store, &lists);
}

// Adds the terms of each part.
fn read_parts(
    alloc: Global,
    out: &mut Answer,
    store: &mut Store,
    parts: &str,
    lists: &mut Vec<Vec<Id>>,
) {
    for part in parts.split('|') {
        if !read_part(alloc, store, part, lists) {
            out.refuse();
        }
    }
}

fn read_part(alloc: Global, store: &mut Store, part: &str, lists: &mut Vec<Vec<Id>>) -> bool {
    let mut words = Words::new(part);
    let _limits = read_limits(&mut words);
    match terms(alloc, store, words.rest()) {
        Some(ids) => lists.push(ids).is_ok(),
        None => false,
    }
}

fn say_metered_parts(
    alloc: Global,
    out: &mut Answer,
    sorts: &[Sort],
    parts: &str,
    store: &mut Store,
    lists: &[Vec<Id>],
) {
    let mut meter = Meter::new(alloc);
    say_each_part(alloc, out, sorts, parts, store, &mut meter, lists);
}

fn say_each_part(
    alloc: Global,
    out: &mut Answer,
    sorts: &[Sort],
    parts: &str,
    store: &mut Store,
    meter: &mut Meter,
    lists: &[Vec<Id>],
) {
    let mut number: u64 = 0;
    for (part, ids) in parts.split('|').zip(lists.iter()) {
        number = number.wrapping_add(1);
        out.say(if number > 1 { "; " } else { "" });
        let asked = asked_of(out, sorts, part, number);
        say_check(alloc, out, store, meter, asked, ids, Detail::Nothing);
    }
}

// What a part asks.
fn asked_of<'a>(out: &mut Answer, sorts: &'a [Sort], part: &'a str, number: u64) -> Asked<'a> {
    let mut words = Words::new(part);
    let limits = read_limits(&mut words);
    if !words.are_read() {
        out.refuse();
    }
    Asked {
        sorts,
        formulas: words.rest(),
        number,
        limits,
    }
}
