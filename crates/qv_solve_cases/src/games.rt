//! Who wins the game of what a script checks, and by which entries.

ghost use Rattle.qv_store.specs.Problems.{IsPosedIn};
ghost use Rattle.qv_meter.specs.Records.{AreLimits};
ghost use Rattle.qv_meter.specs.Views.{limits_of};

use crate::covering::say_cover;
use crate::limits::{are_limits, read_limits};
use crate::scripts::checked;
use crate::winning::{say_counts, say_entries, say_result};
use qv_cases_rows::{Answer, Words};
use qv_cases_terms::may_be_posed;
use qv_game::{PlayFault, Won, play};
use qv_meter::{Limits, Meter};
use qv_prenex::{PrenexFault, prenex};
use qv_store::{Problem, Store};
use std::alloc::Global;

// What is said of a game: who wins it, the counts of its record too, or each entry besides.
#[derive(Clone, Copy)]
enum Detail {
    Winner,
    Counts,
    Entries,
}

const CALLS: [(&str, Detail); 3] = [
    ("play", Detail::Winner),
    ("count", Detail::Counts),
    ("entries", Detail::Entries),
];

/// `play LIMITS SCRIPT` follows the script up to its first check, and names the player that wins the
/// game of what is checked there, or what was spent of these limits. `count` says how many instances
/// and conflicts were charged too, and `entries` each entry besides, as ` | LEVEL WINNER / REGION /
/// POINT / TERMS / LINKS`, and last the winner's regions of level 1 and which entry's holds there, as
/// ` | cover REGIONS by NUMBER`. A script that is refused, or has no check, is no case.
pub fn say_games(alloc: Global, words: &mut Words<'_>, out: &mut Answer) {
    match words.pick(&CALLS) {
        Some(detail) => answer_game(alloc, words, out, *detail),
        None => out.refuse(),
    }
}

fn answer_game(alloc: Global, words: &mut Words<'_>, out: &mut Answer, detail: Detail) {
    let limits = read_limits(words);
    let mut store = Store::new(alloc);
    if say_game(alloc, out, &mut store, limits, detail, words.rest()).is_none() {
        out.refuse();
    }
}

// What comes of the game of a script's first check.
fn say_game(
    alloc: Global,
    out: &mut Answer,
    store: &mut Store,
    limits: Limits,
    detail: Detail,
    text: &str,
) -> Option<()> {
    let asked = checked(alloc, store, text)?;
    if !are_limits(limits) {
        return None;
    }
    if !may_be_posed(alloc, store, &asked.sorts, &asked.formulas)? {
        return None;
    }
    match prenex(alloc, store, &asked.formulas, 4_096) {
        Ok(problem) => say_played(alloc, out, store, &problem, limits, detail),
        Err(PrenexFault::PrefixLimit) => out.say("prefix limit"),
        Err(PrenexFault::NoMemory) => out.refuse(),
    }
    Some(())
}

fn say_played(
    alloc: Global,
    out: &mut Answer,
    store: &mut Store,
    problem: &Problem,
    limits: Limits,
    detail: Detail,
)
    requires posed { IsPosedIn store.old problem.now }
    requires limits { AreLimits (limits_of limits) }
{
    let mut meter = Meter::new(alloc);
    match meter.start(store, problem, limits) {
        Ok(()) => {
            let played = play(alloc, store, problem, &mut meter);
            say_result(out, &played);
            say_details(alloc, out, store, &meter, &played, detail);
        }
        Err(_) => out.refuse(),
    }
}

fn say_details(
    alloc: Global,
    out: &mut Answer,
    store: &Store,
    meter: &Meter,
    played: &Result<Won, PlayFault>,
    detail: Detail,
) {
    match detail {
        Detail::Winner => {}
        Detail::Counts => say_counts(out, meter),
        Detail::Entries => {
            say_counts(out, meter);
            if let Ok(won) = played {
                say_entries(alloc, out, store, &won.entries);
                say_cover(alloc, out, store, won);
            }
        }
    }
}
