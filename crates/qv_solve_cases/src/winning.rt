//! Games, as they are printed.

use qv_cases_rows::Answer;
use qv_cases_terms::{say_term, say_terms, say_word};
use qv_entries::{Entries, Entry};
use qv_game::{PlayFault, Won};
use qv_meter::{Meter, SpentKind};
use qv_store::{Quant, Store};
use qv_words::Word;
use std::alloc::Global;

/// Says who has won, or what is spent.
pub fn say_result(out: &mut Answer, played: &Result<Won, PlayFault>) {
    match played {
        Ok(won) => out.say(player(won.winner)),
        Err(PlayFault::Spent(kind)) => say_spent(out, *kind),
        Err(PlayFault::NoMemory) => out.refuse(),
    }
}

fn player(quantifier: Quant) -> &'static str {
    match quantifier {
        Quant::Exists => "Exists",
        Quant::Forall => "Forall",
    }
}

fn say_spent(out: &mut Answer, kind: SpentKind) {
    match kind {
        SpentKind::Conflicts => out.say("spent conflicts"),
        SpentKind::Instances => out.say("spent instances"),
        SpentKind::Variables => out.say("spent variables"),
    }
}

/// Says how much the newest record counts.
pub fn say_counts(out: &mut Answer, meter: &Meter) {
    if let Some(record) = meter.newest() {
        out.say(", instances ");
        out.show(record.instances);
        out.say(", conflicts ");
        out.show(record.conflicts);
    }
}

/// Says each entry.
pub fn say_entries(alloc: Global, out: &mut Answer, store: &Store, entries: &Entries) {
    for number in 0..entries.len() {
        say_entry(alloc, out, store, entries.entry(number));
    }
}

// ` | LEVEL WINNER / REGION / POINT / TERMS / LINKS`
fn say_entry(alloc: Global, out: &mut Answer, store: &Store, entry: &Entry) {
    out.say(" | ");
    out.show(entry.level);
    out.put(' ');
    out.say(player(entry.winner));
    out.say(" / ");
    say_term(alloc, out, store, entry.region);
    out.say(" / ");
    say_point(out, &entry.point);
    out.say(" / ");
    say_terms(alloc, out, store, &entry.terms);
    out.say(" / ");
    say_links(out, &entry.links);
}

fn say_point(out: &mut Answer, point: &[Word]) {
    for word in point {
        say_word(out, *word);
        out.put(' ');
    }
}

fn say_links(out: &mut Answer, links: &[u64]) {
    for link in links {
        out.show(*link);
        out.put(' ');
    }
}
