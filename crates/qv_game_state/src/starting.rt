//! The start of a game.

ghost use Rattle.std.specs.Prelude.{◌≡◌, ◌≢◌, ◌+◌, ◌<◌, ◌≤◌, ◌^◌, [], All, IfOk, IsSomeAnd, List, length};
ghost use Rattle.std.specs.Prelude.{map, OnOk, ℕ};
ghost use Rattle.qv_words.specs.Sort.{IsLawful};
ghost use Rattle.qv_words.specs.Tree.{Tree, Variable};
ghost use Rattle.qv_store.specs.Problems.{problem_in, quantifier_of, IsPosedIn};
ghost use Rattle.qv_store.specs.Stores.{AreShared, Grows, StandsAt};
ghost use Rattle.qv_store.specs.Walks.{named};
ghost use Rattle.qv_game_entry_laws.specs.PointLaws.{places_from};
ghost use Rattle.qv_game_state.specs.Counts.{SameButCounts};
ghost use Rattle.qv_game_state.specs.Faults.{IsSpentWhere};
ghost use Rattle.qv_game_state.specs.Playing.{IsGame};
ghost use Rattle.qv_game_state.specs.Spans.{span_of};
ghost use Rattle.qv_game_state.specs.Starting.{AreNew, IsLastFormula, IsNew, IsUncharged};

use crate::game::Game;
use crate::players::opponent;
use crate::query::Query;
use crate::regions::put_last;
use crate::spans::{Span, spans_of};
use qv_entries::Entries;
use qv_game_lanes::Lane;
use qv_meter::{Meter, PlayFault};
use qv_rewrite_lists::rewrite;
use qv_store::{Id, NoMemory, Node, Place, Problem, Quant, Store};
use qv_words::Sort;
use std::alloc::{AllocError, Global};

/// A game without entries, of a problem with places to which nothing was charged.
pub fn start(
    alloc: Global,
    store: &mut Store,
    problem: &Problem,
    meter: &mut Meter,
) -> Result<Game, PlayFault>
    requires posed { IsPosedIn store.old problem.now }
    requires some { problem.now.prefix.items ≢ [] }
    requires record { IsUncharged (problem_in store.old problem.now) meter.old }
    ensures game { IfOk result (λ game. (limit : ℕ)
        × IsGame store.new (problem_in store.old problem.now) limit game meter.new) }
    ensures none { IfOk result (λ game. game.entries ≡ []) }
    ensures grows { Grows store.old store.new }
    ensures counts { SameButCounts meter.old meter.new }
    ensures spent { IsSpentWhere result meter.new }
{
    // What every meter keeps.
    let _record = meter.newest();
    let places = put_places(alloc, store, &problem.prefix)?;
    let spans = spans_of(alloc, &problem.prefix)?;
    let mut queries = new_queries(alloc, &spans, variable_limit(meter))?;
    let behind = spans.len() - 1;
    let last = put_rewritten(alloc, store, problem, spans[behind].owner)?;
    queries[behind].deny(store, last, meter)?;
    Ok(Game {
        spans,
        places,
        entries: Entries::new(alloc),
        queries,
    })
}

// A player's region behind the last block, behind the passes that pay.
fn put_rewritten(
    alloc: Global,
    store: &mut Store,
    problem: &Problem,
    owner: Quant,
) -> Result<Id, NoMemory>
    requires { IsPosedIn store.old problem.now }
    ensures last { IfOk result (IsLastFormula store.new (problem_in store.old problem.now)
        (quantifier_of owner)) }
    ensures grows { Grows store.old store.new }
    ensures shared { OnOk result (AreShared store.new) }
{
    let last = put_last(alloc, store, problem, owner)?;
    let mut list = Vec::new(alloc);
    list.push(last)?;
    let rewritten = rewrite(alloc, store, list)?;
    // What every store keeps.
    let _few = store.len();
    Ok(rewritten.list[0])
}

// The greatest variable that the newest record allows.
fn variable_limit(meter: &Meter) -> u32
    requires { IsSomeAnd meter.now.newest (λ r. Unit {0}) }
    ensures limit { IsSomeAnd meter.now.newest (λ r. r.limits.variables ≡ result) }
    ensures some { 1 ≤ result }
    ensures most { result ≤ 2 ^ 30 }
{
    match meter.newest() {
        Some(record) => record.limits.variables,
        None => unreachable!(),
    }
}

// The variables of all places.
fn put_places(alloc: Global, store: &mut Store, prefix: &[Place]) -> Result<Vec<Id>, NoMemory>
    requires { All (λ place. IsLawful place.sort) prefix.now }
    ensures below { IfOk result (λ ids. All (λ n. n < length store.new) ids.items) }
    ensures places { IfOk result (λ ids. named store.new ids.items
        ≡ places_from 0 (map (λ place. place.sort) prefix.now)) }
    ensures grows { Grows store.old store.new }
{
    let mut ids = Vec::with_capacity(alloc, prefix.len())?;
    'places: for (level, place) in prefix.iter().enumerate() {
        ids.push(put_place(store, level as u64, place.sort)?)?;
    }
    Ok(ids)
}

// The variable of a place.
fn put_place(store: &mut Store, level: u64, sort: Sort) -> Result<Id, NoMemory>
    requires { IsLawful sort }
    ensures id { IfOk result (λ id. StandsAt store.new id (Variable level sort)) }
    ensures grows { Grows store.old store.new }
{
    store.put(Node::Var { level, sort })
}

// For each block the query about the other player's regions at the next level, so far without
// formulas.
fn new_queries(alloc: Global, spans: &[Span], limit: u32) -> Result<Vec<Query>, AllocError>
    requires some { 1 ≤ limit }
    requires most { limit ≤ 2 ^ 30 }
    ensures { IfOk result (λ queries. (trees : List Tree) → AreShared trees →
        AreNew trees limit (map span_of spans.now) queries.items) }
{
    let mut queries = Vec::with_capacity(alloc, spans.len())?;
    'spans: for span in spans {
        queries.push(new_query(alloc, opponent(span.owner), limit)?)?;
    }
    Ok(queries)
}

// A query without formulas.
fn new_query(alloc: Global, winner: Quant, limit: u32) -> Result<Query, AllocError>
    requires some { 1 ≤ limit }
    requires most { limit ≤ 2 ^ 30 }
    ensures { IfOk result (λ q. (trees : List Tree) → AreShared trees → IsNew trees limit winner q) }
{
    Ok(Query {
        winner,
        list: Vec::new(alloc),
        lane: Lane::new(alloc, limit)?,
    })
}
