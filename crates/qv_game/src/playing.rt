//! Play.

ghost use Rattle.std.specs.Prelude.{◌≡◌, ◌≢◌, ◌∷◌, [], All, Err, IfOk, None, OnErr, Some, length, ℕ};
ghost use Rattle.qv_words.specs.Problem.{Problem as PlainProblem};
ghost use Rattle.qv_words.specs.GameLaws.{HasWon};
ghost use Rattle.qv_cnf.specs.LratLine.{lines_of};
ghost use Rattle.qv_store.specs.Problems.{problem_in, quantifier_of, IsPosedIn};
ghost use Rattle.qv_store.specs.Stores.{Grows};
ghost use Rattle.qv_entries.specs.Rows.{entries_in, IsRowIn};
ghost use Rattle.qv_meter.specs.Played.{IsPlayed};
ghost use Rattle.qv_game_state.specs.declared.query.Query.{Query as QuerySpec};
ghost use Rattle.qv_game_state.specs.Counts.{SameButCounts};
ghost use Rattle.qv_game_state.specs.Faults.{IsSpentWhere};
ghost use Rattle.qv_game_state.specs.Playing.{IsPlaying};
ghost use Rattle.qv_game_state.specs.Starting.{HasCharged, IsUncharged};
ghost use Rattle.qv_game.specs.Played.{steps_in, HasKept};
ghost use Rattle.qv_game.specs.Queries.{has_only, only_lane};
ghost use Rattle.qv_game.specs.WholeGames.{IsOver, IsWonBy, MayPlay};
ghost use Rattle.qv_game.specs.Offered.{WinsAt};

use crate::fault::PlayFault;
use crate::offering::{win_at, wins_at};
use qv_cnf::Step;
use qv_entries::Entries;
use qv_game_lanes::Lane;
use qv_game_state::{Game, Query, is_same, start};
use qv_game_turns::{Spot, Turn, next_turn};
use qv_meter::Meter;
use qv_store::{Problem, Quant, Store};
use qv_words::Word;
use std::alloc::{AllocError, Global};

// Of so many blocks at least.
const FEWEST: usize = 3;

/// The winner of a game, and the entries by which it wins.
#[derive(Drop)]
pub struct Won {
    pub winner: Quant,
    pub entries: Entries,
}

/// A game that was won, and the lane that has refuted its only query, if that is how it ended.
#[derive(Drop)]
pub struct Played {
    pub won: Won,
    lane: Option<Lane>,
}

impl Played {
    /// Copies of the steps of the lane; none where there is no lane.
    pub fn steps(&self, alloc: Global) -> Result<Vec<Step>, AllocError>
        ensures { IfOk result (λ steps. lines_of steps.items ≡ steps_in self.now) }
    {
        match &self.lane {
            Some(lane) => lane.copied_steps(),
            None => Ok(Vec::new(alloc)),
        }
    }
}

/// Plays the game of the meter's newest problem, to which nothing was charged, until a player holds
/// level 1; without places the matrix decides. The store keeps what is put.
pub fn play(
    alloc: Global,
    store: &mut Store,
    problem: &Problem,
    meter: &mut Meter,
) -> Result<Won, PlayFault>
    requires posed { IsPosedIn store.old problem.now }
    requires record { IsUncharged (problem_in store.old problem.now) meter.old }

    // The entries are linked and fresh, and their winner has won by them.
    ensures played { IfOk result (λ won. IsPlayed (problem_in store.old problem.now)
        (entries_in store.new won.entries)) }
    ensures won { IfOk result (λ won. HasWon (problem_in store.old problem.now)
        (quantifier_of won.winner) (entries_in store.new won.entries)) }
    ensures rows { IfOk result (λ won. All (IsRowIn store.new) won.entries) }

    // The record counts as many instances as there are entries, and no conflict of a final list.
    ensures charged { IfOk result (λ won. HasCharged (problem_in store.old problem.now)
        (length won.entries) meter.new) }

    // Whatever the answer is, nothing else has changed in the meter.
    ensures counts { SameButCounts meter.old meter.new }
    ensures spent { IsSpentWhere result meter.new }
    ensures grows { Grows store.old store.new }
{
    let played = play_noting(alloc, store, problem, &[], meter)?;
    Ok(won_of(played))
}

// What was won.
fn won_of(played: Played) -> Won
    ensures { result ≡ played.won }
{
    let Played { won, lane } = played;
    drop(lane);
    won
}

/// Plays as `play` does, and keeps the lane that has refuted the only query of a game, if that is
/// how it ended. Where the only block is the existential player's, and words that are offered make
/// the matrix true at its places, this player wins by them at once.
pub fn play_noting(
    alloc: Global,
    store: &mut Store,
    problem: &Problem,
    offered: &[Word],
    meter: &mut Meter,
) -> Result<Played, PlayFault>
    requires posed { IsPosedIn store.old problem.now }
    requires record { IsUncharged (problem_in store.old problem.now) meter.old }

    // The entries are linked and fresh, and their winner has won by them.
    ensures played { IfOk result (λ played. IsPlayed (problem_in store.old problem.now)
        (entries_in store.new played.won.entries)) }
    ensures won { IfOk result (λ played. HasWon (problem_in store.old problem.now)
        (quantifier_of played.won.winner) (entries_in store.new played.won.entries)) }
    ensures rows { IfOk result (λ played. All (IsRowIn store.new) played.won.entries) }

    // The record counts as many instances as there are entries, and no conflict of a final list.
    ensures charged { IfOk result (λ played. HasCharged (problem_in store.old problem.now)
        (length played.won.entries) meter.new) }

    // Where the only query is about the winner its lane is kept, and else none.
    ensures kept { IfOk result (HasKept store.new (problem_in store.old problem.now) meter.new) }

    // Whatever the answer is, nothing else has changed in the meter.
    ensures counts { SameButCounts meter.old meter.new }
    ensures spent { IsSpentWhere result meter.new }
    ensures grows { Grows store.old store.new }
{
    // What every meter keeps.
    let _record = meter.newest();
    if problem.prefix.is_empty() {
        return decide(alloc, store, problem);
    }
    if wins_at(store, problem, offered)? {
        return play_offered(alloc, store, problem, offered, meter);
    }
    let mut game = start(alloc, store, problem, meter)?;
    let winner = take_turns(&mut game, alloc, store, problem, meter)?;
    Ok(played_of(game, winner))
}

// The game that the existential player wins by the words that are offered.
fn play_offered(
    alloc: Global,
    store: &mut Store,
    problem: &Problem,
    offered: &[Word],
    meter: &mut Meter,
) -> Result<Played, PlayFault>
    requires posed { IsPosedIn store.old problem.now }
    requires some { problem.now.prefix.items ≢ [] }
    requires record { IsUncharged (problem_in store.old problem.now) meter.old }
    requires wins { WinsAt (problem_in store.old problem.now) offered.now }
    ensures won { IfOk result (λ played.
        IsWonBy store.new (problem_in store.old problem.now) played meter.new) }
    ensures counts { SameButCounts meter.old meter.new }
    ensures spent { IsSpentWhere result meter.new }
    ensures grows { Grows store.old store.new }
{
    let entries = win_at(alloc, store, problem, offered, meter)?;
    Ok(Played {
        won: Won {
            winner: Quant::Exists,
            entries,
        },
        lane: None,
    })
}

// What is kept of a game that this player has won.
fn played_of(game: Game, winner: Quant) -> Played
    ensures winner { result.won.winner ≡ winner }
    ensures entries { result.won.entries ≡ game.entries }
    ensures lane { result.lane ≡ only_lane game.queries.items (quantifier_of winner) }
{
    let Game {
        entries,
        mut queries,
        ..
    } = game;
    let lane = refuting_lane(&mut queries, winner);
    Played {
        won: Won { winner, entries },
        lane,
    }
}

// The lane of the only query, where it is about the player that has won.
fn refuting_lane(queries: &mut Vec<Query>, winner: Quant) -> Option<Lane>
    ensures { result ≡ only_lane queries.old.items (quantifier_of winner) }
{
    if has_only(queries, winner) {
        pop_lane(queries)
    } else {
        None
    }
}

// Whether one query is all, and about this player.
fn has_only(queries: &[Query], winner: Quant) -> bool
    ensures { result ≡ has_only queries.now (quantifier_of winner) }
{
    queries.len() == 1 && is_same(queries[0].winner, winner)
}

// The lane of the only query.
fn pop_lane(queries: &mut Vec<Query>) -> Option<Lane>
    ensures { (q : QuerySpec) → queries.old.items ≡ q ∷ [] → result ≡ Some q.lane }
{
    match queries.pop() {
        Some(query) => Some(query.lane),
        None => None,
    }
}

// Turns from the start of a game, until a player holds level 1.
fn take_turns(
    game: &mut Game,
    alloc: Global,
    store: &mut Store,
    problem: &Problem,
    meter: &mut Meter,
) -> Result<Quant, PlayFault>
    requires { (p : PlainProblem) × (limit : ℕ)
        × MayPlay store.old problem.now p limit game.old meter.old }
    ensures won { IfOk result (λ winner. (p : PlainProblem) (limit : ℕ) →
        MayPlay store.old problem.now p limit game.old meter.old →
        IsOver store.new p limit game.new meter.new winner) }
    ensures counts { SameButCounts meter.old meter.new }
    ensures spent { IsSpentWhere result meter.new }
    ensures grows { Grows store.old store.new }
{
    let mut spot = first_spot(game, alloc, store, meter)?;
    'turns: loop {
        let turn = next_turn(game, alloc, store, problem, meter, spot)?;
        // What every meter keeps.
        let _record = meter.newest();
        match turn {
            Turn::Over(winner) => return Ok(winner),
            Turn::On(next) => spot = next,
        }
    }
}

// Where play begins: in a game of several blocks, at values of all places by which the owner of the
// last block wins, if there are any, since its entry then says much of what its places are for.
fn first_spot(
    game: &mut Game,
    alloc: Global,
    store: &Store,
    meter: &mut Meter,
) -> Result<Spot, PlayFault>
    requires { (p : PlainProblem) × (limit : ℕ)
        × IsPlaying store.now p limit game.old 1 [] meter.old }
    ensures playing { IfOk result (λ spot. (p : PlainProblem) (limit : ℕ) →
        IsPlaying store.now p limit game.old 1 [] meter.old → game.old.entries ≡ [] →
        IsPlaying store.now p limit game.new spot.level spot.point.items meter.new) }
    ensures counts { SameButCounts meter.old meter.new }
    ensures spent { IsSpentWhere result meter.new }
{
    let levels = game.spans.len();
    if levels >= FEWEST {
        if let Some(mut point) = game.seek(alloc, store, meter)? {
            let first = game.spans[levels - 1].first;
            point.truncate(first as usize);
            let level = levels as u64;
            return Ok(Spot { level, point });
        }
    }
    Ok(Spot {
        level: 1,
        point: Vec::new(alloc),
    })
}

// The game without places.
fn decide(alloc: Global, store: &Store, problem: &Problem) -> Result<Played, PlayFault>
    requires posed { IsPosedIn store.now problem.now }
    requires none { problem.now.prefix.items ≡ [] }
    ensures won { IfOk result (λ played. HasWon (problem_in store.now problem.now)
        (quantifier_of played.won.winner) []) }
    ensures none { IfOk result (λ played. played.won.entries ≡ []) }
    ensures lane { IfOk result (λ played. played.lane ≡ None) }
    ensures unspent { OnErr result (result ≡ Err PlayFault.NoMemory) }
{
    let word = store.eval_at(problem.matrix, &[], &[])?;
    let winner = if word.value() == 1 {
        Quant::Exists
    } else {
        Quant::Forall
    };
    let entries = Entries::new(alloc);
    Ok(Played {
        won: Won { winner, entries },
        lane: None,
    })
}
