//! Turns of a game: what is asked at a point, and where play goes on.

ghost use Rattle.std.specs.Prelude.{◌≡◌, ◌≤◌, ◌++◌, IfOk, OnOk, length, map, ℕ};
ghost use Rattle.qv_words.specs.Problem.{Problem as PlainProblem};
ghost use Rattle.qv_store.specs.Stores.{Grows};
ghost use Rattle.qv_game_state.specs.Counts.{SameButCounts};
ghost use Rattle.qv_game_state.specs.Faults.{IsSpentWhere};
ghost use Rattle.qv_game_state.specs.Spans.{span_of};
ghost use Rattle.qv_game_turns.specs.Turns.{AreFailing, AreLeading, IsCloser, IsTurn, IsUp, MayTurn, MayWin};

use crate::moves::{force, own};
use qv_cnf::Lit;
use qv_game_lanes::Answer;
use qv_game_state::{Game, Span, opponent};
use qv_meter::{Meter, PlayFault};
use qv_store::{Problem, Quant, Store};
use qv_words::Word;
use std::alloc::{AllocError, Global};

/// A level and a point of it.
#[derive(Drop)]
pub struct Spot {
    pub level: u64,
    pub point: Vec<Word>,
}

/// Who has won, or where play goes on.
#[derive(Drop)]
pub enum Turn {
    Over(Quant),
    On(Spot),
}

/// The owner of the level's block is asked for values, and what comes of the answer: an entry more,
/// or as many and the next level.
pub fn next_turn(
    game: &mut Game,
    alloc: Global,
    store: &mut Store,
    problem: &Problem,
    meter: &mut Meter,
    spot: Spot,
) -> Result<Turn, PlayFault>
    requires { (p : PlainProblem) × (limit : ℕ)
        × MayTurn store.old problem.now p limit game.old spot meter.old }
    ensures grows { Grows store.old store.new }

    // A player holds level 1, or play goes on from a point, closer to its end.
    ensures turn { IfOk result (λ turn. (p : PlainProblem) (limit : ℕ) →
        MayTurn store.old problem.now p limit game.old spot meter.old →
        IsTurn store.new p limit game.new meter.new turn) }
    ensures closer { IfOk result (IsCloser (length game.old.entries) spot.level
        (length game.new.entries)) }

    // Whatever the answer is, nothing else has changed in the meter.
    ensures counts { SameButCounts meter.old meter.new }
    ensures spent { IsSpentWhere result meter.new }
{
    match game.ask(alloc, store, spot.level, &spot.point, meter)? {
        Answer::Values(values) => lead(game, alloc, store, problem, meter, spot, &values),
        Answer::Core(core) => lose(game, alloc, store, problem, meter, spot, &core),
    }
}

// The owner has values that lie in none of the other's regions: it wins where they lead behind the
// last block or into an earlier region of its own, and otherwise play goes on with them.
fn lead(
    game: &mut Game,
    alloc: Global,
    store: &mut Store,
    problem: &Problem,
    meter: &mut Meter,
    spot: Spot,
    values: &[Word],
) -> Result<Turn, PlayFault>
    requires { (p : PlainProblem) × (limit : ℕ)
        × MayTurn store.old problem.now p limit game.old spot meter.old
        × AreLeading store.old p game.old spot values.now }
    ensures grows { Grows store.old store.new }
    ensures turn { IfOk result (λ turn. (p : PlainProblem) (limit : ℕ) →
        MayTurn store.old problem.now p limit game.old spot meter.old →
        AreLeading store.old p game.old spot values.now →
        IsTurn store.new p limit game.new meter.new turn) }
    ensures closer { IfOk result (IsCloser (length game.old.entries) spot.level
        (length game.new.entries)) }
    ensures counts { SameButCounts meter.old meter.new }
    ensures spent { IsSpentWhere result meter.new }
{
    let Spot { level, mut point } = spot;
    let owner = game.spans[level as usize - 1].owner;
    lengthen(&mut point, values)?;
    if level == game.spans.len() as u64 {
        return win(game, alloc, store, problem, meter, level, None, point);
    }
    match game.entries.holds_at(store, level + 1, owner, &point)? {
        Some(number) => win(
            game,
            alloc,
            store,
            problem,
            meter,
            level,
            Some(number),
            point,
        ),
        None => Ok(Turn::On(Spot {
            level: level + 1,
            point,
        })),
    }
}

// A point with values behind it.
fn lengthen(point: &mut Vec<Word>, values: &[Word]) -> Result<(), AllocError>
    ensures { OnOk result (point.new.items ≡ point.old.items ++ values.now) }
{
    'values: for value in values {
        point.push(*value)?;
    }
    Ok(())
}

// The owner of a level's block wins, and play goes on one level up.
fn win(
    game: &mut Game,
    alloc: Global,
    store: &mut Store,
    problem: &Problem,
    meter: &mut Meter,
    level: u64,
    link: Option<u64>,
    point: Vec<Word>,
) -> Result<Turn, PlayFault>
    requires { (p : PlainProblem) × (limit : ℕ)
        × MayWin store.old problem.now p limit game.old level link point.items meter.old }
    ensures grows { Grows store.old store.new }
    ensures turn { IfOk result (λ turn. (p : PlainProblem) (limit : ℕ) →
        MayWin store.old problem.now p limit game.old level link point.items meter.old →
        IsTurn store.new p limit game.new meter.new turn) }
    ensures closer { IfOk result (λ turn. (from : ℕ) → IsCloser (length game.old.entries) from
        (length game.new.entries) turn) }
    ensures counts { SameButCounts meter.old meter.new }
    ensures spent { IsSpentWhere result meter.new }
{
    let owner = game.spans[level as usize - 1].owner;
    own(game, alloc, store, problem, meter, level, link, &point)?;
    Ok(up(&game.spans, level, owner, point))
}

// The owner has none: the other player wins, and so it does in the block before, which it owns.
fn lose(
    game: &mut Game,
    alloc: Global,
    store: &mut Store,
    problem: &Problem,
    meter: &mut Meter,
    spot: Spot,
    core: &[Lit],
) -> Result<Turn, PlayFault>
    requires { (p : PlainProblem) × (limit : ℕ)
        × MayTurn store.old problem.now p limit game.old spot meter.old
        × AreFailing store.old p game.old spot core.now }
    ensures grows { Grows store.old store.new }
    ensures turn { IfOk result (λ turn. (p : PlainProblem) (limit : ℕ) →
        MayTurn store.old problem.now p limit game.old spot meter.old →
        AreFailing store.old p game.old spot core.now →
        IsTurn store.new p limit game.new meter.new turn) }
    ensures closer { IfOk result (IsCloser (length game.old.entries) spot.level
        (length game.new.entries)) }
    ensures counts { SameButCounts meter.old meter.new }
    ensures spent { IsSpentWhere result meter.new }
{
    let Spot { level, point } = spot;
    let winner = opponent(game.spans[level as usize - 1].owner);
    let number = force(game, alloc, store, problem, meter, level, &point, core)?;
    if level > 1 {
        return win(
            game,
            alloc,
            store,
            problem,
            meter,
            level - 1,
            Some(number),
            point,
        );
    }
    Ok(up(&game.spans, level, winner, point))
}

// Where play goes on behind an entry of this level: one level up, or not at all.
fn up(spans: &[Span], level: u64, winner: Quant, mut point: Vec<Word>) -> Turn
    requires low { 1 ≤ level }
    requires high { level ≤ length spans.now }
    ensures { IsUp (map span_of spans.now) level winner point.items result }
{
    if level == 1 {
        return Turn::Over(winner);
    }
    let first = spans[level as usize - 2].first;
    point.truncate(first as usize);
    Turn::On(Spot {
        level: level - 1,
        point,
    })
}
