//! The answer for a problem.

ghost use Rattle.std.specs.Prelude.{◌≡◌, ◌≤◌, ◌^◌, All, IfErr, IfOk, length};
ghost use Rattle.qv_words.specs.Problem.{Existential, Universal};
ghost use Rattle.qv_words.specs.GameLaws.{HasWon};
ghost use Rattle.qv_store.specs.Problems.{problem_in, quantifier_of, IsPosedIn};
ghost use Rattle.qv_store.specs.Stores.{Grows};
ghost use Rattle.qv_entries.specs.Rows.{entries_in, IsRowIn};
ghost use Rattle.qv_meter.specs.Played.{IsPlayed};
ghost use Rattle.qv_cert.specs.Line.{IsNumber};
ghost use Rattle.qv_game.specs.Counts.{SameButCounts};
ghost use Rattle.qv_game.specs.Starting.{HasCharged, IsUncharged};
ghost use Rattle.qv_solve_draw.specs.Values.{AreExistential};
ghost use Rattle.qv_solve_refute.specs.Refuting.{IsSpentBy};
ghost use Rattle.qv_solve.specs.Answering.{IsKnown, IsSolution};

use crate::solved::Solved;
use qv_cert::Section;
use qv_cnf::Step;
use qv_entries::Entries;
use qv_game::{Played, play_noting};
use qv_meter::{Meter, PlayFault};
use qv_solve_draw::{constants, draw_lines, draw_terms};
use qv_solve_section::close;
use qv_store::{Problem, Quant, Store};
use qv_words::{Answer, Word};
use std::alloc::Global;

// The answer for the problem of the newest record, to which nothing was charged, where these words
// are offered for its places.
pub(crate) fn answer(
    alloc: Global,
    store: &mut Store,
    problem: &Problem,
    offered: &[Word],
    number: u64,
    meter: &mut Meter,
) -> Result<Solved, PlayFault>
    requires posed { IsPosedIn store.old problem.now }
    requires few { length problem.now.prefix.items ≤ 2 ^ 62 }
    requires first { AreExistential (problem_in store.old problem.now)
        (length problem.now.constants.items) }
    requires number { IsNumber number }
    requires record { IsUncharged (problem_in store.old problem.now) meter.old }
    ensures solution { IfOk result (IsSolution (problem_in store.old problem.now) number
        problem.now.constants.items meter.new) }
    ensures known { IfOk result IsKnown }
    ensures counts { SameButCounts meter.old meter.new }
    ensures spent { IfErr result (IsSpentBy meter.new) }
    ensures grows { Grows store.old store.new }
{
    let played = play_noting(alloc, store, problem, offered, meter)?;
    answer_won(alloc, store, problem, number, &played, meter)
}

// The answer where the game was played to this end.
fn answer_won(
    alloc: Global,
    store: &mut Store,
    problem: &Problem,
    number: u64,
    played: &Played,
    meter: &mut Meter,
) -> Result<Solved, PlayFault>
    requires posed { IsPosedIn store.old problem.now }
    requires few { length problem.now.prefix.items ≤ 2 ^ 62 }
    requires first { AreExistential (problem_in store.old problem.now)
        (length problem.now.constants.items) }
    requires number { IsNumber number }
    requires rows { All (IsRowIn store.old) played.now.won.entries }
    requires played { IsPlayed (problem_in store.old problem.now)
        (entries_in store.old played.now.won.entries) }
    requires won { HasWon (problem_in store.old problem.now)
        (quantifier_of played.now.won.winner) (entries_in store.old played.now.won.entries) }
    requires record { HasCharged (problem_in store.old problem.now)
        (length played.now.won.entries) meter.old }
    ensures solution { IfOk result (IsSolution (problem_in store.old problem.now) number
        problem.now.constants.items meter.new) }
    ensures known { IfOk result IsKnown }
    ensures counts { SameButCounts meter.old meter.new }
    ensures spent { IfErr result (IsSpentBy meter.new) }
    ensures grows { Grows store.old store.new }
{
    let entries = &played.won.entries;
    let noted = played.steps(alloc)?;
    match played.won.winner {
        Quant::Exists => answer_sat(alloc, store, problem, number, entries, &noted, meter),
        Quant::Forall => answer_unsat(alloc, store, problem, number, entries, &noted, meter),
    }
}

// The answer where the existential player has won by these entries.
fn answer_sat(
    alloc: Global,
    store: &mut Store,
    problem: &Problem,
    number: u64,
    entries: &Entries,
    noted: &[Step],
    meter: &mut Meter,
) -> Result<Solved, PlayFault>
    requires posed { IsPosedIn store.old problem.now }
    requires few { length problem.now.prefix.items ≤ 2 ^ 62 }
    requires first { AreExistential (problem_in store.old problem.now)
        (length problem.now.constants.items) }
    requires number { IsNumber number }
    requires rows { All (IsRowIn store.old) entries.now }
    requires played { IsPlayed (problem_in store.old problem.now)
        (entries_in store.old entries.now) }
    requires won { HasWon (problem_in store.old problem.now) Existential
        (entries_in store.old entries.now) }
    requires record { HasCharged (problem_in store.old problem.now) (length entries.now)
        meter.old }
    ensures solution { IfOk result (IsSolution (problem_in store.old problem.now) number
        problem.now.constants.items meter.new) }
    ensures known { IfOk result IsKnown }
    ensures counts { SameButCounts meter.old meter.new }
    ensures spent { IfErr result (IsSpentBy meter.new) }
    ensures grows { Grows store.old store.new }
{
    let drawn = draw_terms(alloc, store, problem, entries)?;
    let values = constants(alloc, store, problem, &drawn.terms)?;
    let closing = close(
        alloc,
        store,
        problem,
        number,
        Answer::Sat,
        drawn.written,
        noted,
        meter,
    )?;
    Ok(Solved::Sat {
        section: Section {
            lines: closing.lines,
        },
        constants: values,
        variables: closing.variables,
    })
}

// The answer where the universal player has won by these entries.
fn answer_unsat(
    alloc: Global,
    store: &mut Store,
    problem: &Problem,
    number: u64,
    entries: &Entries,
    noted: &[Step],
    meter: &mut Meter,
) -> Result<Solved, PlayFault>
    requires posed { IsPosedIn store.old problem.now }
    requires number { IsNumber number }
    requires rows { All (IsRowIn store.old) entries.now }
    requires played { IsPlayed (problem_in store.old problem.now)
        (entries_in store.old entries.now) }
    requires won { HasWon (problem_in store.old problem.now) Universal
        (entries_in store.old entries.now) }
    requires record { HasCharged (problem_in store.old problem.now) (length entries.now)
        meter.old }
    ensures solution { IfOk result (IsSolution (problem_in store.old problem.now) number
        problem.now.constants.items meter.new) }
    ensures known { IfOk result IsKnown }
    ensures counts { SameButCounts meter.old meter.new }
    ensures spent { IfErr result (IsSpentBy meter.new) }
    ensures grows { Grows store.old store.new }
{
    let written = draw_lines(alloc, store, problem, entries, meter)?;
    let closing = close(
        alloc,
        store,
        problem,
        number,
        Answer::Unsat,
        written,
        noted,
        meter,
    )?;
    Ok(Solved::Unsat {
        section: Section {
            lines: closing.lines,
        },
        variables: closing.variables,
    })
}
