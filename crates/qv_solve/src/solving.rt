//! What is answered about asserted formulas.

ghost use Rattle.std.specs.Prelude.{◌≡◌, ◌⊎◌, ◌≤◌, ◌<◌, ◌^◌, All, Err, IfErr, IfOk, OnOk};
ghost use Rattle.std.specs.Prelude.{length, map};
ghost use Rattle.qv_words.specs.Truth.{IsAssertion, HaveOneSort};
ghost use Rattle.qv_words.specs.Problem.{problem_of};
ghost use Rattle.qv_store.specs.Nodes.{tree_at};
ghost use Rattle.qv_store.specs.Problems.{problem_in, IsPosedIn};
ghost use Rattle.qv_store.specs.Stores.{Grows};
ghost use Rattle.qv_meter.specs.Records.{AreLimits};
ghost use Rattle.qv_meter.specs.Views.{limits_of};
ghost use Rattle.qv_cert.specs.Line.{IsCertLine, IsNumber};
ghost use Rattle.qv_game.specs.Starting.{IsUncharged};
ghost use Rattle.qv_solve_draw.specs.Values.{AreExistential};
ghost use Rattle.qv_solve_section.specs.Sections.{task_of, IsCounted, IsSectionOf};
ghost use Rattle.qv_solve.specs.Solutions.{answer_of, lines_of, variables_of, GivesConstants};
ghost use Rattle.qv_solve.specs.Solutions.{HasRecord, IsAnswerOf, IsDrawn, IsSettled};
ghost use Rattle.qv_solve.specs.Answering.{IsSolution, IsUnknownOf, KeepsRecords};

use crate::answering::answer;
use crate::fault::SolveFault;
use crate::offered::words_for;
use crate::solved::Solved;
use qv_cert::{Line, Section};
use qv_meter::{Limits, Meter, PlayFault, SpentKind};
use qv_prenex::prenex;
use qv_store::{Id, NoMemory, Problem, Store};
use qv_words::{Answer, Word};
use std::alloc::Global;

/// The answer to the check-sat of this number at which these formulas are asserted, with its
/// section of a certificate, where their prenex problem has no more than so many places. The game
/// of that problem is played, what is drawn from its entries is listed, and the formulas that are
/// left are refuted. All that is charged for is counted in a new record of the meter: where it is
/// spent the answer is `Unknown`, and the record keeps the problem. The store may keep further
/// terms. Words for the constants, by index, may be offered: nothing need hold of them. Where all
/// places are the constants' and the formulas are true under their words, the game is won by these
/// at once.
pub fn solve_one(
    alloc: Global,
    store: &mut Store,
    assertions: &[Id],
    offered: &[Option<Word>],
    number: u64,
    places: u32,
    limits: Limits,
    meter: &mut Meter,
) -> Result<Solved, SolveFault>
    requires ids { All (λ id. id < length store.old) assertions.now }
    requires assertions { All IsAssertion (map (tree_at store.old) assertions.now) }
    requires sorts { HaveOneSort (map (tree_at store.old) assertions.now) }
    requires number { number < 2 ^ 62 }
    requires limits { AreLimits (limits_of limits) }

    // The lines are a section of the answer, as it is accepted, which has so many variables, and
    // can be printed.
    ensures section { IfOk result (λ s. IsSectionOf
        (task_of (problem_of (map (tree_at store.old) assertions.now)) number)
        (answer_of s) (lines_of s)) }
    ensures counted { IfOk result (λ s. IsCounted
        (task_of (problem_of (map (tree_at store.old) assertions.now)) number)
        (answer_of s) (lines_of s) (variables_of s)) }
    ensures form { IfOk result (λ s. All IsCertLine (lines_of s)) }

    // What the answer says is so.
    ensures truth { IfOk result (λ s. IsAnswerOf (map (tree_at store.old) assertions.now)
        (answer_of s)) }
    ensures constants { IfOk result (GivesConstants (map (tree_at store.old) assertions.now)) }

    // The lines come from a game that was won, and each pass that is noted changes the
    // formulas.
    ensures drawn { IfOk result (λ s. IsDrawn
        (problem_of (map (tree_at store.old) assertions.now)) number (answer_of s) (lines_of s)
        meter.new) }

    // The meter: a record of its own, settled by a sat or unsat answer, and spent by an unknown
    // one.
    ensures record { OnOk result (HasRecord (limits_of limits) meter.old meter.new) }
    ensures settled { IfOk result (IsSettled (problem_of (map (tree_at store.old) assertions.now))
        meter.new) }

    // The limit, exactly, and want of memory.
    ensures within { OnOk result (length
        (problem_of (map (tree_at store.old) assertions.now)).prefix ≤ places) }
    ensures over { result ≡ Err SolveFault.PrefixLimit →
        (places < length (problem_of (map (tree_at store.old) assertions.now)).prefix)
        × (meter.new ≡ meter.old) }
    ensures memory { result ≡ Err SolveFault.NoMemory → (meter.new ≡ meter.old)
        ⊎ HasRecord (limits_of limits) meter.old meter.new }
    ensures grows { Grows store.old store.new }
{
    let problem = prenex(alloc, store, assertions, places)?;
    let words = words_for(alloc, &problem.constants, offered);
    meter.start(store, &problem, limits)?;
    finish(alloc, store, &problem, &words, number, meter)
}

// The answer for the problem of the newest record, to which nothing was charged, and what becomes
// of the record.
fn finish(
    alloc: Global,
    store: &mut Store,
    problem: &Problem,
    offered: &[Word],
    number: u64,
    meter: &mut Meter,
) -> Result<Solved, SolveFault>
    requires posed { IsPosedIn store.old problem.now }
    requires few { length problem.now.prefix.items ≤ 2 ^ 62 }
    requires first { AreExistential (problem_in store.old problem.now)
        (length problem.now.constants.items) }
    requires number { IsNumber number }
    requires record { IsUncharged (problem_in store.old problem.now) meter.old }
    ensures solution { IfOk result (IsSolution (problem_in store.old problem.now) number
        problem.now.constants.items meter.new) }
    ensures settled { IfOk result (IsSettled (problem_in store.old problem.now) meter.new) }
    ensures records { KeepsRecords meter.old meter.new }
    ensures memory { IfErr result (λ fault. fault ≡ SolveFault.NoMemory) }
    ensures grows { Grows store.old store.new }
{
    match answer(alloc, store, problem, offered, number, meter) {
        Ok(solved) => {
            meter.settle();
            Ok(solved)
        }
        Err(PlayFault::Spent(kind)) => {
            // What every meter keeps.
            let _record = meter.newest();
            Ok(unknown(alloc, number, kind)?)
        }
        Err(PlayFault::NoMemory) => Err(SolveFault::NoMemory),
    }
}

// The answer where the meter is spent.
fn unknown(alloc: Global, number: u64, kind: SpentKind) -> Result<Solved, NoMemory>
    requires { IsNumber number }
    ensures { IfOk result (IsUnknownOf number kind) }
{
    let mut lines = Vec::with_capacity(alloc, 2)?;
    lines.push(Line::Check {
        number,
        answer: Answer::Unknown,
    })?;
    lines.push(Line::End)?;
    Ok(Solved::Unknown {
        section: Section { lines },
        kind,
    })
}
