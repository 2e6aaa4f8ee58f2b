//! What is learnt from a conflict, looked at by a checker and on the trail.

ghost use Rattle.std.specs.Prelude.{◌≡◌, Some};

use crate::lits::{say_all, sorted};
use qv_cases_rows::Answer;
use qv_cnf::{Lit, Step};
use qv_learn::{Learnt, analyse};
use qv_rup::Checker;
use qv_watch::{Propagated, Trail};
use std::alloc::{AllocError, Global};

/// What is told of a learnt clause.
pub(crate) enum Part {
    Lits,
    Level,
    Hints,
}

/// A learnt clause, and a word on it.
#[derive(Drop)]
pub(crate) struct Learning {
    lits: Vec<Lit>,
    hints: Vec<u64>,
    level: u32,
    /// That it stands as it should and a checker takes it, or what is wrong.
    pub(crate) word: &'static str,
}

impl Learning {
    /// Says the literals, of which the first stays first; the level; the hints in rising order.
    pub(crate) fn tell(&self, alloc: Global, part: &Part, out: &mut Answer) {
        match part {
            Part::Lits => say_learnt(alloc, &self.lits, out),
            Part::Level => out.show(self.level),
            Part::Hints => say_hints(alloc, &self.hints, out),
        }
    }
}

fn say_learnt(alloc: Global, lits: &[Lit], out: &mut Answer) {
    match first_kept(alloc, lits) {
        Ok(lits) => say_all(out, &lits),
        Err(_) => out.refuse(),
    }
}

// The literals behind the first in the order of their variables.
fn first_kept(alloc: Global, lits: &[Lit]) -> Result<Vec<Lit>, AllocError> {
    let Some((first, others)) = lits.split_first() else {
        return Ok(Vec::new(alloc));
    };
    let mut lits = sorted(alloc, others)?;
    lits.insert(0, *first)?;
    Ok(lits)
}

fn say_hints(alloc: Global, hints: &[u64], out: &mut Answer) {
    match in_order(alloc, hints) {
        Ok(hints) => out.debug(hints),
        Err(_) => out.refuse(),
    }
}

fn in_order(alloc: Global, hints: &[u64]) -> Result<Vec<u64>, AllocError> {
    let mut hints = Vec::from_slice(alloc, hints)?;
    hints.sort()?;
    Ok(hints)
}

/// Learns from the conflict, and gives the checker the clause under this id.
pub(crate) fn learn(
    alloc: Global,
    trail: &Trail,
    checker: &mut Checker,
    conflict: u64,
    id: u64,
) -> Option<Learning>
    requires { trail.now.answer ≡ Some (Propagated.Conflict conflict) }
{
    let Learnt { lits, hints, level } = analyse(alloc, trail, conflict).ok()?;
    let step = Step::Add {
        id,
        lits: Vec::from_slice(alloc, &lits).ok()?,
        hints: numbers_of(alloc, &hints)?,
    };
    let word = if checker.step(&step).is_err() {
        "wrong: a checker refuses"
    } else if checker.is_refuted() != lits.is_empty() {
        "wrong: a clause without literals, or refuted"
    } else if stands(trail, &lits, level) {
        "ok"
    } else {
        "wrong: literals of other levels"
    };
    Some(Learning {
        lits,
        hints,
        level,
        word,
    })
}

fn numbers_of(alloc: Global, ids: &[u64]) -> Option<Vec<i64>> {
    let mut hints = Vec::new(alloc);
    for id in ids {
        hints.push(i64::try_from(*id).ok()?).ok()?;
    }
    Some(hints)
}

// The level at which the literal became false.
fn false_at(trail: &Trail, lit: Lit) -> Option<u32> {
    if trail.value(lit) == Some(false) {
        Some(trail.level_of(lit))
    } else {
        None
    }
}

// The first literal alone is of the present level, and the level is the greatest of the others,
// which are above level 0.
fn stands(trail: &Trail, lits: &[Lit], level: u32) -> bool {
    let present = trail.level();
    let Some((first, others)) = lits.split_first() else {
        return present == 0 && level == 0;
    };
    let mut greatest = 0;
    for lit in others {
        match false_at(trail, *lit) {
            Some(at) if 0 < at && at < present => greatest = at.max(greatest),
            _ => return false,
        }
    }
    false_at(trail, *first) == Some(present) && level == greatest
}

/// Whether each literal came from a clause whose other literals were false before, but for one
/// assumption a level.
pub(crate) fn reasons_hold(trail: &Trail) -> bool {
    let mut assumed = 0u32;
    for lit in trail.order() {
        match trail.reason(*lit) {
            None => assumed = assumed.saturating_add(1),
            Some(id) => match trail.clause(id) {
                Some(lits) if forced(trail, *lit, lits) => {}
                _ => return false,
            },
        }
    }
    assumed == trail.level()
}

fn forced(trail: &Trail, lit: Lit, lits: &[Lit]) -> bool {
    let others_false = lits
        .iter()
        .all(|other| *other == lit || came_before(trail, *other, lit));
    others_false && lits.contains(&lit)
}

fn came_before(trail: &Trail, other: Lit, lit: Lit) -> bool {
    trail.value(other) == Some(false)
        && trail.value(lit) == Some(true)
        && trail.position(other) < trail.position(lit)
}
