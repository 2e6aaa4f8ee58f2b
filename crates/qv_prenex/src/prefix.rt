//! The prefix of a problem: the places of the constants, and then those of the blocks.

ghost use Rattle.std.specs.Prelude.{◌≡◌, ℕ, ◌+◌, ◌<◌, ◌^◌, ◌++◌, IfOk, OnOk, map, length, sum};
ghost use Rattle.std.specs.Prelude.{take};
ghost use Rattle.qv_words.specs.Problem.{places_of};
ghost use Rattle.qv_store.specs.Problems.{place_of, quantifier_of};
ghost use Rattle.qv_prenex.specs.Blocks.{sorts_in};
ghost use Rattle.qv_prenex_matrix.specs.NextLevels.{next_of};
ghost use Rattle.qv_prenex.specs.Prefixes.{constant_place, place_with, other_quant};

use crate::constants::Constant;
use qv_prenex_matrix::Levels;
use qv_store::{NoMemory, Place, Quant};
use qv_words::Sort;
use std::alloc::Global;

// The places of constants, which are existential, and behind them those of blocks, which are
// existential and universal in turn.
pub(crate) fn prefix_of(
    alloc: Global,
    constants: &[Constant],
    blocks: &[Vec<Sort>],
) -> Result<Vec<Place>, NoMemory>
    ensures { IfOk result (λ prefix. map place_of prefix.items ≡ map constant_place constants.now
        ++ places_of (quantifier_of Quant.Exists) (sorts_in blocks.now)) }
{
    let mut prefix = constant_places(alloc, constants)?;
    let mut quant = Quant::Exists;
    'each: for block in blocks {
        push_places(&mut prefix, quant, block)?;
        quant = other(quant);
    }
    Ok(prefix)
}

// The places of constants.
fn constant_places(alloc: Global, constants: &[Constant]) -> Result<Vec<Place>, NoMemory>
    ensures { IfOk result (λ prefix.
        map place_of prefix.items ≡ map constant_place constants.now) }
{
    let mut prefix = Vec::with_capacity(alloc, constants.len())?;
    'constants: for constant in constants {
        prefix.push(Place {
            quant: Quant::Exists,
            sort: constant.sort,
        })?;
    }
    Ok(prefix)
}

// Puts the places of a block behind the others.
fn push_places(prefix: &mut Vec<Place>, quant: Quant, block: &[Sort]) -> Result<(), NoMemory>
    ensures { OnOk result (prefix.new.items
        ≡ prefix.old.items ++ map (place_with quant) block.now) }
{
    'sorts: for sort in block {
        prefix.push(Place { quant, sort: *sort })?;
    }
    Ok(())
}

fn other(quant: Quant) -> Quant
    ensures { result ≡ other_quant quant }
{
    match quant {
        Quant::Exists => Quant::Forall,
        Quant::Forall => Quant::Exists,
    }
}

// The level of the first variable of each block: behind the constants each block begins behind
// those before it.
pub(crate) fn levels_of(
    alloc: Global,
    constants: usize,
    blocks: &[Vec<Sort>],
) -> Result<Levels, NoMemory>
    requires { constants + sum (map (λ b. length b) (sorts_in blocks.now)) < 2 ^ 32 }
    ensures { IfOk result (λ levels. (k : ℕ) → next_of levels.next.items levels.total k
        ≡ constants + sum (take k (map (λ b. length b) (sorts_in blocks.now)))) }
{
    let mut next = Vec::with_capacity(alloc, blocks.len())?;
    let mut total = constants as u64;
    'each: for block in blocks {
        next.push(total)?;
        total += block.len() as u64;
    }
    Ok(Levels { next, total })
}
