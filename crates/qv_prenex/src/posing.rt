//! The prenex problem of asserted formulas.

ghost use Rattle.std.specs.Prelude.{◌≡◌, ◌↔◌, ℕ, ◌+◌, ◌<◌, ◌≤◌, ◌^◌, List, All, IfOk, Err, length};
ghost use Rattle.std.specs.Prelude.{map, sum};
ghost use Rattle.qv_words.specs.Problem.{Existential, Holds, problem_of, in_order};
ghost use Rattle.qv_words.specs.Truth.{IsAssertion, AreTrue, HaveOneSort, HasConstantsOf};
ghost use Rattle.qv_words.specs.Truth.{HoldUnder, constants_of_each};
ghost use Rattle.qv_words.specs.GameLaws.{WinsFrom};
ghost use Rattle.qv_store.specs.Nodes.{tree_at};
ghost use Rattle.qv_store.specs.Stores.{Grows};
ghost use Rattle.qv_store.specs.Problems.{problem_in, IsPosedIn};
ghost use Rattle.qv_prenex_laws.specs.FormLaws.{all_lengths};
ghost use Rattle.qv_prenex.specs.Constants.{pair_of};
ghost use Rattle.qv_prenex.specs.Posed.{values_for, IsProblemOf};

use crate::blocks::blocks_of;
use crate::conjunction::conjoin;
use crate::constants::{Constant, constants_in};
use crate::counting::count_variables;
use crate::faults::PrenexFault;
use crate::places::{indices_of, names_of};
use crate::prefix::{levels_of, prefix_of};
use qv_prenex_matrix::{SplitStore, matrix_of};
use qv_store::{Id, NoMemory, Problem, Store};
use std::alloc::Global;
use std::mem;

/// The prenex problem of asserted formulas: a place for each constant that occurs, in the order of
/// their indices, and then one for each variable of their conjunction's form, where these are no
/// more than so many places. `PrefixLimit` is answered in time proportional to what was counted.
/// Where no problem is made the store may hold further terms.
pub fn prenex(
    alloc: Global,
    store: &mut Store,
    assertions: &[Id],
    places: u32,
) -> Result<Problem, PrenexFault>
    requires ids { All (λ id. id < length store.old) assertions.now }
    requires assertions { All IsAssertion (map (tree_at store.old) assertions.now) }
    requires sorts { HaveOneSort (map (tree_at store.old) assertions.now) }
    ensures problem { IfOk result (λ p. problem_in store.new p
        ≡ problem_of (map (tree_at store.old) assertions.now)) }
    ensures constants { IfOk result (λ p. p.constants.items
        ≡ map (λ c. c.0) (in_order (constants_of_each (map (tree_at store.old) assertions.now)))) }
    ensures posed { IfOk result (IsPosedIn store.new) }

    // The limit, exactly.
    ensures within { IfOk result (λ p. length p.prefix.items ≤ places) }
    ensures over { result ≡ Err PrenexFault.PrefixLimit →
        places < length (problem_of (map (tree_at store.old) assertions.now)).prefix }

    // What the problem says: it holds exactly where the assertions are true, and under given values
    // of the constants the matrix, closed for the places behind theirs, means 1 exactly where each
    // assertion does.
    ensures holds { IfOk result (λ p. Holds (problem_in store.new p)
        ↔ AreTrue (map (tree_at store.old) assertions.now)) }
    ensures under_constants { IfOk result (λ p. (c : List ℕ) →
        HasConstantsOf c (map (tree_at store.old) assertions.now) →
        WinsFrom (problem_in store.new p) Existential (values_for p.constants.items c)
        ↔ HoldUnder c (map (tree_at store.old) assertions.now)) }
    ensures grows { Grows store.old store.new }
{
    let constants = constants_in(alloc, store, assertions, places as usize)?;
    let whole = mem::replace(store, Store::new(alloc));
    let mut terms = SplitStore::new(alloc, whole);
    let posed = pose_within(alloc, &mut terms, assertions, &constants, places);
    *store = terms.into_store();
    posed
}

// The problem with these constants, where it isn't over the limit.
fn pose_within(
    alloc: Global,
    store: &mut SplitStore,
    assertions: &[Id],
    constants: &[Constant],
    places: u32,
) -> Result<Problem, PrenexFault>
    requires ids { All (λ id. id < length store.old) assertions.now }
    requires assertions { All IsAssertion (map (tree_at store.old) assertions.now) }
    requires constants { map pair_of constants.now
        ≡ in_order (constants_of_each (map (tree_at store.old) assertions.now)) }
    requires few { length constants.now ≤ places }
    ensures problem { IfOk result (λ p. IsProblemOf store.new p
        (map (tree_at store.old) assertions.now)) }
    ensures within { IfOk result (λ p. length constants.now
        + sum (all_lengths (map (tree_at store.old) assertions.now)) ≤ places) }
    ensures over { result ≡ Err PrenexFault.PrefixLimit →
        places < length (problem_of (map (tree_at store.old) assertions.now)).prefix }
    ensures grows { Grows store.old store.new }
{
    let room = places as usize - constants.len();
    count_variables(alloc, store, assertions, room)?;
    let problem = pose(alloc, store, assertions, constants)?;
    Ok(problem)
}

// The problem with these constants.
fn pose(
    alloc: Global,
    store: &mut SplitStore,
    assertions: &[Id],
    constants: &[Constant],
) -> Result<Problem, NoMemory>
    requires ids { All (λ id. id < length store.old) assertions.now }
    requires assertions { All IsAssertion (map (tree_at store.old) assertions.now) }
    requires constants { map pair_of constants.now
        ≡ in_order (constants_of_each (map (tree_at store.old) assertions.now)) }
    requires within { length constants.now
        + sum (all_lengths (map (tree_at store.old) assertions.now)) < 2 ^ 32 }
    ensures problem { IfOk result (λ p. IsProblemOf store.new p
        (map (tree_at store.old) assertions.now)) }
    ensures grows { Grows store.old store.new }
{
    let blocks = blocks_of(alloc, store, assertions)?;
    let prefix = prefix_of(alloc, constants, &blocks)?;
    let levels = levels_of(alloc, constants.len(), &blocks)?;
    let names = names_of(alloc, constants)?;
    let formula = conjoin(alloc, store, assertions)?;
    let matrix = matrix_of(alloc, store, names, levels, formula)?;
    Ok(Problem {
        prefix,
        constants: indices_of(alloc, constants)?,
        matrix,
    })
}
