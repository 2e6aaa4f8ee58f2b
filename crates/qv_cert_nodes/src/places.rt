//! The places of a problem.

ghost use Rattle.std.specs.Prelude.{◌≡◌, List, Some};
ghost use Rattle.qv_words.specs.Tree.{Tree, tree_sort};
ghost use Rattle.qv_store.specs.Problems.{problem_in};
ghost use Rattle.qv_cert.specs.Faults.{is_place, is_universal, is_existential, has_sort_at};

use qv_store::{Problem, Quant};
use qv_words::Sort;

// Whether the place is universal.
pub(crate) fn is_universal(problem: &Problem, place: u64) -> bool
    ensures { (trees : List Tree) →
        result ≡ is_place is_universal (problem_in trees problem.now) place }
{
    match problem.prefix.get(place as usize) {
        Some(found) => found.quant == Quant::Forall,
        None => false,
    }
}

// Whether the place is existential.
pub(crate) fn is_existential(problem: &Problem, place: u64) -> bool
    ensures { (trees : List Tree) →
        result ≡ is_place is_existential (problem_in trees problem.now) place }
{
    match problem.prefix.get(place as usize) {
        Some(found) => found.quant == Quant::Exists,
        None => false,
    }
}

// Whether a term of this sort has the place's sort.
pub(crate) fn has_sort(problem: &Problem, place: u64, sort: Sort) -> bool
    ensures { (trees : List Tree) (t : Tree) → tree_sort t ≡ Some sort →
        result ≡ has_sort_at (problem_in trees problem.now) place t }
{
    match problem.prefix.get(place as usize) {
        Some(found) => found.sort == sort,
        None => false,
    }
}
