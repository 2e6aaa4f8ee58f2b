//! What is known of the definitions for every tree: each function's contract is a law.

ghost use Rattle.qv_words.specs.Laws.{
  SortsHaveValues,
  SortedTreesHaveSorts,
  OpsStayInSort,
  SortedTreesMeanOneValue,
  FreeLeavesDecide,
  ReplacementKeepsMeaning,
  ReplacementKeepsSorted,
};

/// A lawful sort has the values 0 and 1, and none of 2^128 or more.
pub fn sorts_have_values()
    ensures { SortsHaveValues }
{}

/// A sorted tree has a lawful sort.
pub fn sorted_trees_have_sorts()
    ensures { SortedTreesHaveSorts }
{}

/// An operator at values of sorts that have a rank gives a value of the rank's sort.
pub fn ops_stay_in_sort()
    ensures { OpsStayInSort }
{}

/// A sorted tree with values for its free leaves means exactly one value, and it is of its sort.
pub fn sorted_trees_mean_one_value()
    ensures { SortedTreesMeanOneValue }
{}

/// Values that agree on a tree's free leaves give it the same meaning.
pub fn free_leaves_decide()
    ensures { FreeLeavesDecide }
{}

/// A tree with trees put in for variables means exactly what it means where the variables have
/// their values.
pub fn replacement_keeps_meaning()
    ensures { ReplacementKeepsMeaning }
{}

/// A sorted tree with sorted trees put in for variables of their sorts is sorted.
pub fn replacement_keeps_sorted()
    ensures { ReplacementKeepsSorted }
{}
