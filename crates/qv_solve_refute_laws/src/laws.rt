//! What is known of final lists and their refutations: each function's contract is a law.

ghost use Rattle.qv_solve_refute_laws.specs.FinalLaws.{FalseListsHaveNoModel, FinalListsHaveNoModel};
ghost use Rattle.qv_solve_refute_laws.specs.FinalLaws.{FinalListsAreTerms, FinalListsMayBeCharged};
ghost use Rattle.qv_solve_refute_laws.specs.FinalLaws.{LongerListsTakeMore, OverLargeFinalLists};
ghost use Rattle.qv_solve_refute_laws.specs.StepLaws.{StepsHaveIds};

/// Formulas that no values make all true have clauses without a model, also behind passes.
pub fn false_lists_have_no_model()
    ensures { FalseListsHaveNoModel }
{}

/// So it is with a final list of entries with which a player has won.
pub fn final_lists_have_no_model()
    ensures { FinalListsHaveNoModel }
{}

/// Its formulas are boolean terms.
pub fn final_lists_are_terms()
    ensures { FinalListsAreTerms }
{}

/// A core that has the clauses of a final list, and no steps, may be charged to the final lane.
pub fn final_lists_may_be_charged()
    ensures { FinalListsMayBeCharged }
{}

/// A list with further formulas behind takes no fewer variables.
pub fn longer_lists_take_more()
    ensures { LongerListsTakeMore }
{}

/// A final list is over-large where the formulas in its front take too many variables.
pub fn over_large_final_lists()
    ensures { OverLargeFinalLists }
{}

/// The steps of a core that numbers on from ids in the range have ids and hints in the range.
pub fn steps_have_ids()
    ensures { StepsHaveIds }
{}
