//! What is known of the definitions of problems, clauses and certificates: each function's contract
//! is a law.

ghost use Rattle.qv_words.specs.DefinitionLaws.{
  TreeEqDecides,
  QuantifierTestDecides,
  ExpansionWithoutLast,
  LinkedWithoutLast,
  LinkedByOneMore,
  SectionsHaveTerms,
  UnquantifiedIsMatrix,
};
ghost use Rattle.qv_words.specs.PassLaws.{
  PassesKeepValues,
  AllPassesKeepValues,
  PassesInARowKeepValues,
  SimpleFormulasStay,
  FixedFormulasAreSimple,
};
ghost use Rattle.qv_words.specs.TruthLaws.{
  NoFormulasAreTrue,
  PartsAreTrue,
  FixedTruth,
  ConstantsDecideTruth,
  AssertionsMeanTruth,
};
ghost use Rattle.qv_words.specs.GameLaws.{WinningAtStart, OneWinner};
ghost use Rattle.qv_words.specs.ChoiceLaws.{
  ChosenTermsStandOutside,
  ChosenTermsKeepTruth,
  ChosenBlocksKeepTruth,
  OneChoice,
};

/// Two trees are the same exactly where the definitions' test says so.
pub fn tree_eq_decides()
    ensures { TreeEqDecides }
{}

/// No quantifier stands in a tree exactly where the test finds none.
pub fn quantifier_test_decides()
    ensures { QuantifierTestDecides }
{}

/// An expansion list with its last line dropped is one.
pub fn expansion_without_last()
    ensures { ExpansionWithoutLast }
{}

/// A linked list of entries with its last one dropped is linked.
pub fn linked_without_last()
    ensures { LinkedWithoutLast }
{}

/// A list with one more entry is linked exactly where the list is and the entry may come behind it.
pub fn linked_by_one_more()
    ensures { LinkedByOneMore }
{}

/// A formula without quantifiers and constants is its own prenex problem, over no places.
pub fn unquantified_is_matrix()
    ensures { UnquantifiedIsMatrix }
{}

/// In a Skolem section each existential place has a term of its sort.
pub fn sections_have_terms()
    ensures { SectionsHaveTerms }
{}

/// After a pass each formula is sorted as before, over leaves that it had, and, under all values,
/// means what it meant.
pub fn passes_keep_values()
    ensures { PassesKeepValues }
{}

/// So is each formula after all ten passes in their order.
pub fn all_passes_keep_values()
    ensures { AllPassesKeepValues }
{}

/// And so it is after any passes in a row.
pub fn passes_in_a_row_keep_values()
    ensures { PassesInARowKeepValues }
{}

/// A formula is simple exactly where every pass leaves it as it is.
pub fn simple_formulas_stay()
    ensures { SimpleFormulasStay }
{}

/// Formulas are simple exactly where all ten passes in their order leave them as they are.
pub fn fixed_formulas_are_simple()
    ensures { FixedFormulasAreSimple }
{}

/// The empty list of formulas is true.
pub fn no_formulas_are_true()
    ensures { NoFormulasAreTrue }
{}

/// Where formulas are true together, so are those in front and those behind.
pub fn parts_are_true()
    ensures { PartsAreTrue }
{}

/// A formula without constants is true exactly where it means 1.
pub fn fixed_truth()
    ensures { FixedTruth }
{}

/// Values that agree on the constants of formulas make the same ones hold.
pub fn constants_decide_truth()
    ensures { ConstantsDecideTruth }
{}

/// What may be asserted means 1 or 0, with values for its constants.
pub fn assertions_mean_truth()
    ensures { AssertionsMeanTruth }
{}

/// A term that is chosen for a place of a block has no quantifiers and no place of the block.
pub fn chosen_terms_stand_outside()
    ensures { ChosenTermsStandOutside }
{}

/// With the term that is chosen for a place, a region that is true at the point stays so.
pub fn chosen_terms_keep_truth()
    ensures { ChosenTermsKeepTruth }
{}

/// So does one with the terms that are chosen for the places of a block.
pub fn chosen_blocks_keep_truth()
    ensures { ChosenBlocksKeepTruth }
{}

/// The terms that are chosen for the places of a block are the only ones.
pub fn one_choice()
    ensures { OneChoice }
{}

/// From the start the existential player wins exactly where the problem holds.
pub fn winning_at_start()
    ensures { WinningAtStart }
{}

/// From no point do both players win.
pub fn one_winner()
    ensures { OneWinner }
{}
