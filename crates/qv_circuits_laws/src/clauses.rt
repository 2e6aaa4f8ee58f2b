//! What is known of clause lists: each function's contract is a law.

ghost use Rattle.qv_circuits_laws.specs.ClauseLaws.{GatesGoOn, NodesAreFirstAppearances};
ghost use Rattle.qv_circuits_laws.specs.ClauseLaws.{NodesHaveBits, SubtreesHaveBits, BitsAreFound};
ghost use Rattle.qv_circuits_laws.specs.ClauseLaws.{BitsAreFoundInOrder, ClauseListsAreWellFormed};
ghost use Rattle.qv_circuits_laws.specs.ClauseLaws.{NextIsBehind, LongerListsBeginAlike, ListsGoOn};
ghost use Rattle.qv_circuits_laws.specs.ClauseLaws.{NodesAddTheirs, OneMoreFormula, NodesAreWalked};
ghost use Rattle.qv_circuits_laws.specs.ClauseLaws.{ModelsEvaluateFormulas, ClausesTheorem};
ghost use Rattle.qv_circuits_laws.specs.ClauseLaws.{BitsGiveValues, ModelsGiveValues};

/// The clauses of gates behind others are those of these and then of the gates.
pub fn gates_go_on()
    ensures { GatesGoOn }
{}

/// The nodes of formulas are their subtrees that stand below no quantifier, in post-order, each
/// where it first appears.
pub fn nodes_are_first_appearances()
    ensures { NodesAreFirstAppearances }
{}

/// The trees to which the clause list of formulas without quantifiers gives bits are the nodes, in
/// their order.
pub fn nodes_have_bits()
    ensures { NodesHaveBits }
{}

/// In the clause list of formulas without quantifiers a tree has bits exactly where it is a subtree
/// of one.
pub fn subtrees_have_bits()
    ensures { SubtreesHaveBits }
{}

/// There the bits that are found for a tree are those that it was given.
pub fn bits_are_found()
    ensures { BitsAreFound }
{}

/// Bits are found where a tree is among those that have some, and in front of a list before behind
/// it.
pub fn bits_are_found_in_order()
    ensures { BitsAreFoundInOrder }
{}

/// The clauses and the bits of trees in a clause list are of its variables, numbered from 1, and a
/// tree has as many bits as its sort.
pub fn clause_lists_are_well_formed()
    ensures { ClauseListsAreWellFormed }
{}

/// The next variable is the one behind those of a clause list, which has at least one.
pub fn next_is_behind()
    ensures { NextIsBehind }
{}

/// The clauses of a longer list of formulas begin with those of the list.
pub fn longer_lists_begin_alike()
    ensures { LongerListsBeginAlike }
{}

/// A clause list goes on with further formulas, or nodes, from where it stands.
pub fn lists_go_on()
    ensures { ListsGoOn }
{}

/// Nodes add their clauses behind those that are there, and take the next variables.
pub fn nodes_add_theirs()
    ensures { NodesAddTheirs }
{}

/// The clauses of a list with one more formula are those of the list, those of the formula's new
/// nodes, and its bit.
pub fn one_more_formula()
    ensures { OneMoreFormula }
{}

/// The new nodes of a tree, one after the other, are one recursive walk.
pub fn nodes_are_walked()
    ensures { NodesAreWalked }
{}

/// The models of the clauses of formulas evaluate the gates and make each formula's bit true.
pub fn models_evaluate_formulas()
    ensures { ModelsEvaluateFormulas }
{}

/// Values make formulas true exactly where some assignment with their bits at the leaves makes the
/// clauses true.
pub fn clauses_mean()
    ensures { ClausesTheorem }
{}

/// Values whose bits stand at the leaves of formulas are of the leaves' sorts.
pub fn bits_give_values()
    ensures { BitsGiveValues }
{}

/// An assignment that makes the clauses of formulas without constants true gives the levels values,
/// by the bits of their variables, which have the variables' sorts and make the formulas true.
pub fn models_give_values()
    ensures { ModelsGiveValues }
{}
